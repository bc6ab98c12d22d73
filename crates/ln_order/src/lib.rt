//! The order of the sites of a row by their indices: `order_of` lists the places of the sites by rising index, the largest
//! infinitesimals first, or returns the site that has the index of an earlier one. `all_orders` lists all orders of n
//! sites, and `earlier` compares exponents in one. The laws of `rows` say of the perturbed sign of a row that it is one, and
//! that it may be looked for along the stage list of the row's order.
#![tactic(auto)]

pub mod equal;
pub mod exchanges;
pub mod found;
pub mod front;
pub mod infinitesimals;
pub mod order;
pub mod orders;
pub mod prefix;
pub mod rank;
pub mod rows;

pub use equal::{Equal, first_equal};
pub use exchanges::{exchanges_turn_row_signs, neighbours_of_one_type, rows_sort};
pub use front::Front;
pub use infinitesimals::{earlier, front_ranking, orders_are_those_of_rows, ranking, vars_of_site};
pub use order::Order;
pub use orders::{all_orders, orders_are_all};
pub use prefix::{
    all_prefixes, at_prefix, fronts_are_prefixes, fronts_follow, prefix_number, prefixes_are_all,
};
pub use rank::order_of;
pub use rows::{
    row_sign_exists, row_sign_is_unique, rows_have_one_order, sites_differ,
    stages_are_those_of_rows,
};
