//! The mathematics of the perturbed sign, and its laws.
//!
//! The definitions are in `specs/`: exponent vectors, expressions, their
//! coefficients at a perturbed point, polynomials with their scaled
//! derivatives, the orders of infinitesimals, stages and the cut, the
//! perturbed sign, products of signs, weights. Sources are Simulation of Simplicity
//! (Edelsbrunner and Mücke 1990) and Yap's admissible orders (1990);
//! `docs/SEMANTICS.md` describes it in prose.
//!
//! The public contract is the laws. Each is the clause of a function with an
//! empty body: a caller that calls it has the law as a fact. Nothing runs.
#![tactic(auto)]

mod coefficients;
mod derivatives;
mod exchanges;
mod infinitesimals;
mod orders;
mod sizing;
mod splitting;
mod staging;
mod weighing;
mod worked;

pub use coefficients::{coefficients_vanish_above_degree, products_are_sums_over_ways};
pub use derivatives::{
    derivatives_are_coefficients, derivatives_on_rows, derived_coefficients, product_rule,
};
pub use exchanges::{exchanges_turn_signs, terms_turn};
pub use infinitesimals::{earlier_is_an_order, first_is_unique, stage_list_is_unique};
pub use orders::{
    a_first_in_either, both_are_admissible, one_answer_in_either, products_have_sums,
    the_cut_in_either,
};
pub use sizing::{coefficients_are_within_sizes, sizes_are_within_weights};
pub use splitting::{covered_by_is_all, splits_are_all_sums, ways_are_all_sums};
pub use staging::{
    cut_loses_nothing, layers_list_the_stages, there_is_a_first, walk_lists_the_stages,
};
pub use weighing::{
    derivatives_weigh_the_whole, normal_weighs_at_most_the_tree, values_are_within_weights,
};
pub use worked::{
    worked_coefficients, worked_derivatives, worked_orders, worked_signs, worked_stages,
};
