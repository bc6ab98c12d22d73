//! Signs of products of predicates.
//!
//! The product itself isn't formed: its coefficients may exceed every limit. `product_row` runs the programs of the factors on one row,
//! each in its own ranges and widths, and multiplies their signs. The result is the perturbed sign of the product, by the law that the
//! first vectors of factors add up.
#![tactic(auto)]

pub mod laws;
pub mod product;

pub use laws::{firsts_add, signs_multiply};
pub use product::product_row;
