//! Polynomials as trees in nested form.
//!
//! What the crates above use: `nest` returns a tree with ranges and widths that is sound over the shape and has the given
//! polynomial. Each range is within the polynomial's weighted sum, its cost is small, and no node has more terms or
//! larger exponents than the polynomial itself, which `lean_polynomials_are_short` states in terms of normal polynomials.
#![tactic(auto)]

pub mod horner;
pub mod laws;
pub mod work;

pub use horner::nest;
pub use laws::{lean_polynomials_are_short, nested_forms_stay_within};
