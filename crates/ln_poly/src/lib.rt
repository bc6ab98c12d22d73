//! Polynomials with integer coefficients: terms in the lexicographic order of their monomials, distinct and without zeros. Products keep that
//! order, so sums and products of polynomials are merges, and nothing sorts terms.
//!
//! What the crates above use: `normal` is the normal polynomial of a predicate's root, or the first node that has more
//! than 1,024 terms. `add`, `sum` and `sub` have the coefficients of the sum and the difference, `mul` those of the product, and
//! `mul_within` too, or none where it has more terms than are wanted; `derive` has those of the scaled derivative by one variable, `derive_by` by several;
//! `value_at` is the value of a scaled derivative on a row, without forming it. `weight` and `heft` are weighted sums.
#![tactic(auto)]

pub mod arithmetic;
pub mod binomials;
pub mod derivatives;
pub mod expansion;
pub mod fields;
pub mod key;
pub mod leaf;
pub mod merge;
pub mod packed;
pub mod poly;
pub mod sizes;
pub mod sums;
pub mod terms;
pub mod times;
pub mod values;
pub mod weights;
pub mod within;

pub use arithmetic::{add, negated, sub};
pub use binomials::Binomials;
pub use derivatives::{derive, derive_by};
pub use expansion::{PolyStop, normal};
pub use fields::largest;
pub use leaf::{number, power};
pub use poly::{Poly, is_constant, is_zero};
pub use sums::sum;
pub use values::value_at;
pub use weights::{heft, weight};
pub use within::{mul, mul_within};
