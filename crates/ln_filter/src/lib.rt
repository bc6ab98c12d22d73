//! Plans the filter of a predicate: operations on truncated numbers that decide the sign of a row where the error allows it.
//!
//! `plan` writes a filter for a predicate: operations on truncated numbers of at most 63 bits, each with an exponent, a size and
//! an error. Where what the filter leaves on a row is above its error, it has the sign of the predicate's value
//! (`filter_is_never_wrong`).
#![tactic(auto)]

pub(crate) mod arithmetic;
pub(crate) mod emit;
pub mod filters;
pub mod laws;
pub(crate) mod marks;

pub use filters::plan;
