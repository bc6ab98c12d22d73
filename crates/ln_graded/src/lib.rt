//! Programs by total degree first.
//!
//! `graded` makes, of a predicate's program and its normal polynomial, the program of the same predicate in Yap's order of
//! infinitesimals by total degree: a stage of lower total degree counts before any of a higher one, so the first correction is a
//! linear one where there is one. The program has the other's filter and its first block; each further block computes the scaled
//! derivative at its stage; and the list of each order of the sites is whole where the order is. It is refused exactly where
//! these lists have more stages, or these stages more weight, than the limits allow.
//!
//! The verdict that a row requires is defined in ln_due; by the law `graded_is_due` it is that of such a program.
//!
//! Source: Yap's admissible orders, "Symbolic treatment of geometric degeneracies" (1990).
#![tactic(auto)]

pub(crate) mod blocks;
pub mod laws;
pub mod program;
pub mod stop;

pub use laws::{graded_is_due, graded_lists_are_one};
pub use program::{graded, graded_from};
pub use stop::GradedStop;
