//! Compiles a source to its table and the stack program of each predicate, or refuses it.
//!
//! `check` returns the table of a source whose predicates are all accepted, with the stage count of each, or the one refusal that is required:
//! the first fault of its text; else, of the first predicate that has a fault, a node whose range or size doesn't fit 128 bits, a node with too
//! many terms, too large a normal polynomial, a root that is 0 however it is perturbed, or too many stages, in that order. What is accepted by
//! the weights of its nodes is accepted so (`what_was_accepted_stays_accepted`).
//!
//! A program takes far more memory than a table, so `Checked` makes the program of one predicate or of all where it is asked for;
//! `compile` does both at once. Each program carries its predicate's root: its lists are the stage lists of all orders of the sites,
//! and each block computes the scaled derivative of the normal polynomial by its exponents.
//!
//! The crate ln_due defines the verdict that is required on a row; the law of `due` adds which filter a predicate has and where it decides.
#![tactic(auto)]

pub mod blocks;
pub mod checked;
pub mod due;
pub(crate) mod judge;
pub mod laws;
pub(crate) mod program;
pub(crate) mod programs;
pub mod refusal;
pub mod source;

pub use checked::{Checked, check};
pub use refusal::Refusal;
pub use source::{Compiled, compile};
