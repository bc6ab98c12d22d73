//! Ranges of integers by a low and a high end: interval arithmetic (Moore 1966) without rounding.
//!
//! What the crates above use: each operation on pairs returns exactly the operation's range, or `None` exactly where an end exceeds `2^127 - 1`
//! in absolute value; and the laws that a range holds the values of its operation, that operations on covered ranges are covered, and that
//! magnitudes follow the operations.
#![tactic(auto)]

pub mod laws;
pub mod operations;
pub mod pair;

pub use pair::Pair;
