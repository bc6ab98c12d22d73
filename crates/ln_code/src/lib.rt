//! The stack program of a predicate, and the rows on which it runs.
//!
//! A block or a filter is a list of operations on a stack; `Program` keeps the invariant that each follows the rules on pairs and widths, and so
//! `run_row` checks nothing when it runs: on every row in range it returns the result of the machine over integers, that is the sign, what
//! decided it, and how many wide operations and calls it took, and each value stays in its pair and its width. `block_value` returns the value
//! of one block on a row.
#![tactic(auto)]

pub(crate) mod arithmetic;
pub mod block;
pub mod builder;
pub mod draft;
pub mod exps;
pub mod filter_block;
pub mod halving;
pub mod laws;
pub mod op;
pub(crate) mod processor;
pub mod program;
pub mod programs;
pub mod row;
pub mod run;
pub mod scratch;
pub mod verdict;
pub mod walk;

pub use arithmetic::cut;
pub use block::Block;
pub use builder::{Builder, Built};
pub use draft::Draft;
pub use exps::{are_below, are_of_sites, exps_of};
pub use filter_block::FilterBlock;
pub use halving::{error_after, shifted};
pub use op::{Op, Triple};
pub use program::Program;
pub use programs::Programs;
pub use row::Row;
pub use run::{block_value, decided, run_row, sign_of};
pub use scratch::Scratch;
pub use verdict::{By, Verdict};
pub use walk::{Marks, put_tree};
