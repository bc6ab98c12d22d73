//! The commands that write for each record or row: `run`, `graded`, `product`, `explain` and `gen`.
//!
//! Each has a file with its work. Lines are gathered and written in pieces. The watchers come by value, and the panel that holds them is here, beside the
//! loops that show verdicts to it.

pub mod explain;
mod gather;
pub mod gen_row;
pub mod generate;
pub mod graded;
mod named;
pub mod panel;
pub mod product;
mod records;
pub mod run;
mod watching;
