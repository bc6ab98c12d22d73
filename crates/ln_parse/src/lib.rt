//! Sources to tables, and tables to their canonical text.
//!
//! `parse` returns the table of a source: its bytes are tokens, the tokens are a file of the grammar, no rule of names
//! and limits has a fault, and the table is what the items say. A refusal is the fault of the first pass that finds
//! one, with its place, and then no table has the text; or memory ran out. By `one_answer` no text has two tables, two
//! faults, or a table and a fault. `print` returns the canonical text of a table.
//!
//! The passes are in the crates below (`tokens`, `nesting_fault`, `syntax_fault`, `read_items`, `check_names`). The table is built last, from
//! the items and the nodes of their expressions, where nothing but an allocation can fail.
#![tactic(auto)]

mod build;
mod expression;
mod layout;
mod name;
mod predicate;
pub mod printer;
pub mod source;

pub use ln_names::{LimitWhat, NameWhat};
pub use printer::print;
pub use source::{ParseStop, one_answer, parse};
