//! Rows files: CSV whose first record names the columns of a predicate. `Rows` returns the records, in order: its `header` compares
//! the first one with the columns' names, and its `next_row` reads each other one: exactly the row that it says, which is in range,
//! or the first fault that it has. Records without quotes are read right from the bytes: rows of plain numbers by `plain`, any
//! other by `line`, which keeps no more fields than it takes. From the first record with a quote on csv's own reader reads (`quoted`).
#![tactic(auto)]

mod left;
mod line;
pub mod names;
pub mod numbers;
mod plain;
mod quoted;
pub mod record;
pub mod rows;

pub use names::header;
pub use numbers::{NumberStop, number};
pub use record::{RowStop, field, fill_row, row};
pub use rows::Rows;
