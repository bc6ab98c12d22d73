//! The commands that write one text for a whole source: `check`, `list` and `emit`.
//!
//! Each has a file with its work. A program is made, appended to the text and dropped before the next is made; the text is complete before its first
//! byte is written. `written` makes the C in each style, also for C without filters.

pub mod check;
pub mod emit;
pub mod list;
pub mod written;
