//! The base of every crate: files and streams with their counts of faults (`outside`), in memory (`memory`), whole files and whole texts
//! (`whole`), lists that contracts see as lists (`seq`), decimal numbers (`decimal`), places in a source (`span`, `place`), names (`word`) and
//! signs (`sign`), the limits of what is accepted (`limits`). For texts of lines, such as listings and traces: the words of a line (`scan`),
//! the numbers that words are (`numeral`), lists whose items are words (`items`), words appended (`put`), and the lines of a text of a form, one
//! after the other (`lines`).
//!
//! What the crates above use: `read_whole` returns the bytes that a file contains, `put_all` writes all bytes to a stream, and a refusal has its
//! cause, a count of faults that rose or a name that isn't there.
#![tactic(auto)]

pub mod calls;
pub mod decimal;
mod gather;
pub mod items;
pub mod limits;
pub mod lines;
pub mod memory;
pub mod numeral;
pub mod outside;
pub mod place;
pub mod put;
pub mod scan;
pub mod seq;
pub mod sign;
pub mod span;
pub mod whole;
pub mod word;

pub use calls::Call;
pub use decimal::Reading;
pub use memory::{MemConsole, MemFiles};
pub use outside::{Console, Failed, Files, NoMemory, Port, ReportsNoMemory};
pub use place::line_col;
pub use seq::Seq;
pub use sign::Sign;
pub use span::Span;
pub use whole::{ReadStop, put_all, read_whole};
