//! Files on a disk, the two streams of a process and its words.
//!
//! `DiskFiles` meets the contract of `Files` and `StdConsole` that of `Console`: a refusal comes only where the count of faults rose or is
//! at `2^64 - 1`, and they tell nothing of their bytes, since no clause says which bytes reach or leave the system; that is what is
//! trusted. Clauses say what they do with a reader or a writer whose bytes are known: what was written is what the writer took (`put`), and
//! what is before a place in a file is passed over. Tests of `ln_trial_language` show the rest.
#![tactic(auto)]

pub mod console;
pub mod files;
mod tries;
pub mod words;

pub use console::StdConsole;
pub use files::DiskFiles;
pub use words::words_of;
