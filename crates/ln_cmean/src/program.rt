//! Calls of a C file of the subset: their text, and the lines that say what they mean.
//!
//! A text of calls has one on each line, `NAME INDICES VALUES`: the name of a function of two parameters, and what its `x` and its `v` hold, each as
//! integers of 64 bits with a comma between any two. `carry_out` reads a C file and such a text, and writes a line for each call: its sign and its two
//! counts by the meaning of the subset (`CCall` of ln_csyn), the line at which it has no meaning, or that the file has no such function. `exit_code`
//! writes why it stopped.

mod calls;
mod carry;
pub mod laws;
mod meaning;
mod stop;

pub use carry::carry_out;
pub use stop::{Stop, exit_code};
