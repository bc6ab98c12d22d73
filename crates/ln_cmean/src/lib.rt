//! The meaning of a C file of the subset, run: an evaluator over declarations in memory that was made beforehand.
//!
//! `CScratch::new` allocates that memory for a file; no other call allocates. `call` returns exactly what `CCall` of ln_csyn says
//! of a function with two parameters: its sign, how many operations were done in `__int128` and how many functions were called; or
//! that no such function has the name; or the line at which the call has no meaning. It recurses into expressions and braces alone,
//! which the subset limits to 16 parentheses and 64 braces, and once into a function that is called. `program` has the work of the
//! program lnc_c, over texts of calls.
#![tactic(auto)]

mod body;
mod calling;
mod calls;
mod expr;
mod functions;
mod inputs;
mod names;
mod need;
mod number;
pub mod program;
mod scratch;
mod slot;
mod stack;

pub use calling::{CAnswer, CFault, call};
pub use program::{Stop, carry_out, exit_code};
pub use scratch::CScratch;
