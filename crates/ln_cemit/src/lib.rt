//! C for programs, and what is promised of it.
//!
//! `emit` writes one file of the C subset (ln_csyn) for a list of programs; `begin_file` and `put_program` write it program by program, so
//! that each may be dropped before the next is made. `IsEmitted` defines what it is (`specs/Emitted.antt`): the bytes
//! are a file of the subset with all side conditions, and on every row in range a call of `ln_NAME` means the sign and the calls of the
//! machine's verdict, with no wide operation where the filter decides. `put_program_as` gives that function another name, which says that
//! its program is right on fewer rows. The file itself is `file_of` (`specs/Whole.antt`): a function for
//! the filter and for each block, one declaration for each operation (`specs/Emit.antt`), and the function with two parameters, which
//! looks for a further site only where all blocks before it are 0 (`specs/Walked.antt`).
#![tactic(auto)]

pub(crate) mod body;
pub(crate) mod constant;
pub mod entry;
pub mod file;
pub mod laws;
pub(crate) mod put;
pub(crate) mod slot;
pub(crate) mod title;
pub mod two;
pub(crate) mod walk;

pub use entry::Entry;
pub use file::{begin_file, emit, put_program, put_program_as};
