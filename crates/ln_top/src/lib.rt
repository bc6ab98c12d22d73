//! The top call: the words, the files and the console that are handed in, and the status.
//!
//! `lnc` carries out the commands of `Command` (words.rt). Over files whose bytes are known, each status but those of faults and of running out of
//! memory is exactly the one that the definition of the program's output requires, and so are the bytes on both streams. Each such status comes
//! exactly where its cause is, so valid input is carried out unless memory runs out or a count of faults rises. What each command writes is defined in
//! a file of its own, beside the file with its work: those that write a text for a whole source in `texts`, those that judge in `judges`, those that write
//! for each record or row in `signs`. `lnc`'s clauses say of what it prints that it is right: signs are perturbed ones, listings and traces
//! valid, and calls of emitted C mean perturbed signs.
//!
//! The words become a plan, which says what the work needs; the steps that prepare it and the contract of every level name no command.
#![tactic(auto)]

pub mod exit;
pub mod frame;
pub mod judges;
pub mod laws;
pub mod prepare;
pub mod signs;
pub mod source;
pub mod target;
pub mod texts;
pub mod top;
pub mod unfiltered;
pub mod words;

pub use exit::{exit_code, has_watchers};
pub use frame::status::Status;
pub use signs::gen_row::gen_row;
pub use top::lnc;
pub use unfiltered::exact;
pub use words::{Command, check_words};
