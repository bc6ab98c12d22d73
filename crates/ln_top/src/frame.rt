//! What the commands of the program have in common: how a call ends, why it stops before its work, what the work is done on, and the writing of texts.
//!
//! `Ready` is what the steps before the work have made. A work returns an `End` that the files require, or ends early: `CarriesOut` says, whatever
//! the command, what it has done of what is required. `say` writes the line of a stop, `put_text` a whole text, `put_rest` what was gathered of lines.

pub mod asked;
pub mod place;
pub mod put;
pub mod ready;
pub mod status;
pub mod stop;
