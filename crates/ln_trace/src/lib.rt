//! Traces of rows: which members of a row's stage list were looked at, with the value of each coefficient, and the sign.
//!
//! A trace is judged line by line by a predicate's polynomial and its stage lists, never by a program: so an agreed trace,
//! whoever made it, has the perturbed sign of each row.
#![tactic(auto)]

pub mod at_line;
pub mod explain;
pub mod exps;
pub mod form_laws;
pub mod grounds;
pub mod judged;
pub mod judging;
pub mod kinds;
pub mod laws;
pub mod line;
pub mod lines;
pub mod next;
pub mod pointer;
pub mod progress;
pub mod put;
pub mod read;
pub mod rules;
pub mod state;
pub mod trace;
pub mod words;

pub use explain::{blocks_are_explained, explain_row};
pub use form_laws::{explained_values_are_small, one_form_fault, one_trace, records_are_traces};
pub use judged::Judged;
pub use judging::{judge, judge_lines};
pub use laws::{agreed_traces_give_signs, explained_is_agreed, lines_are_walked};
pub use line::TraceLine;
pub use lines::TraceLines;
pub use put::put_refused;
pub use read::{TraceStop, read_trace, trace_lines};
pub use trace::Trace;
