//! Watchers of verdicts gather what they see of each row, and tell it in one line.
//!
//! A watcher gathers a tally, a list of integers, and has a kind, which no call changes. The kind says how a verdict changes
//! the tally, when the watcher has seen enough, and which line it has (`specs/Fold.antt`). Three kinds are here: how often each
//! sign came (`SignWatch`), what decided (`DeciderWatch`), and the first rows that were perturbed (`FirstWatch`). `Watcher` is one of
//! them, and `Watcher::those_of_gen` makes those of the program, in order.
//!
//! The lines that a list of watchers writes for verdicts, one after the other, are defined here too (`specs/Panel.antt`). The code that writes them
//! is in the crate that shows verdicts to watchers.
#![tactic(auto)]

pub mod decider_watch;
pub mod first_watch;
pub mod laws;
pub mod line;
pub mod sign_watch;
pub mod watch;
pub mod watcher;

pub use decider_watch::DeciderWatch;
pub use first_watch::FirstWatch;
pub use line::Line;
pub use sign_watch::SignWatch;
pub use watch::{Keep, Watch};
pub use watcher::Watcher;
