//! The rules on names and limits of a source whose tokens are a file of the grammar.
//!
//! `check_names` returns the first token that breaks a rule, with its fault, which is the first one of the table of `specs/Rules.antt`; or, where
//! no token breaks one, the nodes of each expression in postfix order, with names resolved and literals read.
#![tactic(auto)]

pub mod faults;
pub mod nodes;
pub mod reading;
pub mod resolve;
pub mod roles;
pub mod spans;
mod tokens;
pub mod walk;

pub use faults::{Fault, Found, LimitWhat, NameWhat, NamesStop};
pub use nodes::{Body, Node, Operation, What};
pub use walk::{check_names, faultless_is_within, judges_in_order, one_fault};
