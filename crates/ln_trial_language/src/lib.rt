//! Tests of the crates that a source goes through until it is a table, and of those below them: each calls public functions alone, so that
//! none of these crates is proved once more with tests of its own. There is nothing else in this crate.
#![tactic(auto)]

#[cfg(test)]
mod base;
#[cfg(test)]
mod disk;
#[cfg(test)]
mod faults;
#[cfg(test)]
mod lex;
#[cfg(test)]
mod names;
#[cfg(test)]
mod parse;
#[cfg(test)]
mod syntax;
