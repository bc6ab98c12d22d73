//! Tests of programs and how they are compiled, of rows and of watchers: each calls public functions alone, so that none of these crates is
//! proved once more with tests of its own. `sample` has what the tests of other crates use too. There is nothing else in this crate.
#![tactic(auto)]

#[cfg(test)]
mod code;
#[cfg(test)]
mod compile;
#[cfg(test)]
mod edges;
#[cfg(test)]
mod factors;
#[cfg(test)]
mod points;
#[cfg(test)]
mod refusal;
#[cfg(test)]
mod rows;
pub mod sample;
#[cfg(test)]
mod watch;
