//! Tests of the program as a whole: what `ln_top::lnc` writes over files and streams in memory. There is nothing else in this crate.
//!
//! Most cases of words and files run on the program itself (examples/checks/said.py). Here are those that need more: `failing` has streams and files that
//! fail at each of their calls, `commands` streams that are too short and which files are read, `watchers` what watchers that are handed in say of
//! records, `panel` what they say of verdicts, `listings` what `list` writes, read back, `emitted` what `emit` writes, read back and called, `generated`
//! what `gen` writes, `many` long runs, of which no clause speaks. `verdicts`, `by_degree`, `verified`, `traced` and `symmetry` call `run_row`,
//! `graded`, `verify`, `judge` and `Checked::symmetry` themselves. `spheres` has a source. Random predicates are compared by examples/checks/plain.py.
//!
//! One function of `support` calls `lnc`, and the others call that: each caller of `lnc` takes the check long.
#![tactic(auto)]

#[cfg(test)]
mod by_degree;
#[cfg(test)]
mod commands;
#[cfg(test)]
mod emitted;
#[cfg(test)]
mod failing;
#[cfg(test)]
mod generated;
#[cfg(test)]
mod listings;
#[cfg(test)]
mod many;
#[cfg(test)]
mod panel;
#[cfg(test)]
mod spheres;
#[cfg(test)]
mod support;
#[cfg(test)]
mod symmetry;
#[cfg(test)]
mod traced;
#[cfg(test)]
mod verdicts;
#[cfg(test)]
mod verified;
#[cfg(test)]
mod watchers;
