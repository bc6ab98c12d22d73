//! Tests of C and of listings: each calls public functions alone, so that none of these crates is proved once more with tests of its own.
//! There is nothing else in this crate.
#![tactic(auto)]

#[cfg(test)]
mod cmean;
#[cfg(test)]
mod csyn;
#[cfg(test)]
mod listings;
