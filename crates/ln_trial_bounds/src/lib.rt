//! Tests of ranges, polynomials, orders and stages: each calls public functions alone, so that none of these crates is proved once more
//! with tests of its own. There is nothing else in this crate.
#![tactic(auto)]

#[cfg(test)]
mod bound;
#[cfg(test)]
mod graded;
#[cfg(test)]
mod interval;
#[cfg(test)]
mod orders;
#[cfg(test)]
mod poly;
#[cfg(test)]
mod sources;
#[cfg(test)]
mod spheres;
#[cfg(test)]
mod stages;
