//! Tests that name the public calls of the crates, each by its crate and name with its arguments and its result, so that they don't compile where one
//! is missing or has another type; and worked values of calls that no test of another crate makes. There is nothing else in this crate.
//!
//! `outside` has files and streams, `names` and `language` tables, tokens and texts, `bounds` ranges and widths, `polynomials` sums, products and nested
//! forms, `orders` orders of sites and stages, `filters` filters, `programs` what sources are compiled to, `joined` a program from its parts, `verdicts`
//! values of blocks, `outputs` listings, `files` C, `rows` records and points, `traces` traces, `commands` watchers and the program. `read` reads a row.
#![tactic(auto)]

#[cfg(test)]
mod bounds;
#[cfg(test)]
mod commands;
#[cfg(test)]
mod files;
#[cfg(test)]
mod filters;
#[cfg(test)]
mod joined;
#[cfg(test)]
mod language;
#[cfg(test)]
mod names;
#[cfg(test)]
mod orders;
#[cfg(test)]
mod outputs;
#[cfg(test)]
mod outside;
#[cfg(test)]
mod polynomials;
#[cfg(test)]
mod programs;
#[cfg(test)]
mod read;
#[cfg(test)]
mod rows;
#[cfg(test)]
mod traces;
#[cfg(test)]
mod verdicts;
