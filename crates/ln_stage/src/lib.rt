//! Stage lists: for each order of the sites of a predicate the exponents at which a derivative has to be looked at, in
//! turn, on a row whose plain value is 0.
//!
//! A list goes site by site: its segment at a prefix of the order has what needs the last site of the prefix and none after
//! it, so it is the same for all orders that begin so. Each prefix is walked once.
//!
//! What the crates above use: `stages` returns the segment of each prefix and the stage list of each order, with the blocks
//! numbered in order of first sight, or exactly why there is none; `Stages` has its five readers.
#![tactic(auto)]

pub mod accepted;
pub mod laws;
pub(crate) mod layers;
pub mod lists;
pub mod segments;
pub mod stop;
pub mod symmetry;
pub mod table;
pub(crate) mod tally;
pub(crate) mod visits;
pub(crate) mod walk;

pub use accepted::{Accepted, Basis, bases_of};
pub use laws::{
    cut_loses_nothing, derivatives_are_coefficients, first_seen_are_sighted, list_is_unique,
    lists_are_those_of_trees, product_rule, there_is_a_first,
};
pub use lists::{graded_stages, stages};
pub use segments::{
    first_sight_by_prefixes, list_has_its_segments, segment_is_of_the_prefix, segment_is_unique,
    segments_make_the_list, walk_goes_site_by_site,
};
pub use stop::StageStop;
pub use symmetry::{Symmetry, symmetry_of};
pub use table::Stages;
