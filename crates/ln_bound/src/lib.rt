//! Ranges and sizes of predicates, known before any row is seen.
//!
//! `weigh` returns the ranges and sizes of a predicate's nodes, or the first node whose range or size exceeds `2^127 - 1`; `size` returns the
//! predicate's trees with a range and a width at each node, exactly. On every row in range each node's value is between its two ends and fits
//! its width: that is the law `sound_trees_hold_their_values`. No range and no size exceeds the limit where no node's weight does: that is the
//! law `light_nodes_stay_light`.
#![tactic(auto)]

pub mod fitted;
pub mod fitted_pred;
pub mod laws;
pub mod measure;
pub mod ranges;
pub mod same;
pub mod size;
pub mod sound;
pub mod weigh;

pub use fitted::{FitOp, Fitted, Two, Width};
pub use fitted_pred::FittedPred;
pub use measure::Measure;
pub use weigh::{BoundStop, Weights};
