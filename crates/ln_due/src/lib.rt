//! Defines the verdict that is required on a row, and proves that a part which carries an expression returns it.
//!
//! A part carries an expression where its blocks have the scaled derivatives of the expression's normal polynomial as their
//! polynomials, and its lists are the stage lists of all orders of the sites. The machine's verdict on a row in range is then the
//! required one: the sign of the first coefficient that isn't 0 at perturbed inputs, its place among the stages of the
//! row's order, and the calls up to it; or the same sign from the filter, where that decides. Programs that are compiled and parts
//! of a listing that are judged valid both come here.
//!
//! The laws hold in either order of infinitesimals, by the smallest one that differs and by total degree first; `run` has those of
//! the first under names of their own.
//!
//! What a program of either order has in common is here too: `blocks_after` makes its blocks over a maker of one that is passed in.
#![tactic(auto)]

pub mod due;
pub mod maker;
pub mod run;
pub mod steps;

pub use due::{
    blocks_run, due_is_unique, plain_values_decide, stages_are_coefficients, verdicts_are_due,
    without_params_never_zero,
};
pub use maker::{BlockMaker, blocks_after};
pub use run::run_is_due;
pub use steps::verdicts_are_told;
