//! What a trace is judged by.
use ln_poly::{Binomials, Poly};
use ln_stage::Stages;
use ln_tree::Pred;

/// What traces are judged by: a predicate, its polynomial, the stages of that, and the binomials that evaluate derivatives.
#[derive(Clone, Copy)]
pub struct Grounds<'a> {
    pub pred: &'a Pred,
    pub poly: &'a Poly,
    pub stages: &'a Stages,
    pub binomials: &'a Binomials,
}
