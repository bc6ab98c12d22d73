//! Tests a predicate for each of its faults: it is accepted, with its normal polynomial and its stages, or refused.
ghost use Rattle.std.specs.Prelude.{◌≡◌, ◌≤◌, All, length, IfErr, IfOk, OnOk};
ghost use Rattle.ln_algebra.specs.Vector.{total_degree};
ghost use Rattle.ln_algebra.specs.Weights.{weighted_sum};
ghost use Rattle.ln_tree.specs.Exps.{vector};
ghost use Rattle.ln_tree.specs.Table.{pred_of};
ghost use Rattle.ln_bound.specs.Light.{AreLight, most};
ghost use Rattle.ln_bound.specs.Value.{weights};
ghost use Rattle.ln_poly.specs.Expansion.{HaveFewTerms, IsNormal};
ghost use Rattle.ln_poly.specs.Sparse.{terms_of};
ghost use Rattle.ln_stage.specs.Accepted.{IsBasis};
ghost use Rattle.ln_stage.specs.Staged.{AreStagesOf};
ghost use Rattle.ln_compile.specs.Accepted.{IsHeavyFault, IsSound, expanded_of, loaded_of, root_of};
ghost use Rattle.ln_compile.specs.Refused.{StopsPred};

use crate::refusal::Refusal;
use ln_base::limits::{MOST_STAGES, MOST_WEIGHT};
use ln_bound::BoundStop;
use ln_bound::weigh::weigh;
use ln_poly::{Poly, PolyStop, heft, normal};
use ln_stage::{Basis, StageStop, Stages, stages};
use ln_tree::Pred;
use std::alloc::Global;

// Tests the ranges and sizes of the nodes of predicate number k.
#[tactic(auto, using(crate::proofs::Refusing::Judging::bound_stops))]
fn measured(alloc: Global, k: u8, p: &Pred) -> Result<(), Refusal>
    ensures light { OnOk result (AreLight (loaded_of (pred_of p.now))) }
    ensures err { IfErr result (λ r. StopsPred k (pred_of p.now) r) }
{
    match weigh(alloc, p) {
        Ok(_) => Ok(()),
        Err(BoundStop::Bound(at)) => Err(Refusal::Bound(k, at)),
        Err(BoundStop::NoMemory(e)) => Err(Refusal::NoMemory(e)),
    }
}

// The normal polynomial of predicate number k.
#[tactic(auto, using(crate::proofs::Refusing::Judging::terms_stops))]
fn expanded(alloc: Global, k: u8, p: &Pred) -> Result<Poly, Refusal>
    requires light { AreLight (loaded_of (pred_of p.now)) }
    ensures few { OnOk result (HaveFewTerms (length p.now.shape.vars) (expanded_of (pred_of p.now))) }
    ensures normal { IfOk result (λ f. IsNormal (length p.now.shape.vars) (root_of (pred_of p.now)) f) }
    ensures terms { IfOk result (λ f. length f ≤ 1024) }
    ensures degrees { IfOk result (λ f. All (λ t. total_degree (vector (length p.now.shape.vars) t.0) ≤ 126) f) }
    ensures err { IfErr result (λ r. StopsPred k (pred_of p.now) r) }
{
    match normal(alloc, p) {
        Ok(f) => Ok(f),
        Err(PolyStop::Terms(at)) => Err(Refusal::Terms(k, at)),
        Err(PolyStop::NoMemory(e)) => Err(Refusal::NoMemory(e)),
    }
}

// Tests the weight of predicate number k as a whole; f is its normal polynomial.
fn weighed(k: u8, p: &Pred, f: &Poly) -> Result<(), Refusal>
    requires light { AreLight (loaded_of (pred_of p.now)) }
    requires few { HaveFewTerms (length p.now.shape.vars) (expanded_of (pred_of p.now)) }
    requires normal { IsNormal (length p.now.shape.vars) (root_of (pred_of p.now)) f.now }
    ensures weight { OnOk result (weighted_sum (weights p.now.shape.vars) (terms_of (length p.now.shape.vars) f.now) ≤ most) }
    ensures whole { OnOk result (IsHeavyFault (pred_of p.now) → ⊥) }
    ensures err { IfErr result (λ r. StopsPred k (pred_of p.now) r) }
{
    match heft(f, &p.shape) {
        Some(_) => Ok(()),
        None => Err(Refusal::Bound(k, p.root.at)),
    }
}

// The stages of predicate number k, whose normal polynomial is f.
fn staged(alloc: Global, k: u8, p: &Pred, f: &Poly) -> Result<Stages, Refusal>
    requires light { AreLight (loaded_of (pred_of p.now)) }
    requires few { HaveFewTerms (length p.now.shape.vars) (expanded_of (pred_of p.now)) }
    requires whole { IsHeavyFault (pred_of p.now) → ⊥ }
    requires normal { IsNormal (length p.now.shape.vars) (root_of (pred_of p.now)) f.now }
    ensures sound { OnOk result (IsSound (pred_of p.now)) }
    ensures stages { IfOk result (λ st. AreStagesOf p.now.shape.sites p.now.shape.vars f.now st) }
    ensures err { IfErr result (λ r. StopsPred k (pred_of p.now) r) }
{
    match stages(alloc, f, &p.shape, MOST_STAGES, MOST_WEIGHT) {
        Ok(st) => Ok(st),
        Err(StageStop::Zero) => Err(Refusal::Zero(k, p.at)),
        Err(StageStop::Stages) => Err(Refusal::Stages(k, p.at)),
        Err(StageStop::NoMemory(e)) => Err(Refusal::NoMemory(e)),
    }
}

/// What predicate number k goes by, where it has no fault; else its fault.
pub(crate) fn judged(alloc: Global, k: u8, p: &Pred) -> Result<Basis, Refusal>
    ensures basis { IfOk result (IsBasis (pred_of p.now)) }
    ensures err { IfErr result (λ r. StopsPred k (pred_of p.now) r) }
{
    measured(alloc, k, p)?;
    let poly = expanded(alloc, k, p)?;
    weighed(k, p, &poly)?;
    let stages = staged(alloc, k, p, &poly)?;
    Ok(Basis { poly, stages })
}
