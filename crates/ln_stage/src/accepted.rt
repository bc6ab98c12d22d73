//! Accepted predicates: those without a fault, with what their programs are made of and what listings and traces are judged by.
ghost use Rattle.std.specs.Prelude.{◌≡◌, ◌≢◌, ◌<◌, [], ℕ, List, IfOk, Some, length, map, slice_get};
ghost use Rattle.std.specs.List.{AllZip};
ghost use Rattle.ln_base.specs.Limits.{most_stages, most_weight};
ghost use Rattle.ln_tree.specs.Table.{pred_of};
ghost use Rattle.ln_poly.specs.Sparse.{AreBelow};
ghost use Rattle.ln_stage.specs.Accepted.{IsAcceptedPred, IsBasis, IsExpanded};
ghost use Rattle.ln_stage.specs.Lists.{AreStageLists, Passes};
ghost use Rattle.ln_stage.specs.Sound.{AreSound, IsSound};
ghost use Rattle.ln_stage.specs.Staged.{AreStagesOf};

use crate::lists::stages;
use crate::stop::StageStop;
use crate::table::Stages;
use ln_base::limits::{MOST_STAGES, MOST_WEIGHT};
use ln_base::{NoMemory, Seq};
use ln_poly::{Poly, PolyStop, normal};
use ln_tree::{Pred, Shape};
use std::alloc::Global;
use std::marker::Model;

/// What programs, listings and traces of a predicate go by: its normal polynomial, and the stages of that.
#[derive(Drop)]
pub struct Basis {
    pub poly: Poly,
    pub stages: Stages,
}

/// An accepted predicate with its normal polynomial and the stages of that, which are lent. It has no fault: no range and no size of a node exceeds
/// `2^127 - 1`, no node has too many terms, its polynomial isn't too large and isn't 0, and it hasn't too many stages.
#[derive(Drop)]
pub struct Accepted<'a> {
    pred: &'a Pred,
    basis: &'a Basis,
}

impl<'a> Model for Accepted<'a> {
    ghost use Rattle.std.specs.Coded.{codes};
    ghost use Rattle.ln_tree.specs.contracts.expr.Node as node;
    ghost use Rattle.ln_stage.specs.Accepted.{AcceptedOf, IsAcceptedPred};

    ghost Value = { AcceptedOf };

    ghost coded = { Prim.hlevel (codes, node.the_row.coded) };

    ghost view = { λ a. record { pred = a.pred.now; poly = a.basis.now.poly; stages = a.basis.now.stages } };

    ghost invariant = { λ a. IsAcceptedPred (record { pred = a.pred.now; poly = a.basis.now.poly; stages = a.basis.now.stages }) };
}

// The normal polynomial of a predicate without a fault.
#[tactic(auto, using(crate::proofs::Accepting::few_terms))]
fn expanded(alloc: Global, p: &Pred) -> Result<Poly, NoMemory>
    requires { IsSound (pred_of p.now) }
    ensures { IfOk result (IsExpanded (pred_of p.now)) }
{
    match normal(alloc, p) {
        Ok(f) => Ok(f),
        Err(PolyStop::Terms(_at)) => unreachable!(),
        Err(PolyStop::NoMemory(e)) => Err(e),
    }
}

// The stages of a polynomial that isn't 0 and hasn't too many.
#[tactic(auto, using(crate::proofs::Accepting::few_stages))]
fn listed(alloc: Global, f: &Poly, s: &Shape) -> Result<Stages, NoMemory>
    requires some { f.now ≢ [] }
    requires below { AreBelow (length s.now.vars) f.now }
    requires few { (lists : List (List (List ℕ))) → AreStageLists s.now.sites s.now.vars f.now lists →
        Passes (length s.now.vars) f.now most_stages most_weight lists → ⊥ }
    ensures { IfOk result (λ st. AreStagesOf s.now.sites s.now.vars f.now st) }
{
    match stages(alloc, f, s, MOST_STAGES, MOST_WEIGHT) {
        Ok(st) => Ok(st),
        Err(StageStop::Zero) => unreachable!(),
        Err(StageStop::Stages) => unreachable!(),
        Err(StageStop::NoMemory(e)) => Err(e),
    }
}

// What a predicate without a fault goes by.
fn basis_of(alloc: Global, p: &Pred) -> Result<Basis, NoMemory>
    requires { IsSound (pred_of p.now) }
    ensures { IfOk result (IsBasis (pred_of p.now)) }
{
    let poly = expanded(alloc, p)?;
    let stages = listed(alloc, &poly, &p.shape)?;
    Ok(Basis { poly, stages })
}

/// What predicates without a fault go by, each from itself alone.
pub fn bases_of(alloc: Global, preds: &[Pred]) -> Result<Seq<Basis>, NoMemory>
    requires { AreSound (map pred_of preds.now) }
    ensures { IfOk result (λ bs. AllZip IsBasis (map pred_of preds.now) bs) }
{
    let mut bases = Seq::new(alloc);
    'each: for i in 0..preds.len() {
        let basis = basis_of(alloc, &preds[i])?;
        bases.push(basis)?;
    }
    Ok(bases)
}

impl<'a> Accepted<'a> {
    /// The predicate of a number, from 0, among several with what they go by. It allocates nothing.
    pub fn among(preds: &'a [Pred], bases: &'a [Basis], i: usize) -> Accepted<'a>
        requires bases { AllZip IsBasis (map pred_of preds.now) bases.now }
        requires within { i < length preds.now }
        ensures pred { slice_get preds.now i ≡ Some result.pred }
        ensures kept { IsAcceptedPred result }
    {
        Accepted::seal(&preds[i], &bases[i])
    }

    /// The predicate with what it goes by. It allocates nothing.
    pub(crate) fn seal(pred: &'a Pred, basis: &'a Basis) -> Accepted<'a>
        requires { IsBasis (pred_of pred.now) basis.now }
        ensures { result ≡ record { pred = pred.now; poly = basis.now.poly; stages = basis.now.stages } }
    {
        Accepted { pred, basis }
    }

    /// The predicate.
    pub fn pred(&self) -> &'a Pred
        ensures value { result.now ≡ self.now.pred }
        ensures kept { IsAcceptedPred self.now }
    {
        self.pred
    }

    /// Its normal polynomial.
    pub fn poly(&self) -> &'a Poly
        ensures { result.now ≡ self.now.poly }
    {
        &self.basis.poly
    }

    /// The stages of the polynomial.
    pub fn stages(&self) -> &'a Stages
        ensures { result.now ≡ self.now.stages }
    {
        &self.basis.stages
    }
}
