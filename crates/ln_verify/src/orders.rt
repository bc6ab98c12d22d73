//! The rule on `order` lines.
ghost use Rattle.std.specs.Prelude.{◌≡◌, ◌↔◌, ◌<◌, ℕ, All, IfOk, IsTrue, length};
ghost use Rattle.ln_tree.specs.Exps.{IsAbove};
ghost use Rattle.ln_order.specs.Places.{order_places};
ghost use Rattle.ln_order.specs.Prefixes.{segments_from};
ghost use Rattle.ln_stage.specs.Staged.{segment_of};
ghost use Rattle.ln_verify.specs.Here.{AreAbove, IsCase, subject_of};
ghost use Rattle.ln_verify.specs.Line.{IsNextList};
ghost use Rattle.ln_verify.specs.Orders.{HasVector, SameStages};

use crate::case::Case;
use ln_base::NoMemory;
use ln_order::Order;
use ln_stage::Stages;
use ln_tree::Exps;
use std::alloc::Global;

// The stage list of an order, as numbers of stages: its segments one after the other.
fn stage_list(alloc: Global, st: &Stages, o: &Order) -> Result<Vec<u32>, NoMemory>
    requires { length (order_places o.now) ≡ st.now.sites }
    ensures { IfOk result (λ list. list.items ≡ segments_from (segment_of st.now) (order_places o.now) 0) }
{
    let mut out = Vec::new(alloc);
    let k = o.places().len() as u8;
    'places: for j in 0..k + 1 {
        out.extend_from_slice(st.segment(o, j))?;
    }
    Ok(out)
}

// Is there a block number k, and has it the exponents a? Exponents are the same where their vectors are.
fn has_exps(exps: &[Exps], k: u32, a: &Exps) -> bool
    ensures { (n : ℕ) → All (λ e. IsAbove e n) exps.now → IsAbove a.now n → IsTrue result ↔ HasVector n exps.now k a.now }
{
    match exps.get(k as usize) {
        Some(e) => e.pairs() == a.pairs(),
        None => false,
    }
}

// Have the blocks of a list, one by one, the exponents of the stages with these numbers?
fn same_stages(exps: &[Exps], list: &[u32], st: &Stages, numbers: &[u32]) -> bool
    requires { All (λ i. i < length st.now.exps) numbers.now }
    ensures { (n : ℕ) → All (λ e. IsAbove e n) exps.now → All (λ e. IsAbove e n) st.now.exps →
        IsTrue result ↔ SameStages n exps.now st.now.exps list.now numbers.now }
{
    if list.len() != numbers.len() {
        return false;
    }
    'stages: for (j, k) in list.iter().enumerate() {
        if !has_exps(exps, *k, st.exps(numbers[j] as usize)) {
            return false;
        }
    }
    true
}

// Are these the places of the order?
fn is_order(o: &Order, places: &[u8]) -> bool
    ensures { IsTrue result ↔ (order_places o.now ≡ places.now) }
{
    o.places() == places
}

/// Is this the next `order` line, after this many lists: are the places those of the next order of all, and are the exponents of
/// the named blocks the stage list of that order?
pub fn is_next(
    alloc: Global,
    case: &Case<'_>,
    exps: &[Exps],
    before: usize,
    places: &[u8],
    list: &[u32],
) -> Result<bool, NoMemory>
    requires { IsCase case.now }
    ensures { IfOk result (λ ok. AreAbove (length case.now.shape.now.vars) exps.now →
        IsTrue ok ↔ IsNextList (subject_of case.now) exps.now before places.now list.now) }
{
    let Some(o) = case.orders.as_slice().get(before) else {
        return Ok(false);
    };
    if !is_order(o, places) {
        return Ok(false);
    }
    let numbers = stage_list(alloc, case.stages, o)?;
    Ok(same_stages(exps, list, case.stages, numbers.as_slice()))
}
