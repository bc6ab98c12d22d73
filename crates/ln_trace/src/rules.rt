//! One function for each kind of line.
ghost use Rattle.std.specs.Prelude.{◌≡◌, ◌↔◌, ◌<◌, [], ℕ, List, All, None, Some, true, IfOk, IsTrue, length, take};
ghost use Rattle.ln_base.specs.declared.sign.Sign.TheVariants.{Zero};
ghost use Rattle.ln_algebra.specs.Sign.{sign_of};
ghost use Rattle.ln_tree.specs.Exps.{IsRising};
ghost use Rattle.ln_tree.specs.Row.{InRange};
ghost use Rattle.ln_code.specs.Kept.{AreOfSites};
ghost use Rattle.ln_code.specs.RowOf.{row_of};
ghost use Rattle.ln_due.specs.Due.{sign_number};
ghost use Rattle.ln_order.specs.Order.{IsOrder};
ghost use Rattle.ln_order.specs.Places.{order_places};
ghost use Rattle.ln_poly.specs.Sparse.{Sparse};
ghost use Rattle.ln_rows.specs.Left.{Records};
ghost use Rattle.ln_stage.specs.Staged.{Staged, segment_of};
ghost use Rattle.ln_trace.specs.declared.line.TraceLine.TheVariants as line;
ghost use Rattle.ln_trace.specs.Here.{Holds, IsAtRow, IsCase, Step};
ghost use Rattle.ln_trace.specs.Left.{IsSpot, left_at};

use crate::at_line::is_next_at;
use crate::exps::exps_of;
use crate::grounds::Grounds;
use crate::next::{Last, passed};
use crate::pointer::{Spot, first_left};
use crate::progress::{Next, Progress, is, is_next, taken};
use ln_base::{NoMemory, Sign};
use ln_code::{Row, sign_of};
use ln_order::{Order, order_of};
use ln_rows::Rows;
use ln_stage::Stages;
use ln_tree::{Exps, Pred, Shape};
use std::alloc::Global;

/// `refused`.
pub fn refused(
    p: &Pred,
    rows: &mut Rows<'_>,
    state: &mut Progress,
    n: u32,
) -> Result<bool, NoMemory>
    ensures { IfOk result (λ ok. (f : Sparse) (st : Staged) →
        Step p.now.shape f st rows.old state.old (line.Refused n) ok rows.new state.new) }
{
    if !is_next(state, n) {
        return Ok(false);
    }
    let next = taken(p, rows, &mut state.row)?;
    if !is(next, Next::Fault) {
        return Ok(false);
    }
    state.seen = n;
    Ok(true)
}

// The order of the sites of a row in range.
pub(crate) fn order_at(shape: &Shape, row: &Row) -> Order
    requires { InRange shape.now.sites shape.now.vars (row_of shape.now.sites shape.now.vars row.now) }
    ensures { IsOrder (take shape.now.sites row.now.index) (order_places result) }
{
    match order_of(&row.index[..usize::from(shape.sites)]) {
        Ok(o) => o,
        Err(_) => unreachable!(),
    }
}

// Opens the row that is held, which is the record of this number.
fn open(state: &mut Progress, o: Order, n: u32)
    ensures { state.new ≡ record {
      inside = true;
      seen = n;
      row = state.old.row;
      order = o;
      spot = record { sites = 0; at = 0 };
      last = record { exps = None; zero = true };
      sign = state.old.sign;
    } }
{
    state.order = o;
    state.spot = Spot { sites: 0, at: 0 };
    state.last = Last {
        exps: None,
        zero: true,
    };
    state.seen = n;
    state.inside = true;
}

/// `row`.
pub fn row(p: &Pred, rows: &mut Rows<'_>, state: &mut Progress, n: u32) -> Result<bool, NoMemory>
    ensures { IfOk result (λ ok. (f : Sparse) (st : Staged) → IsCase p.now.shape f st →
        Step p.now.shape f st rows.old state.old (line.Row n) ok rows.new state.new) }
{
    if !is_next(state, n) {
        return Ok(false);
    }
    let next = taken(p, rows, &mut state.row)?;
    if !is(next, Next::Read) {
        return Ok(false);
    }
    let o = order_at(&p.shape, &state.row);
    open(state, o, n);
    Ok(true)
}

// The values of a row.
fn values_of<'a>(s: &Shape, row: &'a Row) -> &'a [i64]
    ensures { result.now ≡ take (length s.now.vars) row.now.values }
{
    &row.values[..s.vars.len()]
}

fn is_sign(t: Sign, u: Sign) -> bool
    ensures { IsTrue result ↔ (t ≡ u) }
{
    t == u
}

// Holds that a stood with the value z, after which the members begin here.
fn stood(state: &mut Progress, spot: Spot, a: Exps, z: i128)
    ensures held { state.new ≡ record {
      inside = state.old.inside;
      seen = state.old.seen;
      row = state.old.row;
      order = state.old.order;
      spot = spot;
      last = record { exps = Some a; zero = state.new.last.zero };
      sign = state.new.sign;
    } }
    ensures sign { sign_number state.new.sign ≡ sign_of z }
    ensures zero { IsTrue state.new.last.zero ↔ (state.new.sign ≡ Zero) }
{
    let sign = sign_of(z);
    let zero = is_sign(sign, Sign::Zero);
    state.spot = spot;
    state.sign = sign;
    state.last = Last {
        exps: Some(a),
        zero,
    };
}

// Lets a with the value z stand, or refuses it.
fn stands(grounds: &Grounds, state: &mut Progress, a: Exps, z: i128) -> bool
    requires case { IsCase grounds.now.pred.now.shape grounds.now.poly.now grounds.now.stages.now }
    requires at { IsAtRow grounds.now.pred.now.shape grounds.now.stages.now state.old }
    requires inside { state.old.inside ≡ true }
    requires rising { IsRising a }
    requires of_sites { AreOfSites grounds.now.pred.now.shape.vars a }
    ensures { (rows : Records) →
        Step grounds.now.pred.now.shape grounds.now.poly.now grounds.now.stages.now rows state.old (line.At a z) result rows state.new }
{
    let s = &grounds.pred.shape;
    let row = values_of(s, &state.row);
    if !is_next_at(grounds, state, &a, z, row) {
        return false;
    }
    let spot = passed(grounds.stages, &state.order, s, state.spot, &a);
    stood(state, spot, a, z);
    true
}

/// `at`.
pub fn at(
    alloc: Global,
    grounds: &Grounds,
    state: &mut Progress,
    a: &[(u8, u8)],
    z: i128,
) -> Result<bool, NoMemory>
    requires case { IsCase grounds.now.pred.now.shape grounds.now.poly.now grounds.now.stages.now }
    requires holds { Holds grounds.now.pred.now.shape grounds.now.stages.now state.old }
    ensures { IfOk result (λ ok. (rows : Records) →
        Step grounds.now.pred.now.shape grounds.now.poly.now grounds.now.stages.now rows state.old (line.At a.now z) ok rows state.new) }
{
    if !state.inside {
        return Ok(false);
    }
    let Some(e) = exps_of(alloc, grounds.pred.shape.vars.as_slice(), a)? else {
        return Ok(false);
    };
    let ok = stands(grounds, state, e, z);
    Ok(ok)
}

// Is none of the members left?
fn is_none_left(st: &Stages, o: &Order, spot: Spot) -> bool
    requires order { length (order_places o.now) ≡ st.now.sites }
    requires spot { IsSpot st.now (order_places o.now) spot }
    requires numbers { (q : List ℕ) → All (λ i. i < length st.now.exps) (segment_of st.now q) }
    ensures { IsTrue result ↔ (left_at st.now (order_places o.now) spot ≡ []) }
{
    first_left(st, o, spot).is_none()
}

// Did a vector stand, and is it the sign of the last value?
fn is_said(state: &Progress, t: Sign) -> bool
    ensures { IsTrue result ↔ ((state.now.last.exps ≡ None → ⊥) × (t ≡ state.now.sign)) }
{
    if state.last.exps.is_none() {
        return false;
    }
    is_sign(t, state.sign)
}

// Where the last value is 0, is none of the members left?
fn is_whole(st: &Stages, state: &Progress) -> bool
    requires order { length (order_places state.now.order) ≡ st.now.sites }
    requires spot { IsSpot st.now (order_places state.now.order) state.now.spot }
    requires numbers { (q : List ℕ) → All (λ i. i < length st.now.exps) (segment_of st.now q) }
    ensures { IsTrue result ↔ (state.now.last.zero ≡ true → left_at st.now (order_places state.now.order) state.now.spot ≡ []) }
{
    if !state.last.zero {
        return true;
    }
    is_none_left(st, &state.order, state.spot)
}

/// `sign`.
pub fn sign(grounds: &Grounds, state: &mut Progress, t: Sign) -> bool
    requires case { IsCase grounds.now.pred.now.shape grounds.now.poly.now grounds.now.stages.now }
    requires holds { Holds grounds.now.pred.now.shape grounds.now.stages.now state.old }
    ensures { (rows : Records) →
        Step grounds.now.pred.now.shape grounds.now.poly.now grounds.now.stages.now rows state.old (line.Sign t) result rows state.new }
{
    if !state.inside {
        return false;
    }
    if !is_said(state, t) {
        return false;
    }
    if !is_whole(grounds.stages, state) {
        return false;
    }
    state.inside = false;
    true
}
