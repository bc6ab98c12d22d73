//! The ranges and sizes of a predicate's nodes.
ghost use Rattle.std.specs.Prelude.{◌≡◌, ◌≤◌, ◌<◌, ◌++◌, ◌∷◌, [], ◌+◌, ◌-◌, ◌*◌, ◌^◌, ℕ, IfOk, IfErr, OnOk};
ghost use Rattle.std.specs.Prelude.{MatchOption, MatchResult, Some, length, map, max, slice_index_or, unsigned_abs, pos};
ghost use Rattle.ln_tree.specs.Formula.{formula, tree};
ghost use Rattle.ln_tree.specs.Variables.{number_or_end};
ghost use Rattle.ln_interval.specs.Range.{IsOrdered, magnitude, most, opposite, point, product, power, sum, difference};
ghost use Rattle.ln_interval.specs.View.{range};
ghost use Rattle.ln_bound.specs.Light.{AreLight};
ghost use Rattle.ln_bound.specs.Loads.{loaded, loaded_lets, loaded_pred, measured, measured_lets};
ghost use Rattle.ln_bound.specs.Loads.{measured_pred, node_measures, ranges_of_lets, sizes_of_lets};
ghost use Rattle.ln_bound.specs.Measures.{IsMeasure, range_in, seen, size_in, tested};
ghost use Rattle.ln_bound.specs.Typed.{range_of, bound_of};
ghost use Rattle.ln_bound.specs.Ranges.{range_over, ranges, size_over};
ghost use Rattle.ln_bound.specs.Stop.{StopsWeighing, IsHeavyOrNoMemory};
ghost use Rattle.ln_bound.specs.Weighed.{IsWeighed};

use crate::fitted::Two;
use crate::measure::{Measure, declared};
use crate::size::kind_of;
use ln_base::{NoMemory, Seq, Span};
use ln_interval::Pair;
use ln_interval::pair::MOST;
use ln_tree::layout::number_in;
use ln_tree::{Expr, Node, Pred, Var, VarInfo};
use std::alloc::Global;
use std::marker::Model;

/// Why a predicate has no ranges and sizes.
#[derive(Clone, Copy)]
pub enum BoundStop {
    /// The first node in order of evaluation whose range or size exceeds `2^127 - 1`.
    Bound(Span),
    NoMemory(NoMemory),
}

impl From<NoMemory> for BoundStop {
    ghost use Rattle.ln_bound.specs.declared.weigh.BoundStop.TheVariants.{NoMemory};
    ghost use Rattle.ln_base.specs.Outside.{refused};

    ghost from_gives = { λ _ e. e ≡ NoMemory refused };

    fn from(e: NoMemory) -> Self {
        BoundStop::NoMemory(e)
    }
}

/// The ranges and sizes of all nodes of a predicate, in order of evaluation: its lets in order, then its root; in each the
/// left operand, the right operand, the node. The ends of ranges and the sizes are at most `2^127 - 1` in absolute value.
/// There is at least one, the root's. Contracts see the list.
#[derive(Drop)]
pub struct Weights {
    all: Seq<Measure>,
}

impl Model for Weights {
    ghost use Rattle.std.specs.Prelude.{ℕ, ◌<◌, List, length, map};
    ghost use Rattle.ln_bound.specs.Measures.{seen};
    ghost use Rattle.ln_interval.specs.Range.{Range};

    ghost Value = { List (Range × ℕ) };

    ghost view = { λ w. map seen w.all };

    ghost invariant = { λ w. 0 < length w.all };
}

impl Weights {
    /// The size of the root.
    pub fn root(&self) -> u128
        ensures { result ≡ (slice_index_or self.now (length self.now - 1) (point (pos 0), 0)).1 }
    {
        let all = self.all.as_slice();
        all[all.len() - 1].size
    }
}

// The pair of 0 alone.
fn nothing() -> Pair
    ensures { range result ≡ point (pos 0) }
{
    Pair { low: 0, high: 0 }
}

// The measure of the number c.
fn of_number(c: i128) -> Option<Measure>
    ensures { MatchOption result (most < max (magnitude (point c)) (unsigned_abs c)) (λ m. IsMeasure m (point c) (unsigned_abs c)) }
{
    let size = c.unsigned_abs();
    if size > MOST {
        return None;
    }
    let pair = Pair { low: c, high: c };
    Some(Measure { pair, size })
}

// The measure of a sum.
fn sum_of(a: Measure, b: Measure) -> Option<Measure>
    requires left { a.size ≤ most }
    requires right { b.size ≤ most }
    ensures { MatchOption result (most < max (magnitude (sum (range a.pair) (range b.pair))) (a.size + b.size))
        (λ m. IsMeasure m (sum (range a.pair) (range b.pair)) (a.size + b.size)) }
{
    let size = a.size + b.size;
    match a.pair.add(b.pair) {
        Some(pair) if size <= MOST => Some(Measure { pair, size }),
        _ => None,
    }
}

// The measure of a difference.
fn difference_of(a: Measure, b: Measure) -> Option<Measure>
    requires left { a.size ≤ most }
    requires right { b.size ≤ most }
    ensures { MatchOption result (most < max (magnitude (difference (range a.pair) (range b.pair))) (a.size + b.size))
        (λ m. IsMeasure m (difference (range a.pair) (range b.pair)) (a.size + b.size)) }
{
    let size = a.size + b.size;
    match a.pair.sub(b.pair) {
        Some(pair) if size <= MOST => Some(Measure { pair, size }),
        _ => None,
    }
}

// The product of two sizes, where it is within the limit.
fn size_of_product(a: u128, b: u128) -> Option<u128>
    ensures { MatchOption result (most < a * b) (λ p. (p ≡ a * b) × (p ≤ most)) }
{
    match a.checked_mul(b) {
        Some(p) if p <= MOST => Some(p),
        _ => None,
    }
}

// The measure of a product.
fn product_of(a: Measure, b: Measure) -> Option<Measure>
    ensures { MatchOption result (most < max (magnitude (product (range a.pair) (range b.pair))) (a.size * b.size))
        (λ m. IsMeasure m (product (range a.pair) (range b.pair)) (a.size * b.size)) }
{
    match a.pair.mul(b.pair) {
        Some(pair) => match size_of_product(a.size, b.size) {
            Some(size) => Some(Measure { pair, size }),
            None => None,
        },
        None => None,
    }
}

// The power of a size, where it is within the limit.
fn size_of_power(a: u128, n: u8) -> Option<u128>
    requires { a ≤ most }
    ensures { MatchOption result (most < a ^ n) (λ p. (p ≡ a ^ n) × (p ≤ most)) }
{
    let mut p = 1u128;
    'factors: for _k in 0..n {
        match size_of_product(p, a) {
            Some(q) => p = q,
            None => return None,
        }
    }
    Some(p)
}

// The measure of a power.
fn power_of(a: Measure, n: u8) -> Option<Measure>
    requires { a.size ≤ most }
    ensures { MatchOption result (most < max (magnitude (power (range a.pair) n)) (a.size ^ n))
        (λ m. IsMeasure m (power (range a.pair) n) (a.size ^ n)) }
{
    match a.pair.power(n) {
        Some(pair) => match size_of_power(a.size, n) {
            Some(size) => Some(Measure { pair, size }),
            None => None,
        },
        None => None,
    }
}

// The measure of the opposite.
fn opposite_of(a: Measure) -> Measure
    requires { a.size ≤ most }
    ensures { IsMeasure result (opposite (range a.pair)) a.size }
{
    Measure {
        pair: a.pair.neg(),
        size: a.size,
    }
}

// The measure of a let.
fn let_measure(lets: &[Measure], j: u8) -> Option<Measure>
    ensures { MatchOption result (most < max (magnitude (slice_index_or (map range_in lets.now) j (point (pos 0))))
        (slice_index_or (map size_in lets.now) j 0))
        (λ m. IsMeasure m (slice_index_or (map range_in lets.now) j (point (pos 0))) (slice_index_or (map size_in lets.now) j 0)) }
{
    match lets.get(usize::from(j)) {
        Some(m) if m.size <= MOST => Some(*m),
        Some(_) => None,
        None => Some(Measure {
            pair: nothing(),
            size: 0,
        }),
    }
}

// The measure of a variable.
fn input_measure(vars: &[VarInfo], v: Var) -> Measure
    requires { (k : ℕ) → IsOrdered (ranges vars.now k) }
    ensures { IsMeasure result (ranges vars.now (number_or_end vars.now v.arg v.coord)) 2 }
{
    let pair = match vars.get(number_in(vars, v)) {
        Some(i) => declared(i),
        None => nothing(),
    };
    Measure { pair, size: 2 }
}

// Appends a node's measure to the others, where there is one.
fn put(at: Span, m: Option<Measure>, all: &mut Seq<Measure>) -> Result<Measure, BoundStop>
    ensures ok { IfOk result (λ w. (m ≡ Some w) × (all.new ≡ all.old ++ w ∷ [])) }
    ensures heavy { IfErr result (λ e. IsHeavyOrNoMemory at (tested m) e) }
{
    match m {
        Some(w) => {
            all.push(w)?;
            Ok(w)
        }
        None => Err(BoundStop::Bound(at)),
    }
}

// The measure of a sum, difference or product.
fn two_of(kind: Two, a: Measure, b: Measure) -> Option<Measure>
    requires left { a.size ≤ most }
    requires right { b.size ≤ most }
    ensures { MatchOption result (most < max (magnitude (range_of kind (range a.pair) (range b.pair)))
        (bound_of kind a.size b.size)) (λ m. IsMeasure m (range_of kind (range a.pair) (range b.pair)) (bound_of kind a.size b.size)) }
{
    match kind {
        Two::Plus => sum_of(a, b),
        Two::Minus => difference_of(a, b),
        Two::Times => product_of(a, b),
    }
}

// The measure of a formula after lets of these measures; the measures of its nodes are appended to the others.
fn weigh_in(
    e: &Expr,
    vars: &[VarInfo],
    lets: &[Measure],
    all: &mut Seq<Measure>,
) -> Result<Measure, BoundStop>
    requires { (k : ℕ) → IsOrdered (ranges vars.now k) }
    ensures { MatchResult result (IsWeighed vars.now lets.now (formula e.now) all.old all.new)
        (StopsWeighing (loaded vars.now (map range_in lets.now) (map size_in lets.now) (formula e.now))) }
{
    match &e.node {
        Node::Num(c) => put(e.at, of_number(*c), all),
        Node::Input(v) => put(e.at, Some(input_measure(vars, *v)), all),
        Node::Name(j) => put(e.at, let_measure(lets, *j), all),
        Node::Neg(x) => {
            let a = weigh_in(x, vars, lets, all)?;
            put(e.at, Some(opposite_of(a)), all)
        }
        Node::Add(x, y) | Node::Sub(x, y) | Node::Mul(x, y) => {
            let a = weigh_in(x, vars, lets, all)?;
            let b = weigh_in(y, vars, lets, all)?;
            put(e.at, two_of(kind_of(e), a, b), all)
        }
        Node::Pow(x, n) => {
            let a = weigh_in(x, vars, lets, all)?;
            put(e.at, power_of(a, *n), all)
        }
    }
}

// The measure of a further let is appended to those of the lets before it.
fn weigh_next(
    e: &Expr,
    vars: &[VarInfo],
    done: &mut Seq<Measure>,
    all: &mut Seq<Measure>,
) -> Result<(), BoundStop>
    requires { (k : ℕ) → IsOrdered (ranges vars.now k) }
    ensures ranges { OnOk result (map range_in done.new ≡ map range_in done.old ++ range_over (ranges vars.now)
        (map range_in done.old) (tree vars.now (formula e.now)) ∷ []) }
    ensures sizes { OnOk result (map size_in done.new ≡ map size_in done.old ++ size_over (map size_in done.old)
        (tree vars.now (formula e.now)) ∷ []) }
    ensures nodes { OnOk result (map seen all.new ≡ map seen all.old
        ++ node_measures (measured vars.now (map range_in done.old) (map size_in done.old) (formula e.now))) }
    ensures light { OnOk result (AreLight (loaded vars.now (map range_in done.old) (map size_in done.old) (formula e.now))) }
    ensures err { IfErr result (λ s. StopsWeighing (loaded vars.now (map range_in done.old) (map size_in done.old) (formula e.now)) s) }
{
    let m = weigh_in(e, vars, done.as_slice(), all)?;
    done.push(m)?;
    Ok(())
}

// The measures of the lets; those of their nodes are appended to the others.
#[tactic(auto, using(crate::proofs::Measures::lets_begin, crate::proofs::Measures::lets_more, crate::proofs::Measures::lets_stop))]
fn weigh_lets(
    alloc: Global,
    lets: &[Expr],
    vars: &[VarInfo],
    all: &mut Seq<Measure>,
) -> Result<Seq<Measure>, BoundStop>
    requires ordered { (k : ℕ) → IsOrdered (ranges vars.now k) }
    requires empty { all.old ≡ [] }
    ensures ranges { IfOk result (λ ws. map range_in ws ≡ ranges_of_lets vars.now [] (map formula lets.now)) }
    ensures sizes { IfOk result (λ ws. map size_in ws ≡ sizes_of_lets vars.now [] (map formula lets.now)) }
    ensures nodes { OnOk result (map seen all.new ≡ node_measures (measured_lets vars.now [] [] (map formula lets.now))) }
    ensures light { OnOk result (AreLight (loaded_lets vars.now [] [] (map formula lets.now))) }
    ensures err { IfErr result (λ s. StopsWeighing (loaded_lets vars.now [] [] (map formula lets.now)) s) }
{
    let mut done = Seq::new(alloc);
    'each: for e in lets {
        weigh_next(e, vars, &mut done, all)?;
    }
    Ok(done)
}

/// The ranges and sizes of a predicate's nodes, or the first node in order of evaluation that has an end of its range, or
/// its size, past `2^127 - 1` in absolute value.
pub fn weigh(alloc: Global, p: &Pred) -> Result<Weights, BoundStop>
    ensures ok { IfOk result (λ w. w ≡ node_measures (measured_pred p.now.shape.vars (map formula p.now.lets) (formula p.now.root))) }
    ensures light { OnOk result (AreLight (loaded_pred p.now.shape.vars (map formula p.now.lets) (formula p.now.root))) }
    ensures some { IfOk result (λ w. 0 < length w) }
    ensures err { IfErr result (λ s. StopsWeighing (loaded_pred p.now.shape.vars (map formula p.now.lets) (formula p.now.root)) s) }
{
    let mut all = Seq::new(alloc);
    let vars = p.shape.vars.as_slice();
    let lets = weigh_lets(alloc, p.lets.as_slice(), vars, &mut all)?;
    weigh_in(&p.root, vars, lets.as_slice(), &mut all)?;
    Ok(Weights { all })
}
