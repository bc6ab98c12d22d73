//! Tests the sizes, ranges and widths of predicates' nodes, and the refusal of a node that is too large.
ghost use Rattle.std.specs.Prelude.{◌≤◌, unsigned_abs};
ghost use Rattle.ln_interval.specs.Range.{most};

use crate::sources::table;
use ln_base::NoMemory;
use ln_bound::size::{negated, number, size};
use ln_bound::weigh::weigh;
use ln_bound::{BoundStop, Fitted, FittedPred, Width};
use ln_tree::Pred;
use std::alloc::Global;

// An orientation; two products of numbers from the largest range that 64 bits can say; differences of squares of sums.
const SOURCE: &str = "site point { x: -1000 .. 1000; y: -1000 .. 1000; }
site num { t: -9223372036854775807 .. 9223372036854775807; }
site half { t: -4611686018427387903 .. 4611686018427387903; }
site count { t: 0 .. 5000000000000000000; }
predicate orient(p: point, q: point, r: point) { sign (p.x - r.x)*(q.y - r.y) - (p.y - r.y)*(q.x - r.x); }
predicate big(a: num, b: num, c: num, d: num) { sign a.t*b.t + c.t*d.t; }
predicate cross(a: half, b: half) { sign (a.t + b.t)^2 - (a.t - b.t)^2; }
predicate up(a: count, b: count) { sign (a.t + b.t)^2 - (a.t - b.t)^2; }
";

// The ends of the roots: of the two products, of the first difference of squares, and both of the second.
const BIG: i128 = 170141183460469231694793815568465002498;

const CROSS: i128 = 170141183460469231657900327421045899272;

const UP: i128 = 25000000000000000000000000000000000000;

const UP_HIGH: i128 = 125000000000000000000000000000000000000;

// Its root's left operand is wide, so the root is, whose range is 1 .. 1.
const WITH_LETS: &str = "site num { t: -2 .. 3; }
predicate lets(a: num) { let d = a.t - 1; let e = d^3; sign -e*576460752303423488*0 + d^0; }";

const WIDE: &str = "site num { t: -5000000000000000000 .. 5000000000000000000; }
predicate cross(a: num, b: num) { sign (a.t + b.t)^2 - (a.t - b.t)^2; }";

/// Is the width that of 128 bits?
fn is_wide(w: Width) -> bool {
    match w {
        Width::W64 => false,
        Width::W128 => true,
    }
}

/// Has the tree these ends, and is it wide?
fn is(t: &Fitted, low: i128, high: i128, wide: bool) -> bool {
    t.pair.low == low && t.pair.high == high && is_wide(t.width) == wide
}

/// The trees of a predicate, whose ranges and sizes have to fit.
fn trees_of(alloc: Global, p: &Pred) -> Result<FittedPred, BoundStop> {
    weigh(alloc, p)?;
    let trees = size(alloc, p)?;
    Ok(trees)
}

/// Has the predicate's root this size?
fn weighs(alloc: Global, p: &Pred, root: u128) -> bool {
    match weigh(alloc, p) {
        Ok(w) => w.root() == root,
        Err(_) => false,
    }
}

/// Has the predicate's root these ends, and is it wide?
fn is_root(alloc: Global, p: &Pred, low: i128, high: i128, wide: bool) -> bool {
    match trees_of(alloc, p) {
        Ok(trees) => is(&trees.root, low, high, wide),
        Err(_) => false,
    }
}

/// Have the roots their sizes, ends and widths?
fn are_known(alloc: Global, preds: &[Pred]) -> bool {
    match preds {
        [orient, big, cross, up] => {
            weighs(alloc, orient, 32)
                && is_root(alloc, orient, -8000000, 8000000, false)
                && weighs(alloc, big, 8)
                && is_root(alloc, big, -BIG, BIG, true)
                && weighs(alloc, cross, 32)
                && is_root(alloc, cross, -CROSS, CROSS, true)
                && weighs(alloc, up, 32)
                && is_root(alloc, up, -UP, UP_HIGH, true)
        }
        _ => false,
    }
}

/// Is all that is known true of the source's predicates?
fn has_known_roots(alloc: Global) -> bool {
    match table(alloc, SOURCE) {
        Some(t) => are_known(alloc, t.preds.as_slice()),
        None => false,
    }
}

#[test]
fn roots_have_their_sizes_ends_and_widths(rt: HostRuntime) {
    assert!(rt; has_known_roots(rt.alloc()));
}

/// Are these the trees of the predicate with lets?
fn are_with_lets(trees: &FittedPred) -> bool {
    match trees.lets.as_slice() {
        [d, e] => is(d, -3, 2, false) && is(e, -27, 18, false) && is(&trees.root, 1, 1, true),
        _ => false,
    }
}

/// Are the trees of the one predicate those with lets?
fn have_lets(alloc: Global, preds: &[Pred]) -> bool {
    match preds {
        [p] => match trees_of(alloc, p) {
            Ok(trees) => are_with_lets(&trees),
            Err(_) => false,
        },
        _ => false,
    }
}

/// Has the source with lets the trees of its predicate?
fn has_lets(alloc: Global) -> bool {
    match table(alloc, WITH_LETS) {
        Some(t) => have_lets(alloc, t.preds.as_slice()),
        None => false,
    }
}

#[test]
fn lets_and_powers_carry_ranges_and_widths(rt: HostRuntime) {
    assert!(rt; has_lets(rt.alloc()));
}

/// Is the first node of the one predicate that is too large at this place?
fn are_refused_at(alloc: Global, preds: &[Pred], place: u32) -> bool {
    match preds {
        [p] => match weigh(alloc, p) {
            Err(BoundStop::Bound(at)) => at.start == place,
            _ => false,
        },
        _ => false,
    }
}

/// Is the first node of the wide source that is too large at this place?
fn is_refused_at(alloc: Global, place: u32) -> bool {
    match table(alloc, WIDE) {
        Some(t) => are_refused_at(alloc, t.preds.as_slice(), place),
        None => false,
    }
}

#[test]
fn a_root_past_128_bits_is_refused(rt: HostRuntime) {
    assert!(rt; is_refused_at(rt.alloc(), 114));
}

/// Is the tree that of -n?
fn is_opposite(alloc: Global, t: &Fitted, n: i128) -> Result<bool, NoMemory>
    requires { unsigned_abs n ≤ most }
{
    let other = negated(alloc, number(n))?;
    Ok(t.same(&other))
}

/// Is the tree of -2 the same as another of -2, and not that of -3?
fn is_one(alloc: Global) -> bool {
    match negated(alloc, number(2)) {
        Ok(t) => {
            matches!(is_opposite(alloc, &t, 2), Ok(true))
                && matches!(is_opposite(alloc, &t, 3), Ok(false))
        }
        Err(_) => false,
    }
}

#[test]
fn equal_trees_are_one(rt: HostRuntime) {
    assert!(rt; is_one(rt.alloc()));
}
