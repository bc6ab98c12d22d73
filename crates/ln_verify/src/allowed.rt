//! The tests of the rules on ranges.
ghost use Rattle.std.specs.Prelude.{◌≡◌, ◌↔◌, ◌≤◌, ◌<◌, ◌-◌, ◌^◌, ◌≤ℤ◌, IsTrue, MatchOption, min, slice_get};
ghost use Rattle.ln_interval.specs.Range.{Covers, IsOrdered, Range, magnitude, most, point};
ghost use Rattle.ln_interval.specs.View.{range};
ghost use Rattle.ln_bound.specs.Typed.{bound_of, range_of};
ghost use Rattle.ln_bound.specs.Value.{size_of};
ghost use Rattle.ln_code.specs.Rules.{declared};
ghost use Rattle.ln_verify.specs.BlockRules.{balanced};
ghost use Rattle.ln_verify.specs.Versions.{Allows, version_of};

use crate::version::Version;
use ln_bound::{Two, Width};
use ln_interval::Pair;
use ln_tree::VarInfo;

/// Does the pair cover that of an operation? None is past the limit, which no pair covers.
pub fn is_covered(b: Pair, enough: Option<Pair>) -> bool
    ensures { (r : Range) → IsOrdered r → MatchOption enough (most < magnitude r) (λ p. range p ≡ r) → IsTrue result ↔ Covers (range b) r }
{
    match enough {
        Some(p) => b.covers(p),
        None => false,
    }
}

/// The pair of a sum, a difference or a product, if it isn't past the limit.
pub fn joined_pair(t: Two, x: Pair, y: Pair) -> Option<Pair>
    ensures { MatchOption result (most < magnitude (range_of t (range x) (range y))) (λ p. range p ≡ range_of t (range x) (range y)) }
{
    match t {
        Two::Plus => x.add(y),
        Two::Minus => x.sub(y),
        Two::Times => x.mul(y),
    }
}

/// The running size of a sum, a difference or a product, or `2^128 - 1` where it is larger.
pub fn joined_size(t: Two, x: u128, y: u128) -> u128
    ensures { result ≡ min (bound_of t x y) (2 ^ 128 - 1) }
{
    match t {
        Two::Plus => x.saturating_add(y),
        Two::Minus => x.saturating_add(y),
        Two::Times => x.saturating_mul(y),
    }
}

/// Does the rule on a range hold, where it is known whether it covers what it has to: does it fit the width?
pub fn is_allowed(covers: bool, b: Pair, width: Width) -> bool
    ensures { (r : Range) → IsTrue covers ↔ Covers (range b) r → IsTrue result ↔ Allows r (range b) width }
{
    covers && b.magnitude() <= width.limit()
}

/// Does the pair cover a number?
pub fn covers_number(b: Pair, c: i128) -> bool
    ensures { IsTrue result ↔ Covers (range b) (point c) }
{
    b.low <= c && c <= b.high
}

/// The variable with a number.
pub fn variable(vars: &[VarInfo], k: u8) -> Option<VarInfo>
    ensures { result ≡ slice_get vars.now k }
{
    vars.get(usize::from(k)).copied()
}

// The largest absolute value of a variable, and at least 1.
fn largest(i: VarInfo) -> u64
    ensures { result ≡ size_of i }
{
    i.lo.unsigned_abs().max(i.hi.unsigned_abs()).max(1)
}

// Does the pair cover the range of a bound?
fn covers_balanced(m: u64, b: Pair) -> bool
    ensures { IsTrue result ↔ Covers (range b) (balanced m) }
{
    let high = i128::from(m);
    b.low <= -high && high <= b.high
}

// Is the pair's low not above that of a variable?
fn covers_low(i: VarInfo, b: Pair) -> bool
    ensures { IsTrue result ↔ (b.low ≤ℤ i.lo) }
{
    b.low <= i128::from(i.lo)
}

// Is the pair's high not below that of a variable?
fn covers_high(i: VarInfo, b: Pair) -> bool
    ensures { IsTrue result ↔ (i.hi ≤ℤ b.high) }
{
    i128::from(i.hi) <= b.high
}

// Does the pair cover the range of a variable?
fn covers_declared(i: VarInfo, b: Pair) -> bool
    ensures { IsTrue result ↔ Covers (range b) (declared i) }
{
    if !covers_low(i, b) {
        return false;
    }
    covers_high(i, b)
}

/// Does the pair cover what that of an input has to cover?
pub fn covers_input(version: Version, i: VarInfo, b: Pair) -> bool
    ensures { IsTrue result ↔ Covers (range b) ((version_of version).range i) }
{
    match version {
        Version::One => covers_balanced(largest(i), b),
        Version::Two => covers_declared(i, b),
    }
}

/// The running size of an input.
pub fn input_size(version: Version, i: VarInfo) -> u128
    ensures value { result ≡ (version_of version).size i }
    ensures some { 1 ≤ result }
{
    match version {
        Version::One => u128::from(largest(i)),
        Version::Two => 1,
    }
}
