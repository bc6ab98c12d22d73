//! Triples of nodes: exponent, size and error.
ghost use Rattle.std.specs.Prelude.{◌≡◌, ℕ, ◌+◌, ◌-◌, ◌*◌, ◌^◌, ◌<◌, ◌≤◌, true, All, IfSome, slice_index_or};
ghost use Rattle.std.specs.List.{list_all};
ghost use Rattle.ln_tree.specs.Variables.{has_range};
ghost use Rattle.ln_bound.specs.Typed.{untyped};
ghost use Rattle.ln_bound.specs.Value.{sizes};
ghost use Rattle.ln_bound.specs.View.{typed};
ghost use Rattle.ln_code.specs.Engine.{next};
ghost use Rattle.ln_code.specs.FilterRules.{error_after};
ghost use Rattle.ln_code.specs.Kept.{no_triple};
ghost use Rattle.ln_filter.specs.Triples.{both, cut, excess, leaf, product_of, raw_of, sum_of, trimmed, whole};
ghost use Rattle.ln_filter.specs.Tried.{IsSmall, IsTried, of_raw, power_tried, settled};

use ln_bound::{FitOp, Fitted, Two};
use ln_code::{Triple, error_after, shifted};
use ln_tree::VarInfo;

/// What is known of a truncated number before it is cut to 31 binary digits. The exponent of a product can reach 510, its error
/// can come close to `3 * 2^62`, and the size of a number is at most `2^127`.
#[derive(Clone, Copy)]
pub(crate) struct Raw {
    pub(crate) k: u32,
    pub(crate) h: u128,
    pub(crate) e: u64,
}

/// By which power of 2 a number up to `n` is divided so that 31 binary digits remain.
#[tactic(auto, using(crate::proofs::Truncation::Bits::bits_by_zeros))]
pub(crate) fn excess(n: u128) -> u32
    ensures value { result ≡ excess n }
    ensures most { result ≤ 97 }
{
    (128 - n.leading_zeros()).saturating_sub(31)
}

/// The triple after a division by 2^n.
pub(crate) fn cut(n: u32, a: Triple) -> Triple
    requires { a.k + n ≤ 255 }
    ensures { result ≡ cut n a }
{
    Triple {
        k: a.k + n as u8,
        h: shifted(u128::from(a.h), n) as u64,
        e: error_after(n, a.e),
    }
}

/// What is known of a number up to `m` that is whole.
pub(crate) fn whole(m: u128) -> Raw
    ensures value { of_raw result ≡ whole m }
    ensures size { result.h ≡ m }
{
    Raw { k: 0, h: m, e: 0 }
}

/// The triple of a number up to `m`, which may be divided so that 31 binary digits remain.
#[tactic(auto, using(crate::proofs::Truncation::Bits::excess_leaves))]
pub(crate) fn leaf(m: u128) -> Triple
    ensures value { result ≡ leaf m }
    ensures small { IsSmall result }
{
    let n = excess(m);
    Triple {
        k: n as u8,
        h: shifted(m, n) as u64,
        e: error_after(n, 0),
    }
}

// The triple after the cut to 31 binary digits, or none where its error or its exponent is too large.
#[tactic(auto, using(crate::proofs::Truncation::Bits::excess_leaves))]
fn trimmed(r: Raw) -> Option<Triple>
    requires { r.k ≤ 1000 }
    ensures value { result ≡ settled (trimmed (of_raw r)) }
    ensures small { IfSome result (λ a. IsSmall a) }
{
    let n = excess(r.h);
    let k = r.k + n;
    let h = shifted(r.h, n);
    let e = error_after(n, r.e);
    if e > 2147483647 || k > 255 {
        return None;
    }
    Some(Triple {
        k: k as u8,
        h: h as u64,
        e,
    })
}

// What is known of a sum or a difference.
fn sum(a: Triple, b: Triple) -> Raw
    requires left { IsSmall a }
    requires right { IsSmall b }
    ensures value { of_raw result ≡ sum_of a b }
    ensures power { result.k ≤ 255 }
    ensures size { result.h < 2 ^ 32 }
{
    let m = u32::from(b.k.saturating_sub(a.k));
    let n = u32::from(a.k.saturating_sub(b.k));
    Raw {
        k: u32::from(a.k.max(b.k)),
        h: shifted(u128::from(a.h), m) + shifted(u128::from(b.h), n),
        e: error_after(m, a.e) + error_after(n, b.e),
    }
}

/// What is known of a product.
pub(crate) fn product(a: Triple, b: Triple) -> Raw
    requires left { IsSmall a }
    requires right { IsSmall b }
    ensures value { of_raw result ≡ product_of a b }
    ensures power { result.k ≤ 510 }
    ensures size { result.h < 2 ^ 62 }
{
    Raw {
        k: u32::from(a.k) + u32::from(b.k),
        h: u128::from(a.h * b.h),
        e: a.h * b.e + b.h * a.e + a.e * b.e,
    }
}

/// What is known of a sum, a difference or a product.
pub(crate) fn joined(kind: Two, a: Triple, b: Triple) -> Raw
    requires left { IsSmall a }
    requires right { IsSmall b }
    ensures value { of_raw result ≡ raw_of kind a b }
    ensures power { result.k ≤ 510 }
    ensures size { result.h < 2 ^ 62 }
{
    match kind {
        Two::Plus | Two::Minus => sum(a, b),
        Two::Times => product(a, b),
    }
}

/// The triple of a power, or none where a product on the way has too large an error or exponent.
pub(crate) fn powered(a: Triple, n: u8) -> Option<Triple>
    requires { IsSmall a }
    ensures value { result ≡ power_tried a n }
    ensures small { IfSome result (λ a. IsSmall a) }
{
    if n == 0 {
        return Some(leaf(1));
    }
    if n == 1 {
        return Some(a);
    }
    let p = powered(a, n - 1)?;
    trimmed(product(p, a))
}

/// The largest absolute value of a variable, at least 1.
pub(crate) fn size_at(vars: &[VarInfo], v: u8) -> u64
    ensures value { result ≡ sizes vars.now v }
    ensures small { list_all has_range vars.now ≡ true → result < 2 ^ 63 }
{
    match vars.get(usize::from(v)) {
        None => 0,
        Some(i) => i.lo.unsigned_abs().max(i.hi.unsigned_abs()).max(1),
    }
}

/// The size of each variable fits 63 bits, since its range is one of 64-bit numbers.
pub(crate) fn narrow(vars: &[VarInfo])
    requires { list_all has_range vars.now ≡ true }
    ensures { (v : ℕ) → sizes vars.now v < 2 ^ 63 }
{
    match vars {
        [] => {}
        [_, rest @ ..] => {
            size_at(vars, 0);
            narrow(rest)
        }
    }
}

// The triple of a let.
fn let_triple(lets: &[Triple], j: u8) -> Triple
    requires { All IsSmall lets.now }
    ensures value { result ≡ slice_index_or lets.now j no_triple }
    ensures small { IsSmall result }
{
    match lets.get(usize::from(j)) {
        None => Triple { k: 0, h: 0, e: 0 },
        Some(a) => *a,
    }
}

// The triple of an operation on two, where both operands have one.
fn both(kind: Two, a: Option<Triple>, b: Option<Triple>) -> Option<Triple>
    requires left { IfSome a (λ x. IsSmall x) }
    requires right { IfSome b (λ x. IsSmall x) }
    ensures value { result ≡ next a (λ x. next b (λ y. settled (both kind x y))) }
    ensures small { IfSome result (λ x. IsSmall x) }
{
    let a = a?;
    let b = b?;
    trimmed(joined(kind, a, b))
}

// The triple of a power, where the base has one.
fn raised(a: Option<Triple>, n: u8) -> Option<Triple>
    requires { IfSome a (λ x. IsSmall x) }
    ensures value { result ≡ next a (λ x. power_tried x n) }
    ensures small { IfSome result (λ x. IsSmall x) }
{
    let a = a?;
    powered(a, n)
}

/// The triple of a tree, or none where one of its nodes has too large an error or exponent.
pub(crate) fn tried(vars: &[VarInfo], lets: &[Triple], t: &Fitted) -> Option<Triple>
    requires { All IsSmall lets.now }
    ensures { IsTried vars.now lets.now (untyped (typed t.now)) result }
{
    match &t.op {
        FitOp::Num(c) => Some(leaf(c.unsigned_abs())),
        FitOp::Input(v) => Some(leaf(u128::from(size_at(vars, *v)))),
        FitOp::Let(j) => Some(let_triple(lets, *j)),
        FitOp::Neg(x) => tried(vars, lets, x),
        FitOp::Add(x, y) | FitOp::Sub(x, y) | FitOp::Mul(x, y) => {
            let a = tried(vars, lets, x);
            let b = tried(vars, lets, y);
            both(t.operation(), a, b)
        }
        FitOp::Pow(x, n) => {
            let a = tried(vars, lets, x);
            raised(a, *n)
        }
    }
}
