//! Computes scaled derivatives of a polynomial, by one variable or by several.
ghost use Rattle.std.specs.Prelude.{◌≡◌, ℕ, ℤ, List, [], ◌∷◌, ◌++◌, ◌+◌, ◌-◌, ◌<◌, ◌≤◌, ◌^◌, ◌*ℤ◌, pos};
ghost use Rattle.std.specs.Prelude.{IfOk, OnOk, length, slice_index, slice_index_or, unsigned_abs};
ghost use Rattle.ln_algebra.specs.Terms.{binomial, factor_at};
ghost use Rattle.ln_algebra.specs.Weights.{weighted_sum};
ghost use Rattle.ln_bound.specs.Light.{most};
ghost use Rattle.ln_bound.specs.Value.{sizes, weights};
ghost use Rattle.ln_tree.specs.Exps.{IsAbove, IsRising, Pairs, exponent};
ghost use Rattle.ln_poly.specs.Sparse.{AreBelow, IsPoly, coefficient_at, terms_of};
ghost use Rattle.ln_poly.specs.Derivative.{IsDerivative, IsDerivedPut, IsLowered, derivative};

use crate::arithmetic::push_product;
use crate::binomials::column;
use crate::fields::largest;
use crate::poly::Poly;
use crate::terms::nonzero;
use ln_base::NoMemory;
use ln_tree::{Exps, Shape, exponent_of};
use std::alloc::Global;

// The pair with its exponent lowered where it is that of v.
fn lowered_pair(p: (u8, u8), v: u8, n: u8) -> u8
    requires { p.0 ≡ v → n ≤ p.1 }
    ensures same { p.0 ≡ v → result + n ≡ p.1 }
    ensures other { (p.0 ≡ v → ⊥) → result ≡ p.1 }
{
    if p.0 == v { p.1 - n } else { p.1 }
}

// The exponents with that of variable v lowered by n.
fn lowered(alloc: Global, e: &Exps, v: u8, n: u8) -> Result<Exps, NoMemory>
    requires { n ≤ exponent v e.now }
    ensures { IfOk result (λ r. IsLowered r e.now v n) }
{
    let pairs = e.pairs();
    let mut out = Exps::new(alloc);
    'pairs: for p in pairs {
        let k = lowered_pair(*p, v, n);
        if k > 0 {
            out.push(p.0, k)?;
        }
    }
    Ok(out)
}

// Appends the term with these exponents and this product as its factor.
fn push_times(
    out: &mut Vec<(Exps, i128)>,
    exps: Exps,
    factor: i128,
    times: u128,
) -> Result<(), NoMemory>
    requires times { times < 2 ^ 127 }
    requires room { unsigned_abs (factor *ℤ pos times) < 2 ^ 127 }
    ensures { OnOk result (out.new.items ≡ out.old.items ++ (exps, factor *ℤ pos times) ∷ []) }
{
    push_product(out, exps, factor, times as i128)
}

// Appends the derivative of a term, where it has one.
fn put_derived(
    alloc: Global,
    out: &mut Vec<(Exps, i128)>,
    t: &(Exps, i128),
    v: u8,
    n: u8,
    column: &[u128],
) -> Result<(), NoMemory>
    requires len { length column.now ≡ 128 }
    requires column { n ≤ exponent v t.now.0 → slice_index column.now (exponent v t.now.0 - n) ≡ binomial (exponent v t.now.0) n }
    requires room { n ≤ exponent v t.now.0 → unsigned_abs (t.now.1 *ℤ pos (binomial (exponent v t.now.0) n)) < 2 ^ 127 }
    ensures none { OnOk result (exponent v t.now.0 < n → out.new.items ≡ out.old.items) }
    ensures some { OnOk result (n ≤ exponent v t.now.0 → IsDerivedPut out.new.items out.old.items t.now v n) }
{
    let e = exponent_of(t.0.pairs(), v);
    if e < n {
        return Ok(());
    }
    let exps = lowered(alloc, &t.0, v, n)?;
    push_times(out, exps, t.1, column[usize::from(e - n)])
}

// How many exponents of variable v there are from n to the largest one.
fn reach(f: &[(Exps, i128)], v: u8, n: u8) -> usize
    ensures few { result ≤ 128 - n }
    ensures each { (i : ℕ) (t : Pairs × ℤ) → i < length f.now → n ≤ exponent v (slice_index_or f.now i t).0 →
        exponent v (slice_index_or f.now i t).0 - n < result }
{
    let tops = largest(f);
    usize::from((tops[usize::from(v)] + 1).saturating_sub(n))
}

/// The scaled derivative by variable v, n times: the partial derivative divided by the factorial of n.
pub fn derive(alloc: Global, f: &Poly, s: &Shape, v: u8, n: u8) -> Result<Poly, NoMemory>
    requires variable { v < length s.now.vars }
    requires below { AreBelow (length s.now.vars) f.now }
    requires small { weighted_sum (sizes s.now.vars) (derivative (length s.now.vars) v n f.now) ≤ most }
    ensures coefficients { IfOk result (λ h. (m : List ℕ) →
        coefficient_at (length s.now.vars) h m ≡ factor_at (derivative (length s.now.vars) v n f.now) m) }
    ensures form { IfOk result IsPoly }
    ensures below { IfOk result (AreBelow (length s.now.vars)) }
{
    let f = f.terms();
    let column = column(n, reach(f, v, n));
    let mut out = Vec::new(alloc);
    'terms: for t in f {
        put_derived(alloc, &mut out, t, v, n, &column)?;
    }
    let h = nonzero(out);
    Ok(h)
}

/// The scaled derivative by these exponents, variable by variable: the partial derivative divided by their factorials.
pub fn derive_by(alloc: Global, f: &Poly, s: &Shape, a: &Exps) -> Result<Poly, NoMemory>
    requires form { IsPoly f.now }
    requires below { AreBelow (length s.now.vars) f.now }
    requires weight { weighted_sum (weights s.now.vars) (terms_of (length s.now.vars) f.now) ≤ most }
    requires exps { IsAbove a.now (length s.now.vars) }
    ensures derivative { IfOk result (IsDerivative (length s.now.vars) f.now a.now) }
    ensures rising { OnOk result (IsRising a.now) }
{
    let pairs = a.pairs();
    if pairs.is_empty() {
        return f.copy(alloc);
    }
    let (v, n) = pairs[0];
    let mut h = derive(alloc, f, s, v, n)?;
    'pairs: for i in 1..pairs.len() {
        let p = pairs[i];
        h = derive(alloc, &h, s, p.0, p.1)?;
    }
    Ok(h)
}
