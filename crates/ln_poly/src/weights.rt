//! Computes the weighted sums of a polynomial that bound its values and those of all its scaled derivatives.
ghost use Rattle.std.specs.Prelude.{◌≡◌, ◌*◌, ◌<◌, ◌≤◌, ◌^◌, length, unsigned_abs, MatchOption};
ghost use Rattle.ln_algebra.specs.Weights.{weighted_sum};
ghost use Rattle.ln_bound.specs.Light.{most};
ghost use Rattle.ln_bound.specs.Value.{sizes, weights};
ghost use Rattle.ln_tree.specs.Exps.{IsAbove};
ghost use Rattle.ln_poly.specs.Sparse.{AreBelow, terms_of};
ghost use Rattle.ln_poly.specs.Weight.{grown, term_weight};

use crate::poly::Poly;
use ln_interval::pair::MOST;
use ln_tree::{Exps, Shape, VarInfo};

// M of a variable, the largest absolute value of its range and at least 1, and `more`.
fn grown(vars: &[VarInfo], v: u8, more: u8) -> u128
    ensures { result ≡ grown more vars.now v }
{
    match vars.get(usize::from(v)) {
        Some(i) => {
            u128::from(i.lo.unsigned_abs().max(i.hi.unsigned_abs()).max(1)) + u128::from(more)
        }
        None => 0,
    }
}

// w times the e-th power of m.
fn scaled(w: u128, m: u128, e: u8) -> Option<u128>
    requires some { 0 < m }
    requires small { w ≤ most }
    ensures { MatchOption result (most < w * m ^ e) (λ p. (p ≡ w * m ^ e) × (p ≤ most)) }
{
    let mut p = w;
    'factors: for _k in 0..e {
        match p.checked_mul(m) {
            Some(q) if q <= MOST => p = q,
            _ => return None,
        }
    }
    Some(p)
}

fn weight_of_term(vars: &[VarInfo], t: &(Exps, i128), more: u8) -> Option<u128>
    requires below { IsAbove t.now.0 (length vars.now) }
    requires small { unsigned_abs t.now.1 ≤ most }
    ensures { MatchOption result (most < term_weight (grown more vars.now) t.now)
        (λ w. (w ≡ term_weight (grown more vars.now) t.now) × (w ≤ most)) }
{
    let mut w = t.1.unsigned_abs();
    'pairs: for p in t.0.pairs() {
        match scaled(w, grown(vars, p.0, more), p.1) {
            Some(q) => w = q,
            None => return None,
        }
    }
    Some(w)
}

// The weighted sum where each variable weighs its M and `more`.
fn total(f: &Poly, s: &Shape, more: u8) -> Option<u128>
    requires { AreBelow (length s.now.vars) f.now }
    ensures { MatchOption result (most < weighted_sum (grown more s.now.vars) (terms_of (length s.now.vars) f.now))
        (λ w. (w ≡ weighted_sum (grown more s.now.vars) (terms_of (length s.now.vars) f.now)) × (w ≤ most)) }
{
    let vars = s.vars.as_slice();
    let f = f.terms();
    let mut sum = 0u128;
    'terms: for t in f {
        match weight_of_term(vars, t, more) {
            Some(w) if w <= MOST - sum => sum += w,
            _ => return None,
        }
    }
    Some(sum)
}

/// The sum of the absolute factors, each times the value of its monomial where every variable has the largest absolute
/// value of its range, and at least 1. None where it exceeds `2^127 - 1`. It allocates nothing.
pub fn weight(f: &Poly, s: &Shape) -> Option<u128>
    requires { AreBelow (length s.now.vars) f.now }
    ensures { MatchOption result (most < weighted_sum (sizes s.now.vars) (terms_of (length s.now.vars) f.now))
        (λ w. (w ≡ weighted_sum (sizes s.now.vars) (terms_of (length s.now.vars) f.now)) × (w ≤ most)) }
{
    total(f, s, 0)
}

/// The same sum where every variable has 1 more than that: all scaled derivatives of the polynomial together weigh as much.
/// None where it exceeds `2^127 - 1`. It allocates nothing.
pub fn heft(f: &Poly, s: &Shape) -> Option<u128>
    requires { AreBelow (length s.now.vars) f.now }
    ensures { MatchOption result (most < weighted_sum (weights s.now.vars) (terms_of (length s.now.vars) f.now))
        (λ w. (w ≡ weighted_sum (weights s.now.vars) (terms_of (length s.now.vars) f.now)) × (w ≤ most)) }
{
    total(f, s, 1)
}
