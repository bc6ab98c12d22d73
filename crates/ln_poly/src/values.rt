//! Computes the value of a scaled derivative on a row, without forming the derivative.
ghost use Rattle.std.specs.Prelude.{◌≡◌, ◌<◌, ◌≤◌, ◌+◌, ◌-◌, ◌*◌, ◌^◌, ◌*ℤ◌, pos, true, length, max, unsigned_abs};
ghost use Rattle.ln_algebra.specs.Terms.{binomial, covers, derived, power_of, value};
ghost use Rattle.ln_algebra.specs.Weights.{weighted_sum};
ghost use Rattle.ln_bound.specs.Light.{most};
ghost use Rattle.ln_bound.specs.Value.{weights};
ghost use Rattle.ln_tree.specs.Exps.{IsAbove, IsRising, vector};
ghost use Rattle.ln_tree.specs.Row.{AreWithin, values};
ghost use Rattle.ln_poly.specs.Sparse.{AreBelow, terms_of};
ghost use Rattle.ln_poly.specs.Weight.{term_weight};
ghost use Rattle.ln_poly.specs.Values.{parts, term_value};

use crate::binomials::Binomials;
use crate::poly::Poly;
use ln_tree::{Exps, Shape, exponent_of};

// A number times the n-th power of x.
fn raised(z: i128, x: i64, n: u8) -> i128
    requires { unsigned_abs z * max 1 (unsigned_abs x) ^ n ≤ most }
    ensures { result ≡ z *ℤ power_of x n }
{
    let mut product = z;
    'factors: for _k in 0..n {
        product = product * i128::from(x);
    }
    product
}

// A number times what a pair of a monomial adds to a derivative by an exponent k of its variable, which has the value x.
fn with_pair(b: &Binomials, z: i128, p: (u8, u8), k: u8, x: i64) -> i128
    requires small { p.1 < 128 }
    requires within { k ≤ p.1 }
    requires room { unsigned_abs z * (max 1 (unsigned_abs x) + 1) ^ p.1 ≤ most }
    ensures { result ≡ z *ℤ (pos (binomial p.1 k) *ℤ power_of x (p.1 - k)) }
{
    if z == 0 {
        return 0;
    }
    let ways = b.of(p.1, k) as i128;
    raised(z * ways, x, p.1 - k)
}

// Has a monomial at least these exponents?
fn is_covered(m: &Exps, s: &Shape, a: &[(u8, u8)]) -> bool
    requires rising { IsRising a.now }
    requires above { IsAbove a.now (length s.now.vars) }
    ensures { result ≡ covers (vector (length s.now.vars) m.now) (vector (length s.now.vars) a.now) }
{
    let pairs = m.pairs();
    'pairs: for q in a {
        if exponent_of(pairs, q.0) < q.1 {
            return false;
        }
    }
    true
}

// What a term that has at least these exponents adds.
fn product(b: &Binomials, t: &(Exps, i128), s: &Shape, a: &[(u8, u8)], row: &[i64]) -> i128
    requires rising { IsRising a.now }
    requires below { IsAbove t.now.0 (length s.now.vars) }
    requires light { term_weight (weights s.now.vars) t.now ≤ most }
    requires row { AreWithin s.now.vars row.now }
    requires covered { covers (vector (length s.now.vars) t.now.0) (vector (length s.now.vars) a.now) ≡ true }
    ensures value { result ≡ t.now.1 *ℤ parts (values row.now) a.now t.now.0 }
    ensures small { unsigned_abs result ≤ term_weight (weights s.now.vars) t.now }
{
    let mut z = t.1;
    let pairs = t.0.pairs();
    'pairs: for p in pairs {
        z = with_pair(b, z, *p, exponent_of(a, p.0), row[usize::from(p.0)]);
    }
    z
}

// What a term adds.
fn term(b: &Binomials, t: &(Exps, i128), s: &Shape, a: &[(u8, u8)], row: &[i64]) -> i128
    requires rising { IsRising a.now }
    requires above { IsAbove a.now (length s.now.vars) }
    requires below { IsAbove t.now.0 (length s.now.vars) }
    requires light { term_weight (weights s.now.vars) t.now ≤ most }
    requires row { AreWithin s.now.vars row.now }
    ensures value { result ≡ term_value (length s.now.vars) (values row.now) a.now t.now }
    ensures small { unsigned_abs result ≤ term_weight (weights s.now.vars) t.now }
{
    if is_covered(&t.0, s, a) {
        product(b, t, s, a, row)
    } else {
        0
    }
}

/// The value, on a row in range, of the scaled derivative of a polynomial by these exponents. The derivative isn't formed, no
/// sum on the way exceeds `2^127 - 1`, and it allocates nothing.
pub fn value_at(b: &Binomials, f: &Poly, s: &Shape, a: &[(u8, u8)], row: &[i64]) -> i128
    requires rising { IsRising a.now }
    requires above { IsAbove a.now (length s.now.vars) }
    requires below { AreBelow (length s.now.vars) f.now }
    requires light { weighted_sum (weights s.now.vars) (terms_of (length s.now.vars) f.now) ≤ most }
    requires row { AreWithin s.now.vars row.now }
    ensures { result ≡ value (values row.now) (derived (vector (length s.now.vars) a.now) (terms_of (length s.now.vars) f.now)) }
{
    let terms = f.terms();
    let mut sum = 0i128;
    'terms: for t in terms {
        sum = sum + term(b, t, s, a, row);
    }
    sum
}
