//! Polynomials: expanded predicates, sums, products, derivatives and weights.
ghost use Rattle.std.specs.Prelude.{◌≡◌, ◌<◌, ◌≤◌, ◌^◌, ◌∷◌, [], pos, length, unsigned_abs, IfOk};
ghost use Rattle.ln_algebra.specs.Weights.{weighted_sum};
ghost use Rattle.ln_bound.specs.Light.{most};
ghost use Rattle.ln_bound.specs.Value.{weights};
ghost use Rattle.ln_poly.specs.Sparse.{AreBelow, terms_of};

use crate::sources::{poly_of, table};
use ln_base::{NoMemory, Seq};
use ln_poly::{
    Poly, PolyStop, add, derive, heft, is_constant, is_zero, mul, mul_within, number, power, weight,
};
use ln_tree::{Exps, Pred, Shape};
use std::alloc::Global;

/// A term: the pairs of its exponents, and its factor.
type Want = (&'static [(u8, u8)], i128);

/// Has it these terms?
fn has(f: &Poly, terms: &[Want]) -> bool {
    let f = f.terms();
    if f.len() != terms.len() {
        return false;
    }
    for k in 0..terms.len() {
        if f[k].1 != terms[k].1 || f[k].0.pairs() != terms[k].0 {
            return false;
        }
    }
    true
}

/// Are these x + x and x * x?
fn are_twice(sum: &Poly, square: &Poly) -> bool {
    let apart = !sum.same(square) && !is_zero(sum) && !is_constant(sum);
    apart && has(sum, TWO_X) && has(square, X_SQUARED)
}

/// Variable 0, from its one term.
fn x0(alloc: Global) -> Result<Poly, NoMemory>
    ensures { IfOk result (λ f. f ≡ ((0, 1) ∷ [], pos 1) ∷ []) }
{
    let mut exps = Exps::new(alloc);
    exps.push(0, 1)?;
    let mut terms = Seq::new(alloc);
    terms.push((exps, 1))?;
    Ok(Poly::seal(terms))
}

/// Have x + x and x * x, of variable 0, their coefficients?
fn twice(alloc: Global) -> Result<bool, NoMemory> {
    let x = x0(alloc)?;
    let sum = add(alloc, &x, &x)?;
    let square = mul(alloc, &x, &x)?;
    Ok(are_twice(&sum, &square))
}

#[test]
fn sums_and_products_have_their_coefficients(rt: HostRuntime) {
    assert!(rt; matches!(twice(rt.alloc()), Ok(true)));
}

/// Is the number constant as a polynomial, and is it as is said whether it is 0?
fn is_kind(alloc: Global, c: i128, zero: bool) -> bool
    requires { unsigned_abs c < 2 ^ 127 }
{
    match number(alloc, c) {
        Ok(f) => is_constant(&f) && is_zero(&f) == zero,
        Err(_) => false,
    }
}

#[test]
fn numbers_are_constant(rt: HostRuntime) {
    assert!(rt; is_kind(rt.alloc(), 0, true) && is_kind(rt.alloc(), -3, false));
}

/// Has x * x, of variable 0, at most this many terms?
fn square_within(alloc: Global, most: usize) -> Result<bool, NoMemory> {
    let x = power(alloc, 0, 1, 1)?;
    let square = mul_within(alloc, &x, &x, most)?;
    Ok(square.is_some())
}

#[test]
fn products_of_too_many_terms_are_given_up(rt: HostRuntime) {
    let alloc = rt.alloc();
    assert!(rt;
        matches!(square_within(alloc, 1), Ok(true)) && matches!(square_within(alloc, 0), Ok(false))
    );
}

const TWO_X: &[Want] = &[(&[(0, 1)], 2)];

const X_SQUARED: &[Want] = &[(&[(0, 2)], 1)];

const SOURCE: &str = "site point { x: -1000 .. 1000; y: -1000 .. 1000; }
site num { t: -1000 .. 1000; }
predicate orient(p: point, q: point, r: point) { sign (p.x - r.x)*(q.y - r.y) - (p.y - r.y)*(q.x - r.x); }
predicate cube(a: num) { sign a.t^3; }
predicate none(a: num) { sign a.t - a.t; }
";

/// The terms of a predicate's normal polynomial, their weighted sums, and the terms of its derivative by a variable, this many times.
struct Case {
    terms: &'static [Want],
    weight: u128,
    heft: u128,
    by: u8,
    times: u8,
    derived: &'static [Want],
}

const ORIENT: &Case = &Case {
    terms: &[
        (&[(3, 1), (4, 1)], -1),
        (&[(2, 1), (5, 1)], 1),
        (&[(1, 1), (4, 1)], 1),
        (&[(1, 1), (2, 1)], -1),
        (&[(0, 1), (5, 1)], -1),
        (&[(0, 1), (3, 1)], 1),
    ],
    // Six products: 6 * 1000 * 1000, and 6 * 1001 * 1001.
    weight: 6_000_000,
    heft: 6_012_006,
    by: 1,
    times: 1,
    derived: &[(&[(4, 1)], 1), (&[(2, 1)], -1)],
};

// The second derivative of the cube is six times the number; scaled, three times.
const CUBE: &Case = &Case {
    terms: &[(&[(0, 3)], 1)],
    weight: 1000000000,
    heft: 1003003001,
    by: 0,
    times: 2,
    derived: &[(&[(0, 1)], 3)],
};

const NONE: &Case = &Case {
    terms: &[],
    weight: 0,
    heft: 0,
    by: 0,
    times: 1,
    derived: &[],
};

/// Has the polynomial the derivative that is wanted?
fn is_derived(alloc: Global, f: &Poly, s: &Shape, case: &Case) -> bool
    requires below { AreBelow (length s.now.vars) f.now }
    requires light { weighted_sum (weights s.now.vars) (terms_of (length s.now.vars) f.now) ≤ most }
{
    if usize::from(case.by) >= s.vars.len() {
        return false;
    }
    match derive(alloc, f, s, case.by, case.times) {
        Ok(g) => has(&g, case.derived),
        Err(_) => false,
    }
}

/// Has the polynomial the terms, the weighted sums and the derivative that are wanted?
fn is_wanted(alloc: Global, f: &Poly, s: &Shape, case: &Case) -> bool
    requires { AreBelow (length s.now.vars) f.now }
{
    match (heft(f, s), weight(f, s)) {
        (Some(h), Some(w)) => {
            h == case.heft
                && w == case.weight
                && has(f, case.terms)
                && is_derived(alloc, f, s, case)
        }
        _ => false,
    }
}

/// Has the predicate the polynomial that is wanted?
fn is_case(alloc: Global, p: &Pred, case: &Case) -> bool {
    match poly_of(alloc, p) {
        Ok(f) => is_wanted(alloc, &f, &p.shape, case),
        Err(_) => false,
    }
}

/// Have the predicates the polynomials that are wanted?
fn are_cases(alloc: Global, preds: &[Pred]) -> bool {
    match preds {
        [orient, cube, none] => {
            is_case(alloc, orient, ORIENT)
                && is_case(alloc, cube, CUBE)
                && is_case(alloc, none, NONE)
        }
        _ => false,
    }
}

/// Are the polynomials of the source's predicates those that are wanted?
fn has_cases(alloc: Global) -> bool {
    match table(alloc, SOURCE) {
        Some(t) => are_cases(alloc, t.preds.as_slice()),
        None => false,
    }
}

#[test]
fn predicates_have_their_polynomials_and_derivatives(rt: HostRuntime) {
    assert!(rt; has_cases(rt.alloc()));
}

// Predicates with 1,024 terms; with one more; with a product of 1,024 by 32; and with the power of a let.
const LARGE: &str = "site ten {
  a: -1 .. 1; b: -1 .. 1; c: -1 .. 1; d: -1 .. 1; e: -1 .. 1;
  f: -1 .. 1; g: -1 .. 1; h: -1 .. 1; i: -1 .. 1; j: -1 .. 1;
}
predicate most(p: ten, q: ten) {
  let m = (p.a + q.a)*(p.b + q.b)*(p.c + q.c)*(p.d + q.d)*(p.e + q.e);
  sign m*(p.f + q.f)*(p.g + q.g)*(p.h + q.h)*(p.i + q.i)*(p.j + q.j);
}
predicate more(p: ten, q: ten) {
  let m = (p.a + q.a)*(p.b + q.b)*(p.c + q.c)*(p.d + q.d)*(p.e + q.e);
  let n = m*(p.f + q.f)*(p.g + q.g)*(p.h + q.h)*(p.i + q.i)*(p.j + q.j);
  sign n + 1;
}
predicate product(p: ten, q: ten, r: ten, s: ten) {
  let m = (p.a + q.a)*(p.b + q.b)*(p.c + q.c)*(p.d + q.d)*(p.e + q.e);
  let n = (r.a + s.a)*(r.b + s.b)*(r.c + s.c)*(r.d + s.d)*(r.e + s.e);
  let k = m*(p.f + q.f)*(p.g + q.g)*(p.h + q.h)*(p.i + q.i)*(p.j + q.j);
  sign n * k;
}
predicate power(p: ten) { let s = p.a + p.b + p.c + p.d; sign s^15; }
";

/// How many terms a predicate has; or where the first node is that has too many.
fn count(alloc: Global, p: &Pred) -> Result<usize, u32> {
    match poly_of(alloc, p) {
        Ok(f) => Ok(f.terms().len()),
        Err(PolyStop::Terms(at)) => Err(at.start),
        Err(PolyStop::NoMemory(_)) => Err(0),
    }
}

/// Have the predicates 1,024 terms at most? The sum with 1 and the product have too many.
fn are_counted(alloc: Global, preds: &[Pred]) -> bool {
    match preds {
        [most, more, product, power] => {
            matches!(count(alloc, most), Ok(1024))
                && matches!(count(alloc, more), Err(499))
                && matches!(count(alloc, product), Err(782))
                && matches!(count(alloc, power), Ok(816))
        }
        _ => false,
    }
}

/// Have the predicates of the large source their counts of terms?
fn has_counts(alloc: Global) -> bool {
    match table(alloc, LARGE) {
        Some(t) => are_counted(alloc, t.preds.as_slice()),
        None => false,
    }
}

#[test]
fn nodes_have_1024_terms_at_most(rt: HostRuntime) {
    assert!(rt; has_counts(rt.alloc()));
}
