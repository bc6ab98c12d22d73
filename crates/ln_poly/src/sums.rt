//! A sum in place of the first polynomial: no term of it is copied.
ghost use Rattle.std.specs.Prelude.{◌≡◌, ℕ, List, true, ◌+◌, ◌<◌, ◌≤◌, ◌^◌, ◌+ℤ◌};
ghost use Rattle.std.specs.Prelude.{IfOk, OnOk, length, slice_index_or, unsigned_abs};
ghost use Rattle.std.specs.List.{AllWithin};
ghost use Rattle.std.specs.Ordering.{is_lt};
ghost use Rattle.ln_tree.specs.Exps.{pairs_cmp};
ghost use Rattle.ln_poly.specs.Merge.{IsMerge};
ghost use Rattle.ln_poly.specs.Sparse.{AreBelow, IsPoly, ComesBefore, coefficient_at, size_of};
ghost use Rattle.ln_poly.specs.Sums.{IsSpread, Spreads};

use crate::merge::merged;
use crate::poly::Poly;
use crate::terms::{add_at, nonzero, push};
use ln_base::NoMemory;
use ln_tree::Exps;
use std::alloc::Global;

// The first place from `at` on with exponents that aren't below those of t; the length where there is none.
fn reached(f: &[(Exps, i128)], at: usize, t: &(Exps, i128)) -> usize
    ensures within { at ≤ length f.now → result ≤ length f.now }
    ensures passed { AllWithin (λ s. is_lt (pairs_cmp s.0 t.now.0) ≡ true) f.now at result }
{
    let n = f.len();
    for i in at..n {
        if f[i].0 >= t.0 {
            return i;
        }
    }
    n
}

// Are the exponents at a place those of t?
fn stands_at(f: &[(Exps, i128)], at: usize, t: &(Exps, i128)) -> bool
    ensures there { result ≡ true → at < length f.now }
    ensures same { result ≡ true → (slice_index_or f.now at t.now).0 ≡ t.now.0 }
{
    at < f.len() && f[at].0 == t.0
}

// Adds a term to that of f at a place, where it has the same exponents, or else appends a copy to `more`. Returns the place at which the next
// one is looked for.
fn put_at(
    f: &mut Vec<(Exps, i128)>,
    more: &mut Vec<(Exps, i128)>,
    at: usize,
    t: &(Exps, i128),
) -> Result<usize, NoMemory>
    requires { size_of f.old.items + unsigned_abs t.now.1 < 2 ^ 127 }
    ensures { OnOk result (Spreads f.new.items more.new.items f.old.items more.old.items t.now) }
{
    if stands_at(f.as_slice(), at, t) {
        add_at(f, at, t);
        return Ok(at + 1);
    }
    push(more, t)?;
    Ok(at)
}

// The same, where the term of f is looked for from the place on.
fn put_in(
    f: &mut Vec<(Exps, i128)>,
    more: &mut Vec<(Exps, i128)>,
    at: usize,
    t: &(Exps, i128),
) -> Result<usize, NoMemory>
    requires { size_of f.old.items + unsigned_abs t.now.1 < 2 ^ 127 }
    ensures { OnOk result (Spreads f.new.items more.new.items f.old.items more.old.items t.now) }
{
    if stands_at(f.as_slice(), at, t) {
        add_at(f, at, t);
        return Ok(at + 1);
    }
    let next = reached(f.as_slice(), at, t);
    put_at(f, more, next, t)
}

// Adds the terms of g to those of f with the same exponents. What f has none for comes out.
fn spread(
    alloc: Global,
    f: &mut Vec<(Exps, i128)>,
    g: &[(Exps, i128)],
) -> Result<Vec<(Exps, i128)>, NoMemory>
    requires { size_of f.old.items + size_of g.now < 2 ^ 127 }
    ensures { IfOk result (λ more. IsSpread f.old.items g.now f.new.items more.items) }
{
    let mut more = Vec::new(alloc);
    let mut at = 0;
    for t in g {
        at = put_in(f, &mut more, at, t)?;
    }
    Ok(more)
}

// Terms in order and more terms in order, merged.
fn both(
    alloc: Global,
    f: Vec<(Exps, i128)>,
    more: Vec<(Exps, i128)>,
) -> Result<Vec<(Exps, i128)>, NoMemory>
    requires { size_of f.items + size_of more.items < 2 ^ 127 }
    ensures { IfOk result (λ h. IsMerge ComesBefore f.items more.items h.items) }
{
    if more.is_empty() {
        return Ok(f);
    }
    let mut f = f;
    let mut more = more;
    let n = more.len();
    merged(alloc, &mut f, &mut more, n)
}

/// The sum of two polynomials, in place of the first: only terms with exponents that it doesn't have are copied.
pub fn sum(alloc: Global, f: Poly, g: &Poly) -> Result<Poly, NoMemory>
    requires { size_of f + size_of g.now < 2 ^ 127 }
    ensures coefficients { IfOk result (λ h. (n : ℕ) (m : List ℕ) →
        coefficient_at n h m ≡ coefficient_at n f m +ℤ coefficient_at n g.now m) }
    ensures size { IfOk result (λ h. size_of h ≤ size_of f + size_of g.now) }
    ensures form { IfOk result IsPoly }
    ensures below { IfOk result (λ h. (n : ℕ) → AreBelow n f → AreBelow n g.now → AreBelow n h) }
{
    let mut terms = f.into_terms();
    let more = spread(alloc, &mut terms, g.terms())?;
    let out = both(alloc, terms, more)?;
    Ok(nonzero(out))
}
