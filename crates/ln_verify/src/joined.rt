//! The polynomial of what an operation makes of two.
ghost use Rattle.std.specs.Prelude.{◌+◌, ◌*◌, ◌<◌, ◌≤◌, ◌^◌, IfOk};
ghost use Rattle.ln_interval.specs.Range.{most};
ghost use Rattle.ln_bound.specs.declared.fitted.Two.TheVariants.{Minus, Plus, Times};
ghost use Rattle.ln_bound.specs.Typed.{bound_of};
ghost use Rattle.ln_poly.specs.Sparse.{size_of};
ghost use Rattle.ln_verify.specs.Joined.{Joined};

use crate::fits::all_fit;
use crate::shared_poly::{SharedPoly, add, opposite};
use ln_base::NoMemory;
use ln_bound::Two;
use ln_poly::{Poly, mul_within};
use std::alloc::Global;

fn plus(alloc: Global, f: SharedPoly, g: SharedPoly) -> Result<Option<SharedPoly>, NoMemory>
    requires { size_of f + size_of g < 2 ^ 127 }
    ensures { IfOk result (λ o. Joined Plus f g o) }
{
    let h = add(alloc, f, g)?;
    Ok(Some(h))
}

fn minus(alloc: Global, f: SharedPoly, g: SharedPoly) -> Result<Option<SharedPoly>, NoMemory>
    requires { size_of f + size_of g < 2 ^ 127 }
    ensures { IfOk result (λ o. Joined Minus f g o) }
{
    let m = opposite(g);
    let h = add(alloc, m, f)?;
    Ok(Some(h))
}

// The product, where its exponents are below 128 and it has at most 1,024 terms.
fn within(alloc: Global, f: &Poly, g: &Poly) -> Result<Option<SharedPoly>, NoMemory>
    requires { size_of f.now * size_of g.now < 2 ^ 127 }
    ensures { IfOk result (λ o. Joined Times f.now g.now o) }
{
    if !all_fit(f.terms(), g.terms()) {
        return Ok(None);
    }
    let found = mul_within(alloc, f, g, 1024)?;
    let Some(p) = found else {
        return Ok(None);
    };
    let h = SharedPoly::of(alloc, p)?;
    Ok(Some(h))
}

// The product with a second polynomial, whose terms are copied only where a minus is beside them and it has other owners.
fn times_by(alloc: Global, f: &Poly, g: SharedPoly) -> Result<Option<SharedPoly>, NoMemory>
    requires { size_of f.now * size_of g < 2 ^ 127 }
    ensures { IfOk result (λ o. Joined Times f.now g o) }
{
    if let Some(second) = g.lent() {
        return within(alloc, f, second);
    }
    let own = g.plain(alloc)?;
    within(alloc, f, &own)
}

fn times(alloc: Global, f: SharedPoly, g: SharedPoly) -> Result<Option<SharedPoly>, NoMemory>
    requires { size_of f * size_of g < 2 ^ 127 }
    ensures { IfOk result (λ o. Joined Times f g o) }
{
    if let Some(first) = f.lent() {
        return times_by(alloc, first, g);
    }
    let own = f.plain(alloc)?;
    times_by(alloc, &own, g)
}

/// The polynomial of a sum, a difference or a product; none where it isn't small. A product whose exponents exceed the limit isn't
/// worked out.
pub fn joined(
    alloc: Global,
    t: Two,
    f: SharedPoly,
    g: SharedPoly,
) -> Result<Option<SharedPoly>, NoMemory>
    requires { bound_of t (size_of f) (size_of g) ≤ most }
    ensures { IfOk result (λ o. Joined t f g o) }
{
    match t {
        Two::Plus => plus(alloc, f, g),
        Two::Minus => minus(alloc, f, g),
        Two::Times => times(alloc, f, g),
    }
}
