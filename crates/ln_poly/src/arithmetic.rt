//! Sums and differences of polynomials, and products of one term with a polynomial.
ghost use Rattle.std.specs.Prelude.{◌≡◌, ℕ, List, [], ◌∷◌, ◌+◌, ◌*◌, ◌<◌, ◌≤◌, ◌^◌, ◌++◌, ◌+ℤ◌, ◌-ℤ◌, ◌*ℤ◌, All, IfOk, OnOk, unsigned_abs};
ghost use Rattle.std.specs.Prelude.{◌≢◌, pos};
ghost use Rattle.ln_tree.specs.Exps.{exponent};
ghost use Rattle.ln_poly.specs.Sparse.{IsFactor, IsPoly, AreBelow, coefficient_at, negated, size_of};
ghost use Rattle.ln_poly.specs.Rows.{AreProducts, IsProductPut, PowersFit};

use crate::poly::Poly;
use crate::sums::sum;
use crate::terms::push;
use crate::times::put_times;
use ln_base::{NoMemory, Seq};
use ln_tree::Exps;
use std::alloc::Global;

// Appends copies of terms.
pub(crate) fn put_all(out: &mut Vec<(Exps, i128)>, f: &[(Exps, i128)]) -> Result<(), NoMemory>
    ensures { OnOk result (out.new.items ≡ out.old.items ++ f.now) }
{
    for t in f {
        push(out, t)?;
    }
    Ok(())
}

// Changes the sign of each factor.
pub(crate) fn negate(out: &mut Vec<(Exps, i128)>)
    requires { All (λ t. IsFactor t.1) out.old.items }
    ensures { out.new.items ≡ negated out.old.items }
{
    for i in 0..out.len() {
        let t = &mut out[i];
        t.1 = -t.1;
    }
}

/// Minus a polynomial that is lent. Where it is owned, `Poly::negated` allocates nothing.
pub fn negated(alloc: Global, f: &Poly) -> Result<Poly, NoMemory>
    ensures { IfOk result (λ g. g ≡ negated f.now) }
{
    let g = f.copy(alloc)?;
    Ok(g.negated())
}

/// The sum of two polynomials. Where the first is owned, `sum` copies none of its terms.
pub fn add(alloc: Global, f: &Poly, g: &Poly) -> Result<Poly, NoMemory>
    requires { size_of f.now + size_of g.now < 2 ^ 127 }
    ensures coefficients { IfOk result (λ h. (n : ℕ) (m : List ℕ) →
        coefficient_at n h m ≡ coefficient_at n f.now m +ℤ coefficient_at n g.now m) }
    ensures size { IfOk result (λ h. size_of h ≤ size_of f.now + size_of g.now) }
    ensures form { IfOk result IsPoly }
    ensures below { IfOk result (λ h. (n : ℕ) → AreBelow n f.now → AreBelow n g.now → AreBelow n h) }
{
    let own = f.copy(alloc)?;
    sum(alloc, own, g)
}

/// The difference of two polynomials.
pub fn sub(alloc: Global, f: &Poly, g: &Poly) -> Result<Poly, NoMemory>
    requires { size_of f.now + size_of g.now < 2 ^ 127 }
    ensures coefficients { IfOk result (λ h. (n : ℕ) (m : List ℕ) →
        coefficient_at n h m ≡ coefficient_at n f.now m -ℤ coefficient_at n g.now m) }
    ensures form { IfOk result IsPoly }
    ensures below { IfOk result (λ h. (n : ℕ) → AreBelow n f.now → AreBelow n g.now → AreBelow n h) }
{
    let minus = negated(alloc, g)?;
    sum(alloc, minus, f)
}

// Appends a term, with a product as its factor.
pub(crate) fn push_product(
    out: &mut Vec<(Exps, i128)>,
    exps: Exps,
    a: i128,
    b: i128,
) -> Result<(), NoMemory>
    requires { unsigned_abs (a *ℤ b) < 2 ^ 127 }
    ensures { OnOk result (out.new.items ≡ out.old.items ++ (exps, a *ℤ b) ∷ []) }
{
    out.push((exps, a * b))?;
    Ok(())
}

// Appends the product of two terms.
fn put_product(
    alloc: Global,
    out: &mut Vec<(Exps, i128)>,
    s: &(Exps, i128),
    t: &(Exps, i128),
) -> Result<(), NoMemory>
    requires powers { (v : ℕ) → exponent v s.now.0 + exponent v t.now.0 < 128 }
    requires room { unsigned_abs (s.now.1 *ℤ t.now.1) < 2 ^ 127 }
    ensures { OnOk result (IsProductPut out.new.items out.old.items s.now t.now) }
{
    let k = out.len();
    push_product(out, Exps::new(alloc), s.1, t.1)?;
    put_times(&mut out[k].0, &s.0, &t.0)
}

// Writes the products of s with the terms of g.
fn put_row(
    alloc: Global,
    out: &mut Vec<(Exps, i128)>,
    s: &(Exps, i128),
    g: &[(Exps, i128)],
) -> Result<(), NoMemory>
    requires empty { out.old.items ≡ [] }
    requires room { unsigned_abs s.now.1 * size_of g.now < 2 ^ 127 }
    requires powers { PowersFit s.now g.now }
    ensures { OnOk result (AreProducts s.now g.now out.new.items) }
{
    for t in g {
        put_product(alloc, out, s, t)?;
    }
    Ok(())
}

// The product of one term and a polynomial, whose terms are in the order of those of g.
pub(crate) fn walk(alloc: Global, s: &(Exps, i128), g: &[(Exps, i128)]) -> Result<Poly, NoMemory>
    requires room { unsigned_abs s.now.1 * size_of g.now < 2 ^ 127 }
    requires powers { PowersFit s.now g.now }
    requires factor { s.now.1 ≢ pos 0 }
    requires form { IsPoly g.now }
    ensures row { IfOk result (AreProducts s.now g.now) }
    ensures form { IfOk result IsPoly }
{
    let mut out = Vec::with_capacity(alloc, g.len())?;
    put_row(alloc, &mut out, s, g)?;
    Ok(Poly::seal(Seq::from_vec(out)))
}
