//! Polynomials that have several owners.
//!
//! A `get` pushes a local onto the stack once more. Were its terms copied then, a short line could cost a thousand copies; so a
//! polynomial on the stack has owners, and its terms go with the last one. Nor does a `neg` touch the terms: a sign is kept beside them.
ghost use Rattle.std.specs.Prelude.{◌≡◌, ◌≢◌, [], ◌∷◌, ◌+◌, ◌<◌, ◌^◌, IfOk, IfSome, pos, length, unsigned_abs};
ghost use Rattle.ln_poly.specs.Sparse.{negated, size_of};
ghost use Rattle.ln_verify.specs.Joined.{IsSum};
ghost use Rattle.ln_verify.specs.Signed.{signed};

use ln_base::NoMemory;
use ln_poly::{Poly, sum};
use std::alloc::Global;
use std::marker::Model;
use std::rc::Rc;

/// A polynomial, of which there may be several owners: its terms, or minus them. Contracts see the list of its terms, as those of a
/// `Poly`.
#[derive(Drop)]
pub struct SharedPoly {
    minus: bool,
    poly: Rc<Poly>,
}

impl Model for SharedPoly {
    ghost use Rattle.std.specs.Prelude.{ℕ, ℤ, List};
    ghost use Rattle.ln_poly.specs.Sparse.{IsPoly};
    ghost use Rattle.ln_verify.specs.Signed.{signed};

    ghost Value = { List (List (ℕ × ℕ) × ℤ) };

    ghost view = { λ h. signed h.minus h.poly.value };

    ghost invariant = { λ h. IsPoly h.poly.value };
}

// The polynomial of a handle, alone. Where this is the last owner, no term is copied.
fn alone(alloc: Global, poly: Rc<Poly>) -> Result<Poly, NoMemory>
    ensures { IfOk result (λ f. f ≡ poly.value) }
{
    match Rc::try_unwrap(poly) {
        Ok(f) => Ok(f),
        Err(shared) => {
            let f = shared.as_ref().copy(alloc)?;
            Ok(f)
        }
    }
}

impl SharedPoly {
    /// The first owner of a polynomial.
    pub fn of(alloc: Global, f: Poly) -> Result<SharedPoly, NoMemory>
        ensures { IfOk result (λ h. h ≡ f) }
    {
        let poly = Rc::new(alloc, f)?;
        Ok(SharedPoly { minus: false, poly })
    }

    /// How many terms it has.
    pub fn count(&self) -> usize
        ensures { result ≡ length self.now }
    {
        self.poly.as_ref().terms().len()
    }

    /// The polynomial, lent, where no minus is beside its terms.
    pub fn lent(&self) -> Option<&Poly>
        ensures { IfSome result (λ f. f.now ≡ self.now) }
    {
        if !self.minus {
            return Some(self.poly.as_ref());
        }
        None
    }

    /// A copy of the polynomial.
    pub fn settled(&self, alloc: Global) -> Result<Poly, NoMemory>
        ensures { IfOk result (λ f. f ≡ self.now) }
    {
        let f = self.poly.as_ref().copy(alloc)?;
        if self.minus {
            return Ok(f.negated());
        }
        Ok(f)
    }

    // The polynomial alone, or minus it.
    fn taken(self, alloc: Global, minus: bool) -> Result<Poly, NoMemory>
        ensures { IfOk result (λ f. signed minus f ≡ self) }
    {
        let own = self.minus;
        let f = alone(alloc, self.poly)?;
        if own == minus {
            return Ok(f);
        }
        Ok(f.negated())
    }

    /// The polynomial alone, without other owners. Where this is the last one, no term is copied.
    pub fn plain(self, alloc: Global) -> Result<Poly, NoMemory>
        ensures { IfOk result (λ f. f ≡ self) }
    {
        let f = self.taken(alloc, false)?;
        Ok(f)
    }

    /// One more owner. No term is copied.
    pub fn copy(&self) -> Result<SharedPoly, NoMemory>
        ensures { IfOk result (λ h. h ≡ self.now) }
    {
        let poly = self.poly.clone()?;
        Ok(SharedPoly {
            minus: self.minus,
            poly,
        })
    }
}

/// c times the e-th power of variable v.
pub fn power(alloc: Global, v: u8, e: u8, c: i128) -> Result<SharedPoly, NoMemory>
    requires positive { 0 < e }
    requires small { e < 128 }
    requires some { c ≢ pos 0 }
    requires factor { unsigned_abs c < 2 ^ 127 }
    ensures { IfOk result (λ f. f ≡ ((v, e) ∷ [], c) ∷ []) }
{
    let f = ln_poly::power(alloc, v, e, c)?;
    let h = SharedPoly::of(alloc, f)?;
    Ok(h)
}

/// The number c.
pub fn number(alloc: Global, c: i128) -> Result<SharedPoly, NoMemory>
    requires factor { unsigned_abs c < 2 ^ 127 }
    ensures zero { c ≡ pos 0 → IfOk result (λ f. f ≡ []) }
    ensures some { c ≢ pos 0 → IfOk result (λ f. f ≡ ([], c) ∷ []) }
{
    let f = ln_poly::number(alloc, c)?;
    let h = SharedPoly::of(alloc, f)?;
    Ok(h)
}

/// Minus a polynomial. No term is copied.
pub fn opposite(f: SharedPoly) -> SharedPoly
    ensures { result ≡ negated f }
{
    SharedPoly {
        minus: !f.minus,
        poly: f.poly,
    }
}

// The sum of two polynomials, in place of the first.
fn add_to(alloc: Global, f: SharedPoly, g: &SharedPoly) -> Result<SharedPoly, NoMemory>
    requires { size_of f + size_of g.now < 2 ^ 127 }
    ensures { IfOk result (λ h. IsSum f g.now h) }
{
    let own = f.taken(alloc, g.minus)?;
    let s = sum(alloc, own, g.poly.as_ref())?;
    let poly = Rc::new(alloc, s)?;
    Ok(SharedPoly {
        minus: g.minus,
        poly,
    })
}

/// The sum of two polynomials, in place of the longer one, or of the first. Its terms are copied only where it has other owners.
pub fn add(alloc: Global, f: SharedPoly, g: SharedPoly) -> Result<SharedPoly, NoMemory>
    requires { size_of f + size_of g < 2 ^ 127 }
    ensures { IfOk result (λ h. IsSum f g h) }
{
    if f.count() < g.count() {
        return add_to(alloc, g, &f);
    }
    add_to(alloc, f, &g)
}
