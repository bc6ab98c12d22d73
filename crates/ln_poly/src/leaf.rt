//! Polynomials with one term at most.
ghost use Rattle.std.specs.Prelude.{◌≡◌, ◌≢◌, ◌<◌, ◌^◌, [], ◌∷◌, pos, IfOk, unsigned_abs};
ghost use Rattle.ln_poly.specs.Sparse.{IsPoly};

use crate::poly::Poly;
use ln_base::{NoMemory, Seq};
use ln_tree::Exps;
use std::alloc::Global;

// A polynomial with one term.
fn one_term(alloc: Global, exps: Exps, c: i128) -> Result<Poly, NoMemory>
    requires { IsPoly ((exps, c) ∷ []) }
    ensures { IfOk result (λ f. f ≡ (exps, c) ∷ []) }
{
    let mut terms = Seq::new(alloc);
    terms.push((exps, c))?;
    Ok(Poly::seal(terms))
}

/// c times the e-th power of variable v.
pub fn power(alloc: Global, v: u8, e: u8, c: i128) -> Result<Poly, NoMemory>
    requires positive { 0 < e }
    requires small { e < 128 }
    requires some { c ≢ pos 0 }
    requires factor { unsigned_abs c < 2 ^ 127 }
    ensures { IfOk result (λ f. f ≡ ((v, e) ∷ [], c) ∷ []) }
{
    let mut exps = Exps::new(alloc);
    exps.push(v, e)?;
    one_term(alloc, exps, c)
}

/// The number c.
pub fn number(alloc: Global, c: i128) -> Result<Poly, NoMemory>
    requires factor { unsigned_abs c < 2 ^ 127 }
    ensures zero { c ≡ pos 0 → IfOk result (λ f. f ≡ []) }
    ensures some { c ≢ pos 0 → IfOk result (λ f. f ≡ ([], c) ∷ []) }
{
    if c == 0 {
        return Ok(Poly::seal(Seq::new(alloc)));
    }
    one_term(alloc, Exps::new(alloc), c)
}
