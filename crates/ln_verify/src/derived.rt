//! The comparisons of `decide` and `end`.
ghost use Rattle.std.specs.Prelude.{◌↔◌, IfOk, IsTrue, length};
ghost use Rattle.ln_algebra.specs.Terms.{IsNormalOf, derived};
ghost use Rattle.ln_algebra.specs.Tree.{Tree};
ghost use Rattle.ln_tree.specs.Exps.{IsAbove, vector};
ghost use Rattle.ln_poly.specs.Expansion.{IsNormal};
ghost use Rattle.ln_poly.specs.Sparse.{terms_of};
ghost use Rattle.ln_verify.specs.Here.{IsCase};

use crate::case::Case;
use ln_base::NoMemory;
use ln_code::are_below;
use ln_poly::{Poly, derive_by};
use ln_tree::Exps;
use std::alloc::Global;

/// Is the polynomial the scaled derivative of the predicate's by these exponents?
pub fn is_derivative(alloc: Global, case: &Case<'_>, a: &Exps, g: &Poly) -> Result<bool, NoMemory>
    requires { IsCase case.now }
    ensures { IfOk result (λ ok. IsAbove a.now (length case.now.shape.now.vars) → (t : Tree) → IsNormal (length case.now.shape.now.vars) t g.now →
        IsTrue ok ↔ IsNormalOf (length case.now.shape.now.vars) t
        (derived (vector (length case.now.shape.now.vars) a.now) (terms_of (length case.now.shape.now.vars) case.now.poly.now))) }
{
    if !are_below(a.pairs(), case.shape.vars.len()) {
        return Ok(false);
    }
    let h = derive_by(alloc, case.poly, case.shape, a)?;
    Ok(g.same(&h))
}

/// Is the polynomial the predicate's?
pub fn is_whole(case: &Case<'_>, g: &Poly) -> bool
    requires { IsCase case.now }
    ensures { (t : Tree) → IsNormal (length case.now.shape.now.vars) t g.now →
        IsTrue result ↔ IsNormalOf (length case.now.shape.now.vars) t (terms_of (length case.now.shape.now.vars) case.now.poly.now) }
{
    g.same(case.poly)
}
