//! The block of a stage by total degree.
ghost use Rattle.std.specs.Prelude.{◌≡◌, ◌+◌, ◌*◌, ◌≤◌, ℕ, All, None, length, slice_index, IfOk};
ghost use Rattle.ln_algebra.specs.Vector.{total_degree};
ghost use Rattle.ln_algebra.specs.Weights.{weighted_sum};
ghost use Rattle.ln_tree.specs.Exps.{IsAbove, vector};
ghost use Rattle.ln_bound.specs.Light.{most};
ghost use Rattle.ln_bound.specs.Value.{weights};
ghost use Rattle.ln_order.specs.Sites.{site_of};
ghost use Rattle.ln_poly.specs.Derivative.{covering};
ghost use Rattle.ln_poly.specs.Sparse.{AreBelow, IsPoly, terms_of};
ghost use Rattle.ln_due.specs.Derivative.{IsDerivativeBlock};

use ln_base::{NoMemory, Seq};
use ln_code::Block;
use ln_due::BlockMaker;
use ln_lower::lower;
use ln_nest::nest;
use ln_poly::{Poly, derive_by};
use ln_tree::{Exps, Shape};
use std::alloc::Global;

// The block of a derivative, from its nested form.
fn derivative_block(alloc: Global, f: &Poly, s: &Shape, a: &Exps) -> Result<Block, NoMemory>
    requires form { IsPoly f.now }
    requires below { AreBelow (length s.now.vars) f.now }
    requires weight { weighted_sum (weights s.now.vars) (terms_of (length s.now.vars) f.now) ≤ most }
    requires degrees { All (λ t. total_degree (vector (length s.now.vars) t.0) ≤ 126) f.now }
    requires terms { length f.now ≤ 1024 }
    requires exps { IsAbove a.now (length s.now.vars) }
    requires sites { (v : ℕ) → site_of s.now.vars v ≡ None → slice_index (vector (length s.now.vars) a.now) v ≡ 0 }
    ensures exps { IfOk result (λ b. b.exps ≡ a.now) }
    ensures block { IfOk result (IsDerivativeBlock s.now.vars f.now) }
    ensures few { IfOk result (λ b. length b.ops ≤ 4096 * covering (length s.now.vars) f.now (vector (length s.now.vars) a.now) + 68) }
{
    let h = derive_by(alloc, f, s, a)?;
    let nested = nest(alloc, &h, s);
    drop(h);
    let t = nested?;
    let made = lower(alloc, a, s, &t, &Seq::new(alloc));
    drop(t);
    made
}

/// Makes blocks from nested forms.
pub(crate) struct FromNested {}

impl BlockMaker for FromNested {
    ghost makes = { IsDerivativeBlock };

    fn block(&self, alloc: Global, f: &Poly, s: &Shape, a: &Exps) -> Result<Block, NoMemory> {
        derivative_block(alloc, f, s, a)
    }
}
