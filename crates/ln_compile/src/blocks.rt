//! The blocks of a predicate.
ghost use Rattle.std.specs.Prelude.{◌≡◌, ◌+◌, ◌*◌, ◌≤◌, ℕ, All, None, length, slice_index, IfOk};
ghost use Rattle.ln_algebra.specs.Vector.{total_degree};
ghost use Rattle.ln_algebra.specs.Weights.{weighted_sum};
ghost use Rattle.ln_tree.specs.Exps.{IsAbove, vector};
ghost use Rattle.ln_tree.specs.Table.{pred_of};
ghost use Rattle.ln_bound.specs.Light.{AreLight, most};
ghost use Rattle.ln_bound.specs.Value.{weights};
ghost use Rattle.ln_order.specs.Sites.{site_of};
ghost use Rattle.ln_poly.specs.Expansion.{HaveFewTerms, IsNormal};
ghost use Rattle.ln_poly.specs.Sparse.{AreBelow, IsPoly, Sparse, terms_of};
ghost use Rattle.ln_poly.specs.Derivative.{covering};
ghost use Rattle.ln_due.specs.Derivative.{IsDerivativeBlock};
ghost use Rattle.ln_compile.specs.Accepted.{expanded_of, loaded_of, root_of};
ghost use Rattle.ln_compile.specs.Compiled.{IsFromExact, IsOwn};

use ln_base::{NoMemory, Seq};
use ln_bound::size::size;
use ln_code::Block;
use ln_due::BlockMaker;
use ln_lower::lower;
use ln_nest::nest;
use ln_poly::{Poly, derive_by};
use ln_tree::{Exps, Pred, Shape};
use std::alloc::Global;

// The block of a derivative, from its nested form.
fn derivative_block(alloc: Global, f: &Poly, s: &Shape, a: &Exps) -> Result<Block, NoMemory>
    requires form { IsPoly f.now }
    requires below { AreBelow (length s.now.vars) f.now }
    requires weight { weighted_sum (weights s.now.vars) (terms_of (length s.now.vars) f.now) ≤ most }
    requires degrees { All (λ t. total_degree (vector (length s.now.vars) t.0) ≤ 126) f.now }
    requires terms { length f.now ≤ 1024 }
    requires exps { IsAbove a.now (length s.now.vars) }
    requires sites { (v : ℕ) → site_of s.now.vars v ≡ None → slice_index (vector (length s.now.vars) a.now) v ≡ 0 }
    ensures exps { IfOk result (λ b. b.exps ≡ a.now) }
    ensures block { IfOk result (IsDerivativeBlock s.now.vars f.now) }
    ensures exact { IfOk result (IsFromExact s.now.vars f.now) }
    ensures few { IfOk result (λ b. length b.ops ≤ 4096 * covering (length s.now.vars) f.now (vector (length s.now.vars) a.now) + 68) }
{
    let h = derive_by(alloc, f, s, a)?;
    let nested = nest(alloc, &h, s);
    drop(h);
    let t = nested?;
    let made = lower(alloc, a, s, &t, &Seq::new(alloc));
    drop(t);
    made
}

/// The block of the source's own tree with its lets.
pub(crate) fn first_block(alloc: Global, p: &Pred) -> Result<Block, NoMemory>
    requires light { AreLight (loaded_of (pred_of p.now)) }
    ensures own { IfOk result (IsOwn (pred_of p.now)) }
    ensures block { IfOk result (λ b. (f : Sparse) → IsNormal (length p.now.shape.vars) (root_of (pred_of p.now)) f →
        HaveFewTerms (length p.now.shape.vars) (expanded_of (pred_of p.now)) → IsDerivativeBlock p.now.shape.vars f b) }
    ensures small { IfOk result (λ b. length b.ops ≤ 524352) }
{
    let sized = size(alloc, p)?;
    let made = lower(alloc, &Exps::new(alloc), &p.shape, &sized.root, &sized.lets);
    drop(sized);
    made
}

/// Makes blocks from nested forms with exact ranges.
pub(crate) struct FromNested {}

impl BlockMaker for FromNested {
    ghost makes = { IsFromExact };

    fn block(&self, alloc: Global, f: &Poly, s: &Shape, a: &Exps) -> Result<Block, NoMemory> {
        derivative_block(alloc, f, s, a)
    }
}
