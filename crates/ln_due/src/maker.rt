//! The blocks of stages, one after the other, over a maker of one block that is passed in.
ghost use Rattle.std.specs.Prelude.{◌≡◌, ◌+◌, ◌*◌, ◌<◌, ◌≤◌, ℕ, All, [], None, length, slice_index, slice_index_or, IfOk};
ghost use Rattle.ln_algebra.specs.Vector.{total_degree, zeros};
ghost use Rattle.ln_algebra.specs.Weights.{weighted_sum};
ghost use Rattle.ln_tree.specs.Exps.{IsAbove, vector};
ghost use Rattle.ln_bound.specs.Light.{most};
ghost use Rattle.ln_bound.specs.Value.{weights};
ghost use Rattle.ln_order.specs.Sites.{site_of};
ghost use Rattle.ln_poly.specs.Derivative.{covering};
ghost use Rattle.ln_poly.specs.Sparse.{AreBelow, IsPoly, terms_of};
ghost use Rattle.ln_due.specs.Blocks.{AreBlocksOf};
ghost use Rattle.ln_due.specs.Derivative.{IsDerivativeBlock};

use ln_base::{NoMemory, Seq};
use ln_code::Block;
use ln_poly::Poly;
use ln_tree::{Exps, Shape};
use std::alloc::Global;

/// Makes the block of one stage. Contracts see what else holds of each block that it makes.
pub trait BlockMaker {
    ghost use Rattle.std.specs.Prelude.{List};
    ghost use Rattle.ln_tree.specs.declared.shape.VarInfo.{VarInfo};
    ghost use Rattle.ln_poly.specs.Sparse.{Sparse};
    ghost use Rattle.ln_code.specs.Part.{Code};

    ghost makes: { List VarInfo → Sparse → Code → Type 0 };

    /// Makes the block of the scaled derivative of f by these exponents. The one error is that memory runs out.
    fn block(&self, alloc: Global, f: &Poly, s: &Shape, a: &Exps) -> Result<Block, NoMemory>
        requires form { IsPoly f.now }
        requires below { AreBelow (length s.now.vars) f.now }
        requires weight { weighted_sum (weights s.now.vars) (terms_of (length s.now.vars) f.now) ≤ most }
        requires degrees { All (λ t. total_degree (vector (length s.now.vars) t.0) ≤ 126) f.now }
        requires terms { length f.now ≤ 1024 }
        requires exps { IsAbove a.now (length s.now.vars) }
        requires sites { (v : ℕ) → site_of s.now.vars v ≡ None → slice_index (vector (length s.now.vars) a.now) v ≡ 0 }
        ensures exps { IfOk result (λ b. b.exps ≡ a.now) }
        ensures block { IfOk result (IsDerivativeBlock s.now.vars f.now) }
        ensures made { IfOk result (makes s.now.vars f.now) }
        ensures few { IfOk result (λ b. length b.ops ≤ 4096 * covering (length s.now.vars) f.now (vector (length s.now.vars) a.now) + 68) };
}

/// Makes the blocks of these stages: this first one, which has no exponents, and after it for each other stage the block of its scaled
/// derivative of f. The one error is that memory runs out.
pub fn blocks_after<M: BlockMaker>(
    alloc: Global,
    maker: &M,
    f: &Poly,
    s: &Shape,
    first: Block,
    exps: &[Exps],
) -> Result<Seq<Block>, NoMemory>
    requires form { IsPoly f.now }
    requires below { AreBelow (length s.now.vars) f.now }
    requires weight { weighted_sum (weights s.now.vars) (terms_of (length s.now.vars) f.now) ≤ most }
    requires degrees { All (λ t. total_degree (vector (length s.now.vars) t.0) ≤ 126) f.now }
    requires terms { length f.now ≤ 1024 }
    requires plain { first.exps ≡ [] }
    requires block { IsDerivativeBlock s.now.vars f.now first }
    requires begins { (0 < length exps.now)
        × (vector (length s.now.vars) (slice_index_or exps.now 0 []) ≡ zeros (length s.now.vars)) }
    requires exps { All (λ e. IsAbove e (length s.now.vars)) exps.now }
    requires sites { All (λ e. (v : ℕ) → site_of s.now.vars v ≡ None → slice_index (vector (length s.now.vars) e) v ≡ 0) exps.now }
    ensures { IfOk result (AreBlocksOf (M.makes s.now.vars f.now) s.now.vars f.now first exps.now) }
{
    let mut blocks = Seq::new(alloc);
    blocks.push(first)?;
    'blocks: for i in 1..exps.len() {
        let block = maker.block(alloc, f, s, &exps[i])?;
        blocks.push(block)?;
    }
    Ok(blocks)
}
