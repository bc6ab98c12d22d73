//! An accepted predicate, with what its part is judged by.
ghost use Rattle.std.specs.Prelude.{◌≡◌, IfOk, length};
ghost use Rattle.ln_tree.specs.Table.{pred_of};
ghost use Rattle.ln_poly.specs.Expansion.{IsNormal};
ghost use Rattle.ln_poly.specs.OfPred.{root_of};
ghost use Rattle.ln_verify.specs.Here.{IsCase};

use crate::case::Case;
use ln_base::NoMemory;
use ln_order::all_orders;
use ln_stage::Accepted;
use std::alloc::Global;

/// An accepted predicate, with what its part is judged by.
pub fn case_of<'a>(alloc: Global, a: &Accepted<'a>) -> Result<Case<'a>, NoMemory>
    ensures shape { IfOk result (λ c. c.shape.now ≡ a.now.pred.shape) }
    ensures normal { IfOk result (λ c. IsNormal (length a.now.pred.shape.vars) (root_of (pred_of a.now.pred)) c.poly.now) }
    ensures case { IfOk result IsCase }
{
    let p = a.pred();
    let orders = all_orders(alloc, p.shape.sites)?;
    Ok(Case {
        shape: &p.shape,
        poly: a.poly(),
        stages: a.stages(),
        orders,
    })
}
