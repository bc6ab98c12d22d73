//! The rule of an `at` line.
ghost use Rattle.std.specs.Prelude.{◌≡◌, ◌↔◌, ◌<◌, ◌≤◌, ℕ, List, All, IsTrue, length, map};
ghost use Rattle.ln_algebra.specs.Earlier.{IndicesDiffer, IsOver};
ghost use Rattle.ln_algebra.specs.Terms.{IsNormalOf};
ghost use Rattle.ln_algebra.specs.Tree.{InputsBelow, Tree};
ghost use Rattle.ln_algebra.specs.Weights.{weighted_sum};
ghost use Rattle.ln_bound.specs.Light.{most};
ghost use Rattle.ln_bound.specs.Value.{weights};
ghost use Rattle.ln_tree.specs.Exps.{IsAbove, vector};
ghost use Rattle.ln_tree.specs.Row.{AreWithin, InRange, Row, values};
ghost use Rattle.ln_order.specs.Order.{IsOrder};
ghost use Rattle.ln_order.specs.Places.{order_places};
ghost use Rattle.ln_order.specs.Sites.{row_sites, sites_of};
ghost use Rattle.ln_poly.specs.Sparse.{AreBelow, terms_of};
ghost use Rattle.ln_stage.specs.Staged.{segment_of};
ghost use Rattle.ln_trace.specs.Told.{IsNext, Stood};
ghost use Rattle.ln_trace.specs.ToldLaw.{IsLeft};
ghost use Rattle.ln_trace.specs.Left.{IsSpot, left_at};
ghost use Rattle.ln_trace.specs.Next.{IsLastOf};

use crate::grounds::Grounds;
use crate::next::may_be_next;
use crate::progress::Progress;
use ln_poly::value_at;
use ln_tree::Exps;

/// May a with the value z stand next in the row with these values, by the rule of an `at` line? Allocates nothing.
pub fn is_next_at(grounds: &Grounds, state: &Progress, a: &Exps, z: i128, row: &[i64]) -> bool
    requires sites { length (order_places state.now.order) ≡ grounds.now.pred.now.shape.sites }
    requires order { length (order_places state.now.order) ≡ grounds.now.stages.now.sites }
    requires spot { IsSpot grounds.now.stages.now (order_places state.now.order) state.now.spot }
    requires numbers { (q : List ℕ) → All (λ i. i < length grounds.now.stages.now.exps) (segment_of grounds.now.stages.now q) }
    requires above { IsAbove a.now (length grounds.now.pred.now.shape.vars) }
    requires below { AreBelow (length grounds.now.pred.now.shape.vars) grounds.now.poly.now }
    requires light { weighted_sum (weights grounds.now.pred.now.shape.vars) (terms_of (length grounds.now.pred.now.shape.vars) grounds.now.poly.now) ≤ most }
    requires row { AreWithin grounds.now.pred.now.shape.vars row.now }
    ensures { (e : Tree) (stood : Stood) (r : Row) → r.values ≡ row.now → InRange grounds.now.pred.now.shape.sites grounds.now.pred.now.shape.vars r →
        IsOrder r.index (order_places state.now.order) → IndicesDiffer (sites_of grounds.now.pred.now.shape.vars (order_places state.now.order)) →
        InputsBelow (length grounds.now.pred.now.shape.vars) e →
        IsNormalOf (length grounds.now.pred.now.shape.vars) e (terms_of (length grounds.now.pred.now.shape.vars) grounds.now.poly.now) →
        IsOver (length grounds.now.pred.now.shape.vars) (row_sites grounds.now.pred.now.shape.vars r.index)
        (vector (length grounds.now.pred.now.shape.vars) a.now) →
        IsLastOf (length grounds.now.pred.now.shape.vars) state.now.last.exps state.now.last.zero stood →
        IsLeft (length grounds.now.pred.now.shape.vars) (sites_of grounds.now.pred.now.shape.vars (order_places state.now.order)) e stood
        (map (vector (length grounds.now.pred.now.shape.vars)) (left_at grounds.now.stages.now (order_places state.now.order) state.now.spot)) →
        IsTrue result ↔ IsNext (length grounds.now.pred.now.shape.vars) (row_sites grounds.now.pred.now.shape.vars r.index) (values row.now) e stood
        (vector (length grounds.now.pred.now.shape.vars) a.now) z }
{
    let s = &grounds.pred.shape;
    if !may_be_next(grounds.stages, &state.order, s, &state.last, state.spot, a) {
        return false;
    }
    let value = value_at(grounds.binomials, grounds.poly, s, a.pairs(), row);
    if value != z {
        return false;
    }
    true
}
