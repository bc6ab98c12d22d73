//! Decides whether a vector may be the next one in a row.
ghost use Rattle.std.specs.Prelude.{◌≡◌, ◌↔◌, ◌<◌, ◌∷◌, ℕ, ℤ, List, All, IsTrue, length, map};
ghost use Rattle.ln_algebra.specs.Earlier.{IndicesDiffer, IsOver};
ghost use Rattle.ln_algebra.specs.Tree.{Tree};
ghost use Rattle.ln_tree.specs.Exps.{IsAbove, IsRising, same_pairs, vector};
ghost use Rattle.ln_order.specs.Places.{order_places};
ghost use Rattle.ln_order.specs.Sites.{sites_of};
ghost use Rattle.ln_stage.specs.Staged.{segment_of};
ghost use Rattle.ln_trace.specs.Told.{LastIsEarlier, Stood};
ghost use Rattle.ln_trace.specs.ToldLaw.{IsLeft};
ghost use Rattle.ln_trace.specs.Left.{IsSpot, left_at};
ghost use Rattle.ln_trace.specs.Next.{IsLastOf, MayBeNext};

use crate::pointer::{Spot, first_left};
use ln_order::{Order, earlier};
use ln_stage::Stages;
use ln_tree::{Exps, Shape};

/// The last vector of a row so far, if there is one, and whether its value is 0.
#[derive(Drop)]
pub struct Last {
    pub exps: Option<Exps>,
    pub zero: bool,
}

// Is a later than the last?
fn is_behind(o: &Order, s: &Shape, last: &Last, a: &Exps) -> bool
    requires { length (order_places o.now) ≡ s.now.sites }
    ensures { (stood : Stood) → IsLastOf (length s.now.vars) last.now.exps last.now.zero stood →
        IsTrue result ↔ LastIsEarlier (sites_of s.now.vars (order_places o.now)) stood (vector (length s.now.vars) a.now) }
{
    match &last.exps {
        Some(b) => earlier(o, s, b, a),
        None => true,
    }
}

/// May a be next: all values before are 0, it is later than the last, and each earlier stage came before it? Two comparisons
/// decide it. Allocates nothing.
pub fn may_be_next(st: &Stages, o: &Order, s: &Shape, last: &Last, spot: Spot, a: &Exps) -> bool
    requires sites { length (order_places o.now) ≡ s.now.sites }
    requires order { length (order_places o.now) ≡ st.now.sites }
    requires spot { IsSpot st.now (order_places o.now) spot }
    requires numbers { (q : List ℕ) → All (λ i. i < length st.now.exps) (segment_of st.now q) }
    ensures { (e : Tree) (stood : Stood) → IndicesDiffer (sites_of s.now.vars (order_places o.now)) →
        IsLastOf (length s.now.vars) last.now.exps last.now.zero stood →
        IsLeft (length s.now.vars) (sites_of s.now.vars (order_places o.now)) e stood
        (map (vector (length s.now.vars)) (left_at st.now (order_places o.now) spot)) →
        IsTrue result ↔ MayBeNext (length s.now.vars) (sites_of s.now.vars (order_places o.now)) e stood (vector (length s.now.vars) a.now) }
{
    if !last.zero {
        return false;
    }
    if !is_behind(o, s, last, a) {
        return false;
    }
    if let Some((b, _)) = first_left(st, o, spot) {
        if earlier(o, s, b, a) {
            return false;
        }
    }
    true
}

// The same exponents?
fn are_same(b: &Exps, a: &Exps) -> bool
    ensures value { result ≡ same_pairs b.now a.now }
    ensures left { IsRising b.now }
    ensures right { IsRising a.now }
{
    let left = b.pairs();
    let right = a.pairs();
    left == right
}

/// Returns where the rest begins after a, which may be next. Allocates nothing.
pub fn passed(st: &Stages, o: &Order, s: &Shape, spot: Spot, a: &Exps) -> Spot
    requires sites { length (order_places o.now) ≡ s.now.sites }
    requires order { length (order_places o.now) ≡ st.now.sites }
    requires spot { IsSpot st.now (order_places o.now) spot }
    requires numbers { (q : List ℕ) → All (λ i. i < length st.now.exps) (segment_of st.now q) }
    requires above { IsAbove a.now (length s.now.vars) }
    requires all { (p : Spot) → All (λ b. IsAbove b (length s.now.vars)) (left_at st.now (order_places o.now) p) }
    ensures spot { IsSpot st.now (order_places o.now) result }
    ensures left { (e : Tree) (stood : Stood) (z : ℤ) → IndicesDiffer (sites_of s.now.vars (order_places o.now)) →
        IsOver (length s.now.vars) (sites_of s.now.vars (order_places o.now)) (vector (length s.now.vars) a.now) →
        MayBeNext (length s.now.vars) (sites_of s.now.vars (order_places o.now)) e stood (vector (length s.now.vars) a.now) →
        IsLeft (length s.now.vars) (sites_of s.now.vars (order_places o.now)) e stood
        (map (vector (length s.now.vars)) (left_at st.now (order_places o.now) spot)) →
        IsLeft (length s.now.vars) (sites_of s.now.vars (order_places o.now)) e ((vector (length s.now.vars) a.now, z) ∷ stood)
        (map (vector (length s.now.vars)) (left_at st.now (order_places o.now) result)) }
{
    if let Some((b, behind)) = first_left(st, o, spot) {
        if are_same(b, a) {
            return behind;
        }
    }
    spot
}
