//! The remaining members of the list of an order.
ghost use Rattle.std.specs.Prelude.{◌≡◌, ◌<◌, ◌∷◌, [], ℕ, List, All, MatchOption, length};
ghost use Rattle.ln_order.specs.Places.{order_places};
ghost use Rattle.ln_stage.specs.Staged.{segment_of};
ghost use Rattle.ln_trace.specs.Left.{IsSpot, left_at};

use ln_order::Order;
use ln_stage::Stages;
use ln_tree::Exps;

/// A place in the list of an order: after this many members of the segment of this many first sites.
#[derive(Clone, Copy)]
pub struct Spot {
    pub sites: u8,
    pub at: usize,
}

/// Returns the first remaining member of the list of an order, and the place after it. Allocates nothing.
pub fn first_left<'a>(st: &'a Stages, o: &Order, p: Spot) -> Option<(&'a Exps, Spot)>
    requires order { length (order_places o.now) ≡ st.now.sites }
    requires spot { IsSpot st.now (order_places o.now) p }
    requires numbers { (q : List ℕ) → All (λ i. i < length st.now.exps) (segment_of st.now q) }
    ensures { MatchOption result (left_at st.now (order_places o.now) p ≡ [])
        (λ x. (left_at st.now (order_places o.now) p ≡ x.0.now ∷ left_at st.now (order_places o.now) x.1)
        × IsSpot st.now (order_places o.now) x.1) }
{
    let last = o.places().len() as u8;
    let mut at = p.at;
    'segments: for j in p.sites..last + 1 {
        let segment = st.segment(o, j);
        if at < segment.len() {
            let exps = st.exps(segment[at] as usize);
            let behind = Spot {
                sites: j,
                at: at + 1,
            };
            return Some((exps, behind));
        }
        at = 0;
    }
    None
}
