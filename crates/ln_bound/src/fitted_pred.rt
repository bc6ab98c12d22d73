//! Predicates whose trees carry ranges and widths.
ghost use Rattle.std.specs.Prelude.{◌≡◌, ◌≤◌, ◌+◌, true, [], length, map};
ghost use Rattle.ln_bound.specs.Sound.{is_sound, are_sound};
ghost use Rattle.ln_bound.specs.Typed.{cost, costs};
ghost use Rattle.ln_bound.specs.View.{typed};

use crate::fitted::Fitted;
use ln_base::Seq;
use ln_tree::Shape;

/// A predicate whose lets and sign expression are sound: on every row in range each node's value is between its two ends
/// and fits its width. `Let(j)` in a tree is let number j, an earlier one.
#[derive(Drop)]
pub struct FittedPred {
    pub shape: Shape,
    pub lets: Seq<Fitted>,
    pub root: Fitted,
    ghost few: { length lets ≤ 64 },
    ghost sound_lets: { are_sound shape.vars [] (map typed lets) ≡ true },
    ghost sound_root: { is_sound shape.vars (map typed lets) (typed root) ≡ true },
    ghost cheap: { costs (map typed lets) + cost (typed root) ≤ 131072 },
}
