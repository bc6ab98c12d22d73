//! Limits of values in a block: a range and a width.
ghost use Rattle.std.specs.Prelude.{◌≡◌, ◌↔◌, ℕ, IsTrue};
ghost use Rattle.ln_algebra.specs.Tree.{Tree};
ghost use Rattle.ln_interval.specs.Range.{Covers, Range};
ghost use Rattle.ln_interval.specs.View.{range};
ghost use Rattle.ln_bound.specs.Widths.{no_wider};
ghost use Rattle.ln_code.specs.Rules.{known};
ghost use Rattle.ln_verify.specs.BlockRules.{balanced};
ghost use Rattle.ln_verify.specs.Rules.{AreEnds, IsRule, in_range};

use crate::allowed::{covers_input, covers_number, is_allowed, is_covered, joined_pair};
use crate::limits::Limits;
use crate::stacks::Stack;
use crate::value::Value;
use crate::version::Version;
use ln_bound::{Two, Width};
use ln_interval::Pair;
use ln_interval::pair::MOST;
use ln_tree::VarInfo;

/// The range and the width of a value in a block.
#[derive(Clone, Copy)]
pub struct Ranged {
    pub pair: Pair,
    pub width: Width,
}

/// The stack and the locals of a block.
pub type BlockStack = Stack<Value<Ranged>>;

// This range and width, where the range covers what it has to, which is known, and fits the width.
fn ruled(covers: bool, b: Pair, width: Width) -> Option<Ranged>
    ensures { (r : Range) (t : Tree) (s : ℕ) → IsTrue covers ↔ Covers (range b) r → IsRule in_range result t s (known r (range b) width s t) }
{
    if !is_allowed(covers, b, width) {
        return None;
    }
    Some(Ranged { pair: b, width })
}

// Is the first no wider than the second?
fn no_wider(a: Width, w: Width) -> bool
    ensures { result ≡ no_wider a w }
{
    match a {
        Width::W64 => true,
        Width::W128 => matches!(w, Width::W128),
    }
}

impl Limits for Ranged {
    /// The two ends on a line; none where they are those of no pair.
    type Said = Option<Pair>;

    ghost use Rattle.std.specs.Prelude.{refl};
    ghost use Rattle.ln_code.specs.Rules.{Known};
    ghost use Rattle.ln_verify.specs.BlockRules.{block_rules};
    ghost use Rattle.ln_verify.specs.Line.{tree_of};
    ghost use Rattle.ln_verify.specs.Rules.{blocks_have_stack, no_variable};

    ghost Bound = { Range };

    ghost Known = { Known };

    ghost known = { in_range };

    ghost tree = { tree_of };

    ghost rules = { block_rules };

    ghost tells = { AreEnds };

    fn of_number(c: i128, ends: Option<Pair>) -> Option<Ranged> {
        let Some(b) = ends else {
            return None;
        };
        ruled(covers_number(b, c), b, Width::least(b.magnitude()))
    }

    fn of_input(version: Version, i: VarInfo, ends: Option<Pair>) -> Option<Ranged> {
        let Some(b) = ends else {
            return None;
        };
        ruled(covers_input(version, i, b), b, Width::least(b.magnitude()))
    }

    fn of_local(x: Ranged, ends: Option<Pair>) -> Option<Ranged> {
        let Some(b) = ends else {
            return None;
        };
        ruled(
            b.covers(x.pair),
            b,
            x.width.wider(Width::least(b.magnitude())),
        )
    }

    fn of_two(t: Two, w: Width, ends: Option<Pair>, x: Ranged, y: Ranged) -> Option<Ranged> {
        let Some(b) = ends else {
            return None;
        };
        if !no_wider(x.width, w) {
            return None;
        }
        if !no_wider(y.width, w) {
            return None;
        }
        ruled(is_covered(b, joined_pair(t, x.pair, y.pair)), b, w)
    }

    fn of_minus(w: Width, ends: Option<Pair>, x: Ranged) -> Option<Ranged> {
        let Some(b) = ends else {
            return None;
        };
        if !no_wider(x.width, w) {
            return None;
        }
        ruled(b.covers(x.pair.neg()), b, w)
    }

    /// None: only filters cut.
    fn of_cut(_n: u8, _ends: Option<Pair>, _x: Ranged) -> Option<Ranged> {
        None
    }

    ghost tree_known = { λ x t n. refl };

    ghost missing = { no_variable };

    ghost stacked = { blocks_have_stack };
}

/// The pair of a bound, if it fits.
pub fn pair_of_bound(b: u128) -> Option<Pair>
    ensures { AreEnds result (balanced b) }
{
    if b > MOST {
        return None;
    }
    let high = b as i128;
    Pair::new(-high, high)
}

/// The two ends that a line says, which may be those of no pair.
#[derive(Clone, Copy)]
pub struct Ends {
    pub low: i128,
    pub high: i128,
}

/// The pair of two ends, if they are those of one.
pub fn pair_of_ends(ends: Ends) -> Option<Pair>
    ensures { AreEnds result (record { low = ends.low; high = ends.high }) }
{
    Pair::new(ends.low, ends.high)
}
