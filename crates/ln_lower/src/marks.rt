//! Tells how the code of blocks is written: each operation carries the pair of its node, and nothing is divided.
ghost use Rattle.std.specs.Prelude.{◌≡◌, ◌≤◌};
ghost use Rattle.ln_interval.specs.Range.{Range, magnitude, most, product};
ghost use Rattle.ln_interval.specs.View.{range};
ghost use Rattle.ln_code.specs.Kept.{nothing};
ghost use Rattle.ln_lower.specs.Lowered.{PowersFit};
ghost use Rattle.ln_lower.specs.StackCode.{block_style};
ghost use Rattle.ln_lower.specs.Distinct.{IsNumberOf};

use crate::distinct::Distinct;
use ln_bound::{Fitted, Two, Width};
use ln_code::Marks;
use ln_interval::Pair;

/// The pair of what stores into a local.
pub(crate) fn nothing() -> Pair
    ensures { range result ≡ nothing }
{
    Pair { low: 0, high: 0 }
}

// The pair of the product of two, where it is within the limit.
fn product_of(p: Pair, q: Pair) -> Pair
    requires { magnitude (product (range p) (range q)) ≤ most }
    ensures { range result ≡ product (range p) (range q) }
{
    p.mul(q).unwrap()
}

impl Marks for Distinct {
    ghost use Rattle.std.proofs.Common.{refl};

    type Bound = Pair;

    ghost Told = { Range };

    ghost told = { range };

    ghost style = { λ d. block_style };

    ghost good = { λ d t. PowersFit t };

    ghost is_number = { λ d k t. IsNumberOf d.keys k t };

    ghost shares = { λ d. Unit {0} };

    ghost divides = { λ p n. Unit {0} };

    fn none(&self) -> Pair {
        nothing()
    }

    fn width(&self, w: Width) -> Width {
        w
    }

    #[tactic(auto, using(ln_bound::proofs::Trees::Views::pair_typed))]
    fn mark(&self, t: &Fitted) -> Pair {
        t.pair
    }

    #[tactic(auto, using(ln_bound::proofs::Trees::Views::pair_typed))]
    fn left(&self, t: &Fitted, _b: Pair) -> Pair {
        t.pair
    }

    #[tactic(auto, using(ln_bound::proofs::Trees::Views::pair_typed))]
    fn input(&self, t: &Fitted, _v: u8) -> Pair {
        t.pair
    }

    #[tactic(auto, using(ln_bound::proofs::Trees::Views::pair_typed))]
    fn two(&self, t: &Fitted, _x: &Fitted, _y: &Fitted, _a: Pair, _b: Pair) -> Pair {
        t.pair
    }

    fn factor(&self, _x: &Fitted, _w: Width, _m: u8, p: Pair, a: Pair) -> Pair {
        product_of(p, a)
    }

    fn excess(&self, _b: Pair) -> u8 {
        0
    }

    fn align(&self, _o: Two, _a: Pair, _b: Pair) -> u8 {
        0
    }

    fn divided(&self, _n: u8, b: Pair) -> Pair {
        b
    }

    fn operand(&self, k: usize) -> usize {
        Distinct::operand(self, k)
    }

    fn right(&self, k: usize) -> usize {
        Distinct::right(self, k)
    }

    #[tactic(auto, using(crate::proofs::Subtrees::Numbering::unique))]
    fn is_shared(&self, k: usize) -> bool {
        Distinct::is_shared(self, k)
    }

    ghost opposite = { λ d t p w h. h };

    ghost operands = { λ d o t u p w h. (h.0, h.1) };

    ghost base = { λ d t n p w h. h.0 };

    ghost aligns = { λ d o t u g h. tt };

    ghost powers = { λ d t n w h. refl };

    ghost first = { λ d t n p w h. h.2 };
}
