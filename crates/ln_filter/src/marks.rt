//! Tells how the code of filters is written: each operation carries the triple of its node, and is divided where that is too large.
ghost use Rattle.std.specs.Prelude.{◌≡◌, ◌+◌, ◌^◌, ◌<◌, ◌≤◌};
ghost use Rattle.ln_bound.specs.Typed.{untyped};
ghost use Rattle.ln_code.specs.Kept.{no_triple};
ghost use Rattle.ln_code.specs.declared.op.Triple.{Triple as Told};
ghost use Rattle.ln_filter.specs.Style.{MayWrite, align_fits, filter_style, operands_steady, power_left};
ghost use Rattle.ln_filter.specs.Triples.{excess};
ghost use Rattle.ln_filter.specs.Tried.{of_raw};

use crate::arithmetic::{Raw, cut, excess, joined, product, size_at, tried, whole};
use ln_bound::{Fitted, Two, Width};
use ln_code::{Marks, Triple};
use ln_tree::VarInfo;

/// Where a tree is written: its variables, and the triples of the lets before it.
#[derive(Drop)]
pub(crate) struct Scope<'a> {
    pub(crate) vars: &'a [VarInfo],
    pub(crate) lets: &'a [Triple],
}

/// The triple of what stores into a local.
pub(crate) fn no_triple() -> Triple
    ensures { result ≡ no_triple }
{
    Triple { k: 0, h: 0, e: 0 }
}

// The triple of what is then divided.
fn undivided(r: Raw) -> Triple
    requires size { r.h < 2 ^ 64 }
    requires divides { r.k + excess r.h ≤ 255 }
    ensures value { result ≡ of_raw r }
    ensures divides { result.k + excess result.h ≤ 255 }
{
    Triple {
        k: r.k as u8,
        h: r.h as u64,
        e: r.e,
    }
}

impl<'a> Marks for Scope<'a> {
    ghost use Rattle.std.proofs.Common.{refl};

    type Bound = Triple;

    ghost Told = { Told };

    ghost told = { λ a. a };

    ghost style = { λ s. filter_style s.vars.now s.lets.now };

    ghost good = { λ s t. MayWrite s.vars.now s.lets.now (untyped t) };

    ghost is_number = { λ s k t. Unit {0} };

    ghost shares = { λ s. ⊥ };

    ghost divides = { λ a n. a.k + n ≤ 255 };

    fn none(&self) -> Triple {
        no_triple()
    }

    fn width(&self, _w: Width) -> Width {
        Width::W64
    }

    #[tactic(auto, using(crate::proofs::Truncation::Steady::steady_tried))]
    fn mark(&self, t: &Fitted) -> Triple {
        match tried(self.vars, self.lets, t) {
            Some(a) => a,
            None => no_triple(),
        }
    }

    fn left(&self, _t: &Fitted, b: Triple) -> Triple {
        b
    }

    fn input(&self, _t: &Fitted, v: u8) -> Triple {
        undivided(whole(u128::from(size_at(self.vars, v))))
    }

    fn two(&self, t: &Fitted, _x: &Fitted, _y: &Fitted, a: Triple, b: Triple) -> Triple {
        undivided(joined(t.operation(), a, b))
    }

    fn factor(&self, _x: &Fitted, _w: Width, _m: u8, p: Triple, a: Triple) -> Triple {
        undivided(product(p, a))
    }

    fn excess(&self, b: Triple) -> u8 {
        excess(u128::from(b.h)) as u8
    }

    fn align(&self, o: Two, a: Triple, b: Triple) -> u8 {
        match o {
            Two::Plus | Two::Minus => b.k.saturating_sub(a.k),
            Two::Times => 0,
        }
    }

    fn divided(&self, n: u8, b: Triple) -> Triple {
        cut(u32::from(n), b)
    }

    fn operand(&self, k: usize) -> usize {
        k
    }

    fn right(&self, k: usize) -> usize {
        k
    }

    fn is_shared(&self, _k: usize) -> bool {
        false
    }

    ghost opposite = { λ s t p w g. record { lets_small = g.lets_small; small = g.small; steady = g.steady } };

    ghost operands = { λ s o t u p w g. let k = operands_steady s.vars.now s.lets.now o (untyped t) (untyped u) g.steady in (
      record { lets_small = g.lets_small; small = g.small; steady = k.0 },
      record { lets_small = g.lets_small; small = g.small; steady = k.1 },
    ) };

    ghost base = { λ s t n p w g. record { lets_small = g.lets_small; small = g.small; steady = g.steady.0 } };

    ghost aligns = { λ s o t u g h. align_fits o _ _ (g.small (untyped t) g.steady).power (h.small (untyped u) h.steady).power };

    ghost powers = { λ s t n w h. power_left _ n h };

    ghost first = { λ s t n p w g. refl };
}
