//! What lean polynomials are, and how far nested forms reach.
ghost use Rattle.std.specs.Prelude.{ℕ, ◌≡◌, ◌≤◌, List, [], length};
ghost use Rattle.ln_algebra.specs.Sizes.{one};
ghost use Rattle.ln_algebra.specs.Terms.{IsCollected, IsNormalOf, Term};
ghost use Rattle.ln_algebra.specs.Tree.{Tree};
ghost use Rattle.ln_algebra.specs.Weights.{weighted_sum};
ghost use Rattle.ln_interval.specs.Range.{IsOrdered, Range, magnitude, most};
ghost use Rattle.ln_tree.specs.declared.shape.VarInfo.{VarInfo as Info};
ghost use Rattle.ln_bound.specs.Exact.{AreWithinPairs, IsExact};
ghost use Rattle.ln_bound.specs.Sound.{Sound};
ghost use Rattle.ln_bound.specs.Typed.{Typed, need, untyped};
ghost use Rattle.ln_bound.specs.Ranges.{ranges as declared_ranges};
ghost use Rattle.ln_bound.specs.UpTo.{AreUpTo};
ghost use Rattle.ln_nest.specs.Lean.{AreUnder, HasNoZero, IsLean};
ghost use Rattle.ln_nest.specs.Nested.{nested};
ghost use Rattle.ln_nest.specs.Reach.{reaches, weighs};
ghost use Rattle.ln_nest.specs.View.{scale};

/// The normal polynomial of a lean tree, with like terms collected and without zeros, has no more terms than the limit, and
/// no larger exponents.
pub fn lean_polynomials_are_short()
    ensures count { (n count : ℕ) (top : ℕ → ℕ) (e : Tree) (f : List Term) → IsLean n count top e → IsNormalOf n e f →
        IsCollected f → HasNoZero f → length f ≤ count }
    ensures exponents { (n count : ℕ) (top : ℕ → ℕ) (e : Tree) (f : List Term) → IsLean n count top e → IsNormalOf n e f →
        IsCollected f → HasNoZero f → AreUnder top f }
{}

/// No node of a tree by powers of each variable weighs more than its terms, whatever weights of at least 1. So its ranges are within
/// `-W .. W`, W being the M-weighted sum of the terms, and its running sizes are at most W.
pub fn nested_forms_stay_within()
    ensures weights { (w : ℕ → ℕ) → ((v : ℕ) → 1 ≤ w v) → (d k v : ℕ) (f : List Term) → HasNoZero f →
        AreUpTo (weighs w) (weighted_sum w f) (nested d k v f) }
    ensures ranges { (r : ℕ → Range) (m : ℕ → ℕ) → ((v : ℕ) → 1 ≤ m v) → ((v : ℕ) → magnitude (r v) ≤ m v) →
        (d k v : ℕ) (f : List Term) → HasNoZero f → AreUpTo (reaches r) (weighted_sum m f) (nested d k v f) }
    ensures sound { (vars : List Info) (d : ℕ) (f : List Term) (t : Typed) → ((v : ℕ) → IsOrdered (declared_ranges vars v)) →
        HasNoZero f → weighted_sum (scale vars) f ≤ most → untyped t ≡ nested d (length vars) 0 f → IsExact vars [] t →
        need t ≤ 2048 → Sound vars [] t × AreWithinPairs (weighted_sum (scale vars) f) t }
    ensures sizes { (m : ℕ → ℕ) → ((v : ℕ) → 1 ≤ m v) → (d k v : ℕ) (f : List Term) → HasNoZero f →
        AreUpTo (weighs one) (weighted_sum m f) (nested d k v f) }
{}
