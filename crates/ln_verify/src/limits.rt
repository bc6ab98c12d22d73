//! What the lines of a block and those of a filter differ in: what they say of a value, and the rule that a line has to keep.
ghost use Rattle.std.specs.Prelude.{◌≡◌, ℕ, List, Option, None, Some, slice_get, unsigned_abs};
ghost use Rattle.ln_algebra.specs.Tree.{Tree, Num, Input, Neg};
ghost use Rattle.ln_tree.specs.declared.shape.VarInfo.{VarInfo as Info};
ghost use Rattle.ln_bound.specs.Typed.{bound_of, two_of};
ghost use Rattle.ln_code.specs.Engine.{Engine};
ghost use Rattle.ln_verify.specs.BlockRules.{Version as AnyVersion};
ghost use Rattle.ln_verify.specs.Rules.{HasStack, IsRule};
ghost use Rattle.ln_verify.specs.Versions.{version_of};

use crate::version::Version;
use ln_bound::{Two, Width};
use ln_tree::VarInfo;

/// The limits of a value: its range and its width in a block, its triple in a filter. Each call answers the limits of what an operation
/// makes with what its line says, where the rule of the line holds; the rule on running sizes is the same in both, and isn't tested here.
pub trait Limits: Copy {
    /// What a line says of what its operation makes.
    type Said: Copy;

    // What the rules are told by a line, and what they know of a value.
    ghost Bound: { Type 0 };

    ghost Known: { Type 0 };

    // What is known of a value with these limits, this expression and this running size; and its expression.
    ghost known: { Self → Tree → ℕ → Known };

    ghost tree: { Known → Tree };

    // The rules, and what they are told by a line that says this.
    ghost rules: { AnyVersion → List Info → Engine Bound Known (ℕ → Option Known) };

    ghost tells: { Self.Said → Bound → Type 0 };

    /// Of a number.
    fn of_number(c: i128, s: Self::Said) -> Option<Self>
        ensures { (v : AnyVersion) (vars : List Info) (b : Bound) → tells s b →
            IsRule known result (Num c) (unsigned_abs c) ((rules v vars).push c b) };

    /// Of a variable.
    fn of_input(version: Version, i: VarInfo, s: Self::Said) -> Option<Self>
        ensures { (vars : List Info) (k : ℕ) (b : Bound) → tells s b → slice_get vars k ≡ Some i →
            IsRule known result (Input k) ((version_of version).size i) ((rules (version_of version) vars).input k b) };

    /// Of a local with these limits.
    fn of_local(x: Self, s: Self::Said) -> Option<Self>
        ensures { (v : AnyVersion) (vars : List Info) (b : Bound) (t : Tree) (n : ℕ) → tells s b →
            IsRule known result t n ((rules v vars).again (known x t n) b) };

    /// Of two values with these limits.
    fn of_two(t: Two, w: Width, s: Self::Said, x: Self, y: Self) -> Option<Self>
        ensures { (v : AnyVersion) (vars : List Info) (b : Bound) (d e : Tree) (m n : ℕ) → tells s b →
            IsRule known result (two_of t d e) (bound_of t m n) ((rules v vars).two t w b (known x d m) (known y e n)) };

    /// Of minus a value with these limits.
    fn of_minus(w: Width, s: Self::Said, x: Self) -> Option<Self>
        ensures { (v : AnyVersion) (vars : List Info) (b : Bound) (t : Tree) (n : ℕ) → tells s b →
            IsRule known result (Neg t) n ((rules v vars).minus w b (known x t n)) };

    /// Of a value with these limits that is divided by 2^n.
    fn of_cut(n: u8, s: Self::Said, x: Self) -> Option<Self>
        ensures { (v : AnyVersion) (vars : List Info) (b : Bound) (t : Tree) (m : ℕ) → tells s b →
            IsRule known result t m ((rules v vars).cut n b (known x t m)) };

    // What is known of a value has its expression.
    ghost tree_known: { (x : Self) (t : Tree) (n : ℕ) → tree (known x t n) ≡ t };

    // There is nothing to be said of a variable that isn't there.
    ghost missing: { (v : AnyVersion) (vars : List Info) (k : ℕ) (b : Bound) → None ≡ slice_get vars k → (rules v vars).input k b ≡ None };

    // The stack and the locals are as in any engine.
    ghost stacked: { (v : AnyVersion) (vars : List Info) → HasStack (rules v vars) };
}
