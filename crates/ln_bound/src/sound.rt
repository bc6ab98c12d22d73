//! What sound trees over ranges promise, and that exact trees are sound.
ghost use Rattle.std.specs.Prelude.{◌≡◌, true, ℕ, ℤ, [], List, Some, length, map, slice_get};
ghost use Rattle.ln_algebra.specs.Tree.{InputsBelow};
ghost use Rattle.ln_interval.specs.Range.{IsOrdered};
ghost use Rattle.ln_tree.specs.Row.{AreWithin};
ghost use Rattle.ln_tree.specs.declared.shape.VarInfo.{VarInfo as Info};
ghost use Rattle.ln_bound.specs.Value.{values};
ghost use Rattle.ln_bound.specs.Light.{let_values};
ghost use Rattle.ln_bound.specs.Ranges.{HaveRange, range_over, ranges};
ghost use Rattle.ln_bound.specs.Exact.{IsExact};
ghost use Rattle.ln_bound.specs.Typed.{Typed, pair, untyped};
ghost use Rattle.ln_bound.specs.Sound.{Sound, AreSound, SoundNodes, is_sound, are_sound, IsBounded, AreBounded};

/// On every row in range the value of each node of a sound tree is in its range and fits its width, in sound lets and after them. So the tests
/// of soundness do test soundness.
pub fn sound_trees_hold_their_values()
    ensures lets { (vars : List Info) (zs : List ℤ) (lets : List Typed) → AreWithin vars zs → AreSound vars [] lets →
        AreBounded (values zs) [] lets }
    ensures tree { (vars : List Info) (zs : List ℤ) (lets : List Typed) (t : Typed) → AreWithin vars zs → AreSound vars [] lets →
        Sound vars lets t → IsBounded (values zs) (let_values (values zs) [] (map untyped lets)) t }
    ensures test { (vars : List Info) (lets : List Typed) (t : Typed) → is_sound vars lets t ≡ true → Sound vars lets t }
    ensures test_of_lets { (vars : List Info) (done : List Typed) (lets : List Typed) → are_sound vars done lets ≡ true →
        AreSound vars done lets }
    ensures tested { (vars : List Info) (lets : List Typed) (t : Typed) → Sound vars lets t → is_sound vars lets t ≡ true }
    ensures tested_lets { (vars : List Info) (done : List Typed) (lets : List Typed) → AreSound vars done lets →
        are_sound vars done lets ≡ true }
{}

/// An exact tree has the range of its expression at each node, and is sound where the range of each node is within
/// `2^127 - 1`.
pub fn exact_trees_are_sound()
    ensures range { (vars : List Info) (lets : List Typed) (t : Typed) → IsExact vars lets t →
        pair t ≡ range_over (ranges vars) (map pair lets) (untyped t) }
    ensures nodes { (vars : List Info) (lets : List Typed) → ((v : ℕ) → IsOrdered (ranges vars v)) →
        ((j : ℕ) (u : Typed) → slice_get lets j ≡ Some u → IsOrdered (pair u)) → (t : Typed) →
        InputsBelow (length vars) (untyped t) → IsExact vars lets t → HaveRange vars (map pair lets) (untyped t) →
        SoundNodes vars lets t }
{}
