//! Laws of ranges and loads.
ghost use Rattle.std.specs.Prelude.{◌≡◌, ◌-◌, ℕ, ℤ, List, [], map, true, length, slice_index_or};
ghost use Rattle.ln_algebra.specs.Tree.{Tree, inlined, inlined_after};
ghost use Rattle.ln_interval.specs.Range.{Range, Holds};
ghost use Rattle.ln_tree.specs.Fits.{is_fit, lets_fit};
ghost use Rattle.ln_tree.specs.Formula.{Formula, tree};
ghost use Rattle.ln_tree.specs.Row.{AreWithin};
ghost use Rattle.ln_tree.specs.declared.shape.VarInfo.{VarInfo as Info};
ghost use Rattle.ln_bound.specs.Light.{AreLight, LetsFit, ValuesFit, let_values, weighed_pred};
ghost use Rattle.ln_bound.specs.Loads.{loaded_pred, measure_of_whole, measured_pred, node_measures};
ghost use Rattle.ln_bound.specs.Room.{let_bounds};
ghost use Rattle.ln_bound.specs.Ranges.{AreHeld, LetsAreHeld, let_ranges, range_over, ranges};
ghost use Rattle.ln_bound.specs.Value.{value, values, weight_over};

/// On every row in range the value of each node of lets, and of an expression after them, is in its range. Lets may be substituted for their
/// names.
pub fn values_are_in_ranges()
    ensures lets { (vars : List Info) (zs : List ℤ) (es : List Tree) → AreWithin vars zs → LetsAreHeld (values zs) [] (ranges vars) [] es }
    ensures tree { (vars : List Info) (zs : List ℤ) (es : List Tree) (e : Tree) → AreWithin vars zs →
        AreHeld (values zs) (let_values (values zs) [] es) (ranges vars) (let_ranges (ranges vars) [] es) e }
    ensures inlined { (r : ℕ → Range) (ts : List Tree) (e : Tree) →
        range_over r [] (inlined ts e) ≡ range_over r (map (range_over r []) ts) e }
    ensures fit { (vars : List Info) (x : ℕ → ℤ) (lets : List Formula) (root : Formula) →
        ((v : ℕ) → Holds (ranges vars v) (x v)) → AreLight (loaded_pred vars lets root) → LetsFit x [] (map (tree vars) lets)
        × ValuesFit x (let_values x [] (map (tree vars) lets)) (tree vars root) }
    ensures in_range { (vars : List Info) (zs : List ℤ) → AreWithin vars zs → (v : ℕ) → Holds (ranges vars v) (values zs v) }
{}

/// Where no node's weight is too large, no range and no size of a node exceeds the limit: what is accepted by weight is accepted by ranges and
/// sizes.
pub fn light_nodes_stay_light()
    ensures { (vars : List Info) (k : ℕ) (lets : List Formula) (root : Formula) →
        lets_fit (length vars) 0 (map (tree vars) lets) ≡ true → is_fit (length vars) k (tree vars root) ≡ true →
        AreLight (weighed_pred vars lets root) → AreLight (loaded_pred vars lets root) }
{}

/// The measures of a predicate's root after its lets are those of the root with the lets substituted for their names: the weight, whatever each
/// variable weighs, the value, the range, and the size. The last node that is measured is the root.
pub fn roots_measure_the_whole()
    ensures value { (x : ℕ → ℤ) (lets : List Tree) (root : Tree) →
        value x (let_values x [] lets) root ≡ value x [] (inlined (inlined_after [] lets) root) }
    ensures weight { (w : ℕ → ℕ) (lets : List Tree) (root : Tree) →
        weight_over w (let_bounds w [] lets) root ≡ weight_over w [] (inlined (inlined_after [] lets) root) }
    ensures range { (r : ℕ → Range) (lets : List Tree) (root : Tree) →
        range_over r (let_ranges r [] lets) root ≡ range_over r [] (inlined (inlined_after [] lets) root) }
    ensures last { (vars : List Info) (lets : List Formula) (root : Formula) (d : Range × ℕ) →
        slice_index_or (node_measures (measured_pred vars lets root))
        (length (node_measures (measured_pred vars lets root)) - 1) d ≡ measure_of_whole vars lets root }
{}
