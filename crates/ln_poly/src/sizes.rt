//! Laws of sizes: room for the expansion, that there is a normal polynomial, and what was accepted by weight.
ghost use Rattle.std.specs.Prelude.{◌≡◌, ◌≤◌, ℕ, [], true, All, List, length, map};
ghost use Rattle.ln_algebra.specs.Sizes.{two};
ghost use Rattle.ln_algebra.specs.Tree.{Tree};
ghost use Rattle.ln_algebra.specs.Vector.{total_degree};
ghost use Rattle.ln_algebra.specs.Weights.{weighted_sum};
ghost use Rattle.ln_tree.specs.Exps.{vector};
ghost use Rattle.ln_tree.specs.Fits.{is_fit, lets_fit};
ghost use Rattle.ln_tree.specs.Formula.{Formula, tree};
ghost use Rattle.ln_tree.specs.declared.shape.VarInfo.{VarInfo as Info};
ghost use Rattle.ln_bound.specs.Light.{AreLight, most, weighed_pred};
ghost use Rattle.ln_bound.specs.Loads.{loaded_pred};
ghost use Rattle.ln_bound.specs.Value.{weights};
ghost use Rattle.ln_poly.specs.Expansion.{HasNormal, IsNormal, closed_lets, closed_root};
ghost use Rattle.ln_poly.specs.Ready.{AreLight as MayExpand, IsLight, LetsAreLight as LetsMayExpand};
ghost use Rattle.ln_poly.specs.Sparse.{Sparse, terms_of};

/// Where no range and no size of a predicate's nodes exceeds the limit, each node may be expanded in 128 bits; and where the
/// size of an expression is at most `2^127 - 1`, no degree of its normal polynomial is above 126.
pub fn sizes_make_room()
    ensures expand { (vars : List Info) (k : ℕ) (lets : List Formula) (root : Formula) →
        lets_fit (length vars) 0 (map (tree vars) lets) ≡ true → is_fit (length vars) k (tree vars root) ≡ true →
        AreLight (loaded_pred vars lets root) → LetsMayExpand (length vars) two [] (map (tree vars) lets)
        × MayExpand (length vars) two (closed_lets vars lets) (tree vars root) }
    ensures degrees { (n : ℕ) (e : Tree) (f : Sparse) → IsLight n two e → IsNormal n e f → All (λ t. total_degree (vector n t.0) ≤ 126) f }
{}

/// Where the size of an expression is at most `2^127 - 1` it has a normal polynomial, all of whose factors fit 128 bits. So has
/// the root of a predicate, with its lets substituted, where no range and no size of a node exceeds the limit.
///
/// On it rest the refusals for the weight and for the stages of a predicate, which are said of its normal polynomial: where all
/// nodes are light, there is one to say them of.
pub fn normal_polynomial_exists()
    ensures tree { (n : ℕ) (e : Tree) → IsLight n two e → HasNormal n e }
    ensures root { (vars : List Info) (k : ℕ) (lets : List Formula) (root : Formula) →
        lets_fit (length vars) 0 (map (tree vars) lets) ≡ true → is_fit (length vars) k (tree vars root) ≡ true →
        AreLight (loaded_pred vars lets root) → HasNormal (length vars) (closed_root vars lets root) }
{}

/// What is accepted by weight is accepted by ranges, sizes and the weighted sum of the normal polynomial: where no node's
/// weight is too large, no range and no size exceeds the limit, and the w-weighted sum of the root's normal polynomial doesn't.
pub fn what_was_accepted_stays_accepted()
    ensures nodes { (vars : List Info) (k : ℕ) (lets : List Formula) (root : Formula) →
        lets_fit (length vars) 0 (map (tree vars) lets) ≡ true → is_fit (length vars) k (tree vars root) ≡ true →
        AreLight (weighed_pred vars lets root) → AreLight (loaded_pred vars lets root) }
    ensures root { (vars : List Info) (k : ℕ) (lets : List Formula) (root : Formula) (f : Sparse) →
        lets_fit (length vars) 0 (map (tree vars) lets) ≡ true → is_fit (length vars) k (tree vars root) ≡ true →
        AreLight (weighed_pred vars lets root) → IsNormal (length vars) (closed_root vars lets root) f →
        weighted_sum (weights vars) (terms_of (length vars) f) ≤ most }
{}
