//! What the types of predicates promise.
ghost use Rattle.std.specs.Prelude.{◌≡◌, ◌↔◌, ◌+◌, ℕ};
ghost use Rattle.std.specs.declared.cmp.Ordering.TheVariants.{Less};
ghost use Rattle.ln_tree.specs.Exps.{IsBefore, IsRising, Pairs, exponent, pairs_cmp};
ghost use Rattle.ln_tree.specs.Laid.{VariablesAreOfArguments};

/// Variables are laid out exactly where they are those of arguments: for a site its coordinates in declared order, for a param the
/// param itself, one argument after the other. Sites and arguments count upwards; there are at most 5 sites of at most 32
/// coordinates and at most 8 params.
///
/// On it rests that "laid out" can be read in its plain meaning, without the test that the types keep.
pub fn variables_are_of_arguments()
    ensures { VariablesAreOfArguments }
{}

/// Exponents are in the lexicographic order of monomials: of two, the one comes first that has the smaller exponent at the first variable in
/// which they differ, where a variable that isn't listed has exponent 0. Their products with a third are in the same order.
pub fn order_is_lexicographic()
    ensures first { (a b : Pairs) → IsRising a → IsRising b → (pairs_cmp a b ≡ Less) ↔ IsBefore a b }
    ensures products { (a b m x y : Pairs) → IsRising a → IsRising b → IsRising x → IsRising y →
        ((v : ℕ) → exponent v x ≡ exponent v m + exponent v a) → ((v : ℕ) → exponent v y ≡ exponent v m + exponent v b) →
        pairs_cmp a b ≡ Less → pairs_cmp x y ≡ Less }
{}
