//! States that the value of an expression is its coefficient at the vector of zeros, and that lets may be substituted for their names.
ghost use Rattle.std.specs.Prelude.{◌≡◌, ℕ, ℤ, Bool, true, [], List, map};
ghost use Rattle.ln_algebra.specs.Vector.{is_zero};
ghost use Rattle.ln_algebra.specs.Tree.{Tree, inlined};
ghost use Rattle.ln_algebra.specs.Coefficient.{coefficient};
ghost use Rattle.ln_bound.specs.Value.{value};

/// The value of an expression is its coefficient at the vector of zeros, whatever is perturbed. Lets may be substituted for their names.
pub fn values_are_coefficients()
    ensures plain { (p : ℕ → Bool) (x : ℕ → ℤ) (e : Tree) (a : List ℕ) → is_zero a ≡ true → coefficient p x e a ≡ value x [] e }
    ensures lets { (x : ℕ → ℤ) (ts : List Tree) (e : Tree) → value x [] (inlined ts e) ≡ value x (map (value x []) ts) e }
{}
