//! Steps on lists of terms.
ghost use Rattle.std.specs.Prelude.{◌≡◌, ℕ, List, [], ◌∷◌, ◌++◌, ◌+◌, ◌-◌, ◌<◌, ◌≤◌, ◌^◌};
ghost use Rattle.std.specs.Prelude.{OnOk, unsigned_abs, length, slice_index_or};
ghost use Rattle.ln_poly.specs.Sparse.{AreBelow, AreRising, AreSorted, IsPoly, Sparse, coefficient_at, size_of};
ghost use Rattle.ln_poly.specs.Sums.{Spreads};

use crate::poly::Poly;
use ln_base::{NoMemory, Seq};
use ln_tree::Exps;

// Adds the factor of a term to the one at a place, which has the same exponents.
pub(crate) fn add_at(out: &mut Vec<(Exps, i128)>, at: usize, t: &(Exps, i128))
    requires in_bounds { at < length out.old.items }
    requires same { (slice_index_or out.old.items at t.now).0 ≡ t.now.0 }
    requires room { size_of out.old.items + unsigned_abs t.now.1 < 2 ^ 127 }
    ensures { (more : Sparse) → Spreads out.new.items more out.old.items more t.now }
{
    out[at].1 += t.1;
}

// Appends a term.
pub(crate) fn push(out: &mut Vec<(Exps, i128)>, t: &(Exps, i128)) -> Result<(), NoMemory>
    ensures { OnOk result (out.new.items ≡ out.old.items ++ t.now ∷ []) }
{
    let alloc = *out.allocator();
    out.push((t.0.copy(alloc)?, t.1))?;
    Ok(())
}

// The polynomial of terms in order: zeros are left out. It allocates nothing.
pub(crate) fn nonzero(terms: Vec<(Exps, i128)>) -> Poly
    requires small { size_of terms.items < 2 ^ 127 }
    requires rising { AreRising terms.items }
    requires sorted { AreSorted terms.items }
    ensures coefficients { (n : ℕ) (m : List ℕ) → coefficient_at n result m ≡ coefficient_at n terms.items m }
    ensures size { size_of result ≤ size_of terms.items }
    ensures form { IsPoly result }
    ensures below { (n : ℕ) → AreBelow n terms.items → AreBelow n result }
{
    let mut out = terms;
    out.retain(|t| t.1 != 0);
    Poly::seal(Seq::from_vec(out))
}
