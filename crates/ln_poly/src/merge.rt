//! Terms in the order of their keys, merged.
ghost use Rattle.std.specs.Prelude.{◌≡◌, ◌+◌, ◌<◌, ◌≤◌, ◌^◌, ◌++◌, ◌+ℤ◌, IfOk, length, take, unsigned_abs};
ghost use Rattle.std.specs.Ordering.{MatchOrdering};
ghost use Rattle.ln_poly.specs.Merge.{IsMerge, weight_of};

use crate::key::Key;
use ln_base::NoMemory;
use ln_tree::Exps;
use std::alloc::Global;
use std::cmp::Ordering;
use std::mem::swap;

/// The key of a term: keys are in an order.
pub(crate) trait Ordered: Drop {
    // Is the first of two keys before the second?
    ghost IsBefore: { Self → Self → Type 0 };

    /// The order of two keys.
    fn compare(&self, other: &Self) -> Ordering
        ensures { MatchOrdering result (IsBefore self.now other.now) (self.now ≡ other.now) (IsBefore other.now self.now) };

    /// Terms of no account, as many as are wanted.
    fn blanks(alloc: Global, size: usize) -> Result<Vec<(Self, i128)>, NoMemory>
        ensures { IfOk result (λ o. length o.items ≡ size) };

    /// Passes a term on. What then stands where it was is of no account, so that no key is copied that owns memory.
    fn pass(out: &mut (Self, i128), from: &mut (Self, i128))
        ensures { out.new ≡ from.old };

    /// Passes as many terms on.
    fn pass_all(out: &mut [(Self, i128)], from: &mut [(Self, i128)])
        requires { length out.old ≡ length from.old }
        ensures passed { out.new ≡ from.old }
        ensures long { length from.new ≡ length from.old };
}

impl<const N: usize> Ordered for Key<N> {
    ghost use Rattle.ln_poly.specs.Keyed.{IsLower};

    ghost IsBefore = { IsLower };

    fn compare(&self, other: &Key<N>) -> Ordering {
        self.order(other)
    }

    fn blanks(alloc: Global, size: usize) -> Result<Vec<(Key<N>, i128)>, NoMemory> {
        let out = vec![in alloc; (Key::zero(), 0i128); size]?;
        Ok(out)
    }

    fn pass(out: &mut (Key<N>, i128), from: &mut (Key<N>, i128)) {
        *out = *from;
    }

    fn pass_all(out: &mut [(Key<N>, i128)], from: &mut [(Key<N>, i128)]) {
        out.copy_from_slice(from);
    }
}

impl Ordered for Exps {
    ghost use Rattle.ln_poly.specs.Sparse.{ComesBefore};

    ghost IsBefore = { ComesBefore };

    fn compare(&self, other: &Exps) -> Ordering {
        self.cmp(other)
    }

    fn blanks(alloc: Global, size: usize) -> Result<Vec<(Exps, i128)>, NoMemory> {
        let mut out = Vec::with_capacity(alloc, size)?;
        'terms: for _i in 0..size {
            out.push((Exps::new(alloc), 0))?;
        }
        Ok(out)
    }

    fn pass(out: &mut (Exps, i128), from: &mut (Exps, i128)) {
        swap(out, from);
    }

    fn pass_all(out: &mut [(Exps, i128)], from: &mut [(Exps, i128)]) {
        out.swap_with_slice(from);
    }
}

// The sum of the factors of two terms.
fn sum_of<K: Ordered>(s: &(K, i128), t: &(K, i128)) -> i128
    requires { unsigned_abs s.now.1 + unsigned_abs t.now.1 < 2 ^ 127 }
    ensures { result ≡ s.now.1 +ℤ t.now.1 }
{
    s.1 + t.1
}

// Writes the terms of a list from a place on.
fn put_rest<K: Ordered>(out: &mut [(K, i128)], at: usize, f: &mut [(K, i128)])
    requires { at + length f.old ≤ length out.old }
    ensures rest { take (at + length f.old) out.new ≡ take at out.old ++ f.old }
    ensures long { length out.new ≡ length out.old }
    ensures left { length f.new ≡ length f.old }
{
    let n = f.len();
    K::pass_all(&mut out[at..at + n], f);
}

// Gives a term on, with another factor.
fn pass_with<K: Ordered>(out: &mut (K, i128), from: &mut (K, i128), c: i128)
    ensures { out.new ≡ (from.old.0, c) }
{
    K::pass(out, from);
    out.1 = c;
}

/// Writes the terms of two lists in order, merged: like ones are added, zeros are left out. Returns how many there are.
pub(crate) fn merge<K: Ordered>(
    out: &mut [(K, i128)],
    f: &mut [(K, i128)],
    g: &mut [(K, i128)],
) -> usize
    requires long { length f.old + length g.old ≤ length out.old }
    requires room { weight_of f.old + weight_of g.old < 2 ^ 127 }
    ensures merge { IsMerge K.IsBefore f.old g.old (take result out.new) }
    ensures long { length out.new ≡ length out.old }
    ensures few { result ≤ length f.old + length g.old }
    ensures first { length f.new ≡ length f.old }
    ensures second { length g.new ≡ length g.old }
{
    let mut i = 0;
    let mut j = 0;
    let mut k = 0;
    'both: while i < f.len() && j < g.len() {
        match f[i].0.compare(&g[j].0) {
            Ordering::Less => {
                K::pass(&mut out[k], &mut f[i]);
                k += 1;
                i += 1;
            }
            Ordering::Greater => {
                K::pass(&mut out[k], &mut g[j]);
                k += 1;
                j += 1;
            }
            Ordering::Equal => {
                let c = sum_of(&f[i], &g[j]);
                if c != 0 {
                    pass_with(&mut out[k], &mut f[i], c);
                    k += 1;
                }
                i += 1;
                j += 1;
            }
        }
    }
    let n = f.len() - i;
    let m = g.len() - j;
    put_rest(out, k, &mut f[i..]);
    put_rest(out, k + n, &mut g[j..]);
    k + n + m
}

/// The terms of a list and the first n of another one, merged in memory of their own.
pub(crate) fn merged<K: Ordered>(
    alloc: Global,
    f: &mut [(K, i128)],
    g: &mut [(K, i128)],
    n: usize,
) -> Result<Vec<(K, i128)>, NoMemory>
    requires first { n ≤ length g.old }
    requires room { weight_of f.old + weight_of (take n g.old) < 2 ^ 127 }
    ensures merge { IfOk result (λ h. IsMerge K.IsBefore f.old (take n g.old) h.items) }
    ensures long { length g.new ≡ length g.old }
{
    let mut out = K::blanks(alloc, f.len().saturating_add(n))?;
    let k = merge(&mut out, f, &mut g[..n]);
    out.truncate(k);
    Ok(out)
}
