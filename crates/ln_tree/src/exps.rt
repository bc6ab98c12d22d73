//! Defines the exponents of a monomial, as pairs of a variable and its exponent, and their order.
ghost use Rattle.std.specs.Prelude.{◌≡◌, ◌+◌, ◌<◌, ◌≤◌, ◌++◌, [], ◌∷◌, IfOk, OnOk, OnErr, drop, length, take};
ghost use Rattle.ln_tree.specs.Exps.{AreBytes, IsRising, exponent, pair_cmp, pair_number, pairs_cmp, pairs_number, same_pairs};

use ln_base::NoMemory;
use smallvec::SmallVec;
use std::alloc::Global;
use std::cmp::Ordering;
use std::hash::{Hash, Hasher};
use std::marker::Model;

// How many pairs are kept in the value; a longer list is on the heap.
const KEPT: usize = 8;

/// The exponents of a monomial: pairs of a variable's number and its exponent, variables rising, exponents from 1 to 127.
/// Contracts see the list of pairs. Equality and hash are the list's. The order is the lexicographic order of monomials: at the first
/// variable in which two differ, the one with the larger exponent is the larger, where a variable that isn't listed has exponent 0.
#[derive(Drop)]
pub struct Exps {
    pairs: SmallVec<(u8, u8), KEPT>,
}

impl Model for Exps {
    ghost use Rattle.std.specs.Prelude.{ℕ, List};
    ghost use Rattle.ln_tree.specs.Exps.{IsRising};

    ghost Value = { List (ℕ × ℕ) };

    ghost view = { λ e. e.pairs.items };

    ghost invariant = { λ e. IsRising e.pairs.items };
}

impl Exps {
    ghost use Rattle.ln_tree.specs.Exps.{IsAbove, IsRising};

    /// Makes the empty list: the exponents of the monomial 1. It allocates nothing.
    pub fn new(alloc: Global) -> Exps
        ensures { result ≡ [] }
    {
        Exps {
            pairs: SmallVec::new(alloc),
        }
    }

    /// Appends the pair of a further variable, above those that are there. A refusal changes nothing.
    pub fn push(&mut self, v: u8, e: u8) -> Result<(), NoMemory>
        requires above { IsAbove self.old v }
        requires positive { 0 < e }
        requires small { e < 128 }
        ensures ok { OnOk result (self.new ≡ self.old ++ (v, e) ∷ []) }
        ensures err { OnErr result (self.new ≡ self.old) }
    {
        self.pairs.push((v, e))?;
        Ok(())
    }

    /// Appends pairs of further variables. A refusal changes nothing.
    pub fn append(&mut self, pairs: &[(u8, u8)]) -> Result<(), NoMemory>
        requires { IsRising (self.old ++ pairs.now) }
        ensures ok { OnOk result (self.new ≡ self.old ++ pairs.now) }
        ensures err { OnErr result (self.new ≡ self.old) }
    {
        self.pairs.extend_from_slice(pairs)?;
        Ok(())
    }

    /// Copies the pairs. Up to eight pairs are kept in the value, and a longer list allocates.
    pub fn copy(&self, alloc: Global) -> Result<Exps, NoMemory>
        ensures { IfOk result (λ e. e ≡ self.now) }
    {
        let pairs = self.pairs.as_slice();
        if pairs.len() <= KEPT {
            return Ok(Exps {
                pairs: SmallVec::from_slice(alloc, pairs)?,
            });
        }
        let mut own = Vec::with_capacity(alloc, pairs.len())?;
        own.extend_from_slice(pairs)?;
        Ok(Exps {
            pairs: SmallVec::from_vec(own),
        })
    }

    /// The pairs, lent.
    pub fn pairs(&self) -> &[(u8, u8)]
        ensures value { result.now ≡ self.now }
        ensures rising { IsRising self.now }
    {
        self.pairs.as_slice()
    }
}

/// The exponent of variable v, 0 where no pair has it.
pub fn exponent_of(pairs: &[(u8, u8)], v: u8) -> u8
    requires { IsRising pairs.now }
    ensures value { result ≡ exponent v pairs.now }
    ensures small { result < 128 }
{
    'pairs: for p in pairs {
        if p.0 == v {
            return p.1;
        }
    }
    0
}

// The order of two pairs at one place of two lists.
fn cmp_pair(p: (u8, u8), q: (u8, u8)) -> Ordering
    ensures { result ≡ pair_cmp p q }
{
    q.0.cmp(&p.0).then(p.1.cmp(&q.1))
}

// The order of two lists of pairs.
fn cmp_pairs(a: &[(u8, u8)], b: &[(u8, u8)]) -> Ordering
    ensures { result ≡ pairs_cmp a.now b.now }
{
    let n = a.len().min(b.len());
    'pairs: for i in 0..n {
        let o = cmp_pair(a[i], b[i]);
        if o.is_ne() {
            return o;
        }
    }
    a.len().cmp(&b.len())
}

// A pair as a number of 16 bits.
fn number(p: (u8, u8)) -> u64
    ensures value { result ≡ pair_number p }
    ensures bytes { AreBytes (p ∷ []) }
{
    p.0 as u64 + 256 * p.1 as u64
}

// The four pairs from place i on, as a number.
fn four_at(s: &[(u8, u8)], i: usize) -> u64
    requires { i + 4 ≤ length s.now }
    ensures value { result ≡ pairs_number (take 4 (drop i s.now)) }
    ensures bytes { AreBytes (take 4 (drop i s.now)) }
{
    let end = number(s[i + 2]) + 65536 * number(s[i + 3]);
    number(s[i]) + 65536 * (number(s[i + 1]) + 65536 * end)
}

// Are two lists of pairs the same? Four pairs are one comparison.
fn are_same(a: &[(u8, u8)], b: &[(u8, u8)]) -> bool
    ensures { result ≡ same_pairs a.now b.now }
{
    let n = a.len();
    if n != b.len() {
        return false;
    }
    let mut i = 0;
    'fours: while 4 <= n - i {
        if four_at(a, i) != four_at(b, i) {
            return false;
        }
        i += 4;
    }
    'pairs: while i < n {
        if number(a[i]) != number(b[i]) {
            return false;
        }
        i += 1;
    }
    true
}

impl PartialEq for Exps {
    ghost use Rattle.std.proofs.Common.{rules};
    ghost use Rattle.std.specs.Cmp.Rules.{comparing};
    ghost use Rattle.ln_tree.specs.Exps.{same_pairs};

    ghost eq = { same_pairs };

    ghost laws = { Prim.search (comparing, rules) };

    fn eq(&self, other: &Exps) -> bool {
        are_same(self.pairs.as_slice(), other.pairs.as_slice())
    }
}

impl Eq for Exps {
    ghost use Rattle.std.proofs.Common.{rules};
    ghost use Rattle.std.specs.Cmp.Rules.{comparing};

    ghost laws = { Prim.search (comparing, rules) };
}

impl Ord for Exps {
    ghost use Rattle.std.proofs.Common.{rules};
    ghost use Rattle.std.specs.Cmp.Rules.{comparing};
    ghost use Rattle.ln_tree.specs.Exps.{pairs_cmp, pairs_cmp-total, same_pairs-ties};

    ghost cmp = { pairs_cmp };

    ghost total = { pairs_cmp-total };

    ghost matches_partial_cmp = { Prim.search (comparing, rules) };

    ghost matches_eq = { same_pairs-ties };

    fn cmp(&self, other: &Exps) -> Ordering {
        cmp_pairs(self.pairs.as_slice(), other.pairs.as_slice())
    }
}

impl PartialOrd for Exps {
    ghost use Rattle.std.proofs.Common.{refl};
    ghost use Rattle.std.specs.Cmp.{partial_order_from_agreeing_total};
    ghost use Rattle.std.specs.Ordering.{as_partial_cmp};
    ghost use Rattle.ln_tree.specs.Exps.{pairs_cmp, pairs_cmp-total, same_pairs-ties};

    ghost partial_cmp = { as_partial_cmp pairs_cmp };

    ghost laws = { partial_order_from_agreeing_total pairs_cmp pairs_cmp-total (λ x y. refl) same_pairs-ties };

    fn partial_cmp(&self, other: &Exps) -> Option<Ordering> {
        Some(self.cmp(other))
    }
}

impl Hash for Exps {
    ghost use Rattle.std.proofs.Common.{ap, rules};
    ghost use Rattle.std.specs.Hash as fed;
    ghost use Rattle.std.specs.Cmp.Rules.{comparing};
    ghost use Rattle.std.specs.Prelude.{ℕ, ◌++◌};
    ghost use Rattle.ln_tree.specs.Exps.{same_pairs-is};

    ghost hash_input = { fed.slice (λ p. fed.u8 p.0 ++ fed.u8 p.1) };

    ghost respects_eq = { λ x y h. ap (fed.slice (λ (p : ℕ × ℕ). fed.u8 p.0 ++ fed.u8 p.1)) (same_pairs-is x y h) };

    fn hash<H: Hasher>(&self, state: &mut H) {
        self.pairs.as_slice().hash(state);
    }
}
