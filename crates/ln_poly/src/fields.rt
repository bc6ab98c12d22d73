//! Monomials as numbers, whose order is theirs and whose sums are those of their products.
ghost use Rattle.std.specs.Prelude.{◌≡◌, ℕ, ◌+◌, ◌-◌, ◌*◌, ◌<◌, ◌≤◌, ◌^◌, ◌++◌, [], ◌∷◌, All, IfOk, IfNone, IfSome, OnOk, length, slice_index_or, max};
ghost use Rattle.ln_tree.specs.Exps.{IsAbove, IsRising, exponent};
ghost use Rattle.ln_poly.specs.Lean.{largest};
ghost use Rattle.ln_poly.specs.Packed.{AreFields, AreSmall, keyed, opened, packed, pairs_from, taken, unkeyed, weights};
ghost use Rattle.ln_poly.specs.Sparse.{AreBelow, AreRising};
ghost use Rattle.ln_poly.specs.Words.{IsPlace, fields_below, half};

use crate::key::Key;
use ln_base::NoMemory;
use ln_tree::Exps;
use std::alloc::Global;

/// Where the exponent of each variable begins in the number of a monomial, a lower variable higher, each in one word of N.
#[derive(Clone, Copy)]
pub struct Fields<const N: usize> {
    shifts: [u16; 256],
    ghost places: { All (IsPlace N) shifts },
    ghost long: { length shifts ≡ 256 },
    ghost few: { N < 512 },
}

// Raises the exponents in `tops` to those of a monomial.
fn raise(tops: &mut [u8; 256], pairs: &[(u8, u8)])
    requires rising { IsRising pairs.now }
    requires small { All (λ t. t < 128) tops.old }
    ensures largest { (v : ℕ) → v < 256 → slice_index_or tops.new v 0 ≡ max (exponent v pairs.now) (slice_index_or tops.old v 0) }
    ensures small { All (λ t. t < 128) tops.new }
    ensures above { IsAbove pairs.now 256 }
{
    'pairs: for p in pairs {
        let v = usize::from(p.0);
        tops[v] = tops[v].max(p.1);
    }
}

/// The largest exponent of each variable.
pub fn largest(f: &[(Exps, i128)]) -> [u8; 256]
    ensures value { (v : ℕ) → v < 256 → slice_index_or result v 0 ≡ largest f.now v }
    ensures small { All (λ t. t < 128) result }
    ensures below { AreBelow 256 f.now }
    ensures rising { AreRising f.now }
{
    let mut tops = [0u8; 256];
    'terms: for t in f {
        raise(&mut tops, t.0.pairs());
    }
    tops
}

// As many bits as the numbers up to n take.
fn bits(n: u8) -> u8
    ensures enough { n < 2 ^ result }
    ensures small { n < 128 → result ≤ 7 }
{
    'bits: for k in 0..8u8 {
        if u32::from(n) < 1u32 << u32::from(k) {
            return k;
        }
    }
    8
}

// Where a field of this width begins, of n words, that ends at bit `left` or below: it has 7 bits in its word, unless that is the highest.
fn place(left: u16, width: u16, n: u16) -> u16
    requires within { left < 127 * n }
    requires room { width ≤ left }
    ensures place { IsPlace n result }
    ensures below { result + width ≤ left }
    ensures many { width ≤ 7 → fields_below left ≤ fields_below result + 1 }
{
    let end = left - width;
    if end % 127 <= 120 || end / 127 + 1 >= n {
        return end;
    }
    end / 127 * 127 + 120
}

impl<const N: usize> Fields<N> {
    /// The fields for the products of two polynomials with these largest exponents, where they fit N words but for one bit. Fifteen words hold
    /// all fields of 7 bits.
    pub(crate) fn of(a: &[u8; 256], b: &[u8; 256]) -> Option<Fields<N>>
        requires words { (0 < N) × (N < 512) }
        requires left { All (λ t. t < 128) a.now }
        requires right { All (λ t. t < 128) b.now }
        ensures fields { IfSome result (λ f. AreFields (λ v. slice_index_or a.now v 0 + slice_index_or b.now v 0) (half N) 0 (weights f.shifts)) }
        ensures size { IfSome result (λ f. length f.shifts ≡ 256) }
        ensures none { IfNone result (((v : ℕ) → v < 256 → slice_index_or a.now v 0 + slice_index_or b.now v 0 < 128) → N < 15) }
    {
        let n = N as u16;
        let mut shifts = [0u16; 256];
        let mut left = 127 * n - 1;
        'vars: for v in 0..256usize {
            let width = u16::from(bits(a[v] + b[v]));
            if left < width {
                return None;
            }
            left = place(left, width, n);
            shifts[v] = left;
        }
        Some(Fields { shifts })
    }

    // The number of a monomial.
    fn packed(&self, pairs: &[(u8, u8)]) -> Key<N>
        requires rising { IsRising pairs.now }
        requires low { packed (weights self.now.shifts) pairs.now < half N }
        ensures { result ≡ packed (weights self.now.shifts) pairs.now }
    {
        let mut n = Key::zero();
        'pairs: for p in pairs {
            let x = Key::field(p.1, self.shifts[usize::from(p.0)]);
            n = n.sum(&x);
        }
        n
    }

    // The monomial of a number.
    fn unpacked(&self, alloc: Global, n: Key<N>) -> Result<Exps, NoMemory>
        requires { AreSmall (taken (weights self.now.shifts) n) }
        ensures { IfOk result (λ e. e ≡ opened (weights self.now.shifts) n.entry) }
    {
        let zero = Key::zero();
        let mut out = Exps::new(alloc);
        let mut rest = n;
        let mut v = 0usize;
        'vars: while v < 256 && zero.is_below(&rest) {
            let e = rest.take(self.shifts[v]);
            put_exponent(&mut out, v as u8, e)?;
            v += 1;
        }
        Ok(out)
    }

    /// The terms with numbers for monomials.
    pub(crate) fn pack(
        &self,
        alloc: Global,
        f: &[(Exps, i128)],
    ) -> Result<Vec<(Key<N>, i128)>, NoMemory>
        requires { All (λ t. t.0 < half N) (keyed (weights self.now.shifts) f.now) }
        ensures { IfOk result (λ o. o.items ≡ keyed (weights self.now.shifts) f.now) }
    {
        let mut out = Vec::with_capacity(alloc, f.len())?;
        'terms: for t in f {
            out.push((self.packed(t.0.pairs()), t.1))?;
        }
        Ok(out)
    }

    /// The terms with the monomials of these numbers.
    pub(crate) fn unpack(
        &self,
        alloc: Global,
        f: &[(Key<N>, i128)],
    ) -> Result<Vec<(Exps, i128)>, NoMemory>
        requires { All (λ t. AreSmall (taken (weights self.now.shifts) t.0)) f.now }
        ensures { IfOk result (λ o. o.items ≡ unkeyed (weights self.now.shifts) f.now) }
    {
        let mut out = Vec::with_capacity(alloc, f.len())?;
        'terms: for t in f {
            let e = self.unpacked(alloc, t.0)?;
            out.push((e, t.1))?;
        }
        Ok(out)
    }
}

// Appends the exponent of a further variable, where it isn't 0.
fn put_exponent(out: &mut Exps, v: u8, e: u8) -> Result<(), NoMemory>
    requires above { IsAbove out.old v }
    requires small { e < 128 }
    ensures { OnOk result (out.new ≡ out.old ++ pairs_from v (e ∷ [])) }
{
    if e == 0 {
        return Ok(());
    }
    out.push(v, e)
}
