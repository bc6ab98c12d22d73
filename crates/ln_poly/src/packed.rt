//! Products of polynomials by the numbers of their monomials, in memory that is kept from product to product.
ghost use Rattle.std.specs.Prelude.{◌≡◌, ◌+◌, ◌-◌, ◌*◌, ◌/◌, ◌<◌, ◌≤◌, ◌^◌, ◌++◌, ◌+ℤ◌, ◌*ℤ◌, take, drop, length, min, All, unsigned_abs};
ghost use Rattle.std.specs.Prelude.{IfOk, MatchOption, OnOk};
ghost use Rattle.ln_poly.specs.Keyed.{AreAllProducts, IsGivenUp, Keyed, ProductsFit, row};
ghost use Rattle.ln_poly.specs.Merge.{weight_of};
ghost use Rattle.ln_poly.specs.Packed.{ArePackable, weights};
ghost use Rattle.ln_poly.specs.Sparse.{size_of};
ghost use Rattle.ln_poly.specs.Within.{IsWithin};
ghost use Rattle.ln_poly.specs.Words.{half};

use crate::fields::Fields;
use crate::key::Key;
use crate::merge::{merge, merged};
use crate::poly::Poly;
use crate::within::{ROWS, are_too_many, end_of};
use ln_base::{NoMemory, Seq};
use std::alloc::Global;

/// The memory for the rows that are merged at once, with numbers of N words. It grows to what the largest product needs.
#[derive(Drop)]
pub(crate) struct Buffers<const N: usize> {
    out: Vec<(Key<N>, i128)>,
    aside: Vec<(Key<N>, i128)>,
}

impl<const N: usize> Buffers<N> {
    // No memory yet.
    fn new(alloc: Global) -> Buffers<N> {
        Buffers {
            out: Vec::new(alloc),
            aside: Vec::new(alloc),
        }
    }

    // Makes each list at least `times` times as long as g.
    fn grow(&mut self, alloc: Global, times: usize, g: &[(Key<N>, i128)]) -> Result<(), NoMemory>
        requires { times * length g.now < 2 ^ 64 }
        ensures out { OnOk result (times * length g.now ≤ length self.new.out.items) }
        ensures aside { OnOk result (times * length g.now ≤ length self.new.aside.items) }
    {
        grow(alloc, &mut self.out, times * g.len())?;
        grow(alloc, &mut self.aside, times * g.len())
    }
}

/// The memory for products of each width, which grows where one is made.
#[derive(Drop)]
pub(crate) struct Room {
    pub(crate) one: Buffers<1>,
    pub(crate) three: Buffers<3>,
    pub(crate) ten: Buffers<10>,
    pub(crate) fifteen: Buffers<15>,
}

impl Room {
    /// No memory yet.
    pub(crate) fn new(alloc: Global) -> Room {
        Room {
            one: Buffers::new(alloc),
            three: Buffers::new(alloc),
            ten: Buffers::new(alloc),
            fifteen: Buffers::new(alloc),
        }
    }
}

// Grows a list to as many terms.
fn grow<const N: usize>(
    alloc: Global,
    list: &mut Vec<(Key<N>, i128)>,
    size: usize,
) -> Result<(), NoMemory>
    ensures { OnOk result (size ≤ length list.new.items) }
{
    if size <= list.len() {
        return Ok(());
    }
    *list = vec![in alloc; (Key::zero(), 0i128); size]?;
    Ok(())
}

// The product of the factors of two terms.
fn product_of<const N: usize>(s: &(Key<N>, i128), t: &(Key<N>, i128)) -> i128
    requires { unsigned_abs (s.now.1 *ℤ t.now.1) < 2 ^ 127 }
    ensures { result ≡ s.now.1 *ℤ t.now.1 }
{
    s.1 * t.1
}

// Writes the products of s with the terms of g, in their order.
fn put_row<const N: usize>(out: &mut [(Key<N>, i128)], s: &(Key<N>, i128), g: &[(Key<N>, i128)])
    requires long { length g.now ≤ length out.old }
    requires low { s.now.0 < half N }
    requires low_all { All (λ t. t.0 < half N) g.now }
    requires room { unsigned_abs s.now.1 * weight_of g.now < 2 ^ 127 }
    ensures row { take (length g.now) out.new ≡ row s.now g.now }
    ensures long { length out.new ≡ length out.old }
{
    'terms: for i in 0..g.len() {
        let t = &g[i];
        out[i] = (s.0.sum(&t.0), product_of(s, t));
    }
}

// Writes the products of at most one term with those of g. Returns how many there are.
fn one_row<const N: usize>(
    out: &mut [(Key<N>, i128)],
    f: &[(Key<N>, i128)],
    g: &[(Key<N>, i128)],
) -> usize
    requires short { length f.now < 2 }
    requires long { length f.now * length g.now ≤ length out.old }
    requires fit { ProductsFit (half N) f.now g.now }
    ensures products { AreAllProducts (take result out.new) f.now g.now }
    ensures few { result ≤ length f.now * length g.now }
    ensures long { length out.new ≡ length out.old }
{
    if f.is_empty() {
        return 0;
    }
    put_row(out, &f[0], g);
    g.len()
}

// Both halves of the terms of f, and how many products the first has with the terms of g.
fn halves<'a, const N: usize>(
    f: &'a [(Key<N>, i128)],
    g: &[(Key<N>, i128)],
) -> (&'a [(Key<N>, i128)], &'a [(Key<N>, i128)], usize)
    requires several { 2 ≤ length f.now }
    requires long { length f.now * length g.now < 2 ^ 64 }
    requires fit { ProductsFit (half N) f.now g.now }
    ensures whole { f.now ≡ result.0.now ++ result.1.now }
    ensures first_shorter { length result.0.now < length f.now }
    ensures second_shorter { length result.1.now < length f.now }
    ensures first_fit { ProductsFit (half N) result.0.now g.now }
    ensures second_fit { ProductsFit (half N) result.1.now g.now }
    ensures split { result.2 ≡ length result.0.now * length g.now }
    ensures rows { length f.now * length g.now ≡ result.2 + length result.1.now * length g.now }
{
    let k = f.len() / 2;
    (&f[..k], &f[k..], k * g.len())
}

// Writes the products of the terms of f with those of g: a row for each term of f, and the rows merged, two halves at a time. Returns how
// many there are.
fn products<const N: usize>(
    out: &mut [(Key<N>, i128)],
    aside: &mut [(Key<N>, i128)],
    f: &[(Key<N>, i128)],
    g: &[(Key<N>, i128)],
) -> usize
    requires long { length f.now * length g.now ≤ length out.old }
    requires long_aside { length f.now * length g.now ≤ length aside.old }
    requires fit { ProductsFit (half N) f.now g.now }
    ensures products { AreAllProducts (take result out.new) f.now g.now }
    ensures few { result ≤ length f.now * length g.now }
    ensures long { length out.new ≡ length out.old }
    ensures long_aside { length aside.new ≡ length aside.old }
{
    if f.len() < 2 {
        return one_row(out, f, g);
    }
    let (first, second, split) = halves(f, g);
    let (low, high) = aside.split_at_mut(split);
    let (front, back) = out.split_at_mut(split);
    let n = products(low, front, first, g);
    let m = products(high, back, second, g);
    merge(out, &mut low[..n], &mut high[..m])
}

// What there is of the first rows, with the next ones.
fn with_rows<const N: usize>(
    alloc: Global,
    room: &mut Buffers<N>,
    done: &mut [(Key<N>, i128)],
    f: &[(Key<N>, i128)],
    g: &[(Key<N>, i128)],
) -> Result<Vec<(Key<N>, i128)>, NoMemory>
    requires long { length f.now * length g.now ≤ length room.old.out.items }
    requires long_aside { length f.now * length g.now ≤ length room.old.aside.items }
    requires fit { ProductsFit (half N) f.now g.now }
    requires room { weight_of done.old + weight_of f.now * weight_of g.now < 2 ^ 127 }
    ensures rows { IfOk result (λ h. (e : Keyed) → AreAllProducts done.old e g.now → AreAllProducts h.items (e ++ f.now) g.now) }
    ensures long { length room.new.out.items ≡ length room.old.out.items }
    ensures long_aside { length room.new.aside.items ≡ length room.old.aside.items }
{
    let n = products(&mut room.out, &mut room.aside, f, g);
    merged(alloc, done, &mut room.out, n)
}

// Some terms of a list.
fn between<const N: usize>(f: &[(Key<N>, i128)], i: usize, j: usize) -> &[(Key<N>, i128)]
    requires order { i ≤ j }
    requires within { j ≤ length f.now }
    ensures { result.now ≡ take (j - i) (drop i f.now) }
{
    &f[i..j]
}

// The products of the terms of f with those of g, 64 terms of f at a time, where there are at most `most`.
fn parts_of<const N: usize>(
    alloc: Global,
    room: &mut Buffers<N>,
    f: &[(Key<N>, i128)],
    g: &[(Key<N>, i128)],
    most: usize,
) -> Result<Option<Vec<(Key<N>, i128)>>, NoMemory>
    requires short { length g.now * 32 < 2 ^ 63 }
    requires fit { ProductsFit (half N) f.now g.now }
    ensures { IfOk result (λ o. MatchOption o (IsGivenUp f.now g.now most) (λ h. AreAllProducts h.items f.now g.now × (length h.items ≤ most))) }
{
    room.grow(alloc, f.len().min(ROWS), g)?;
    let mut done = Vec::new(alloc);
    let mut i = 0;
    'parts: while i < f.len() {
        let j = end_of(i, f.len());
        let next = with_rows(alloc, room, done.as_mut_slice(), between(f, i, j), g)?;
        done = next;
        i = j;
        if are_too_many(done.len(), f.len() - i, g.len(), most) {
            return Ok(None);
        }
    }
    Ok(Some(done))
}

/// The product of two polynomials in these fields, with a row for each term of the first, where it has at most `most` terms.
pub(crate) fn product<const N: usize>(
    alloc: Global,
    room: &mut Buffers<N>,
    fields: &Fields<N>,
    f: &Poly,
    g: &Poly,
    most: usize,
) -> Result<Option<Poly>, NoMemory>
    requires room { size_of f.now * size_of g.now < 2 ^ 127 }
    requires fields { ArePackable (weights fields.now.shifts) (half N) f.now g.now }
    ensures { IfOk result (IsWithin f.now g.now most) }
{
    let left = fields.pack(alloc, f.terms())?;
    let right = fields.pack(alloc, g.terms())?;
    let found = parts_of(alloc, room, left.as_slice(), right.as_slice(), most)?;
    match found {
        Some(terms) => {
            let h = fields.unpack(alloc, terms.as_slice())?;
            Ok(Some(Poly::seal(Seq::from_vec(h))))
        }
        None => Ok(None),
    }
}
