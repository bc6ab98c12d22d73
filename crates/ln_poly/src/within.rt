//! Products, which may be given up where they have too many terms.
ghost use Rattle.std.specs.Prelude.{◌≡◌, ℕ, List, ◌+◌, ◌-◌, ◌*◌, ◌<◌, ◌≤◌, ◌^◌, ◌↔◌};
ghost use Rattle.std.specs.Prelude.{All, IfOk, IfSome, IfNone, IsTrue, length};
ghost use Rattle.ln_algebra.specs.Coefficient.{product};
ghost use Rattle.ln_poly.specs.Sparse.{IsPoly, AreBelow, coefficient_at, size_of};
ghost use Rattle.ln_poly.specs.Rows.{PowersFit};
ghost use Rattle.ln_poly.specs.Within.{IsWithin, TakesMore};

use crate::arithmetic::walk;
use crate::fields::{Fields, largest};
use crate::packed::{Room, product as product_in};
use crate::poly::Poly;
use ln_base::NoMemory;
use std::alloc::Global;

// As many terms of the first polynomial are multiplied at once.
pub(crate) const ROWS: usize = 64;

// The end of the next rows.
pub(crate) fn end_of(i: usize, n: usize) -> usize
    requires { i < n }
    ensures further { i < result }
    ensures within { result ≤ n }
    ensures few { result - i ≤ 64 }
{
    if n - i <= ROWS {
        return n;
    }
    i + ROWS
}

// Do more than `most` of the terms stay, whatever the remaining rows take away? Each row has `width` terms.
pub(crate) fn are_too_many(terms: usize, left: usize, width: usize, most: usize) -> bool
    ensures { IsTrue result ↔ (most + left * width < terms) }
{
    terms.saturating_sub(most) > left.saturating_mul(width)
}

// The product of a polynomial of one term and another, where it has at most `most` terms.
fn row_within(alloc: Global, f: &Poly, g: &Poly, most: usize) -> Result<Option<Poly>, NoMemory>
    requires one { length f.now ≡ 1 }
    requires room { size_of f.now * size_of g.now < 2 ^ 127 }
    requires powers { All (λ s. PowersFit s g.now) f.now }
    ensures { IfOk result (IsWithin f.now g.now most) }
{
    let h = walk(alloc, &f.terms()[0], g.terms())?;
    if h.terms().len() > most {
        return Ok(None);
    }
    Ok(Some(h))
}

// The product of two polynomials, with a row for each term of the first, where it has at most `most` terms: by numbers of as few words as
// fit, unless the first has one term. A row alone isn't merged, and by numbers it takes three times as long: 1,024 terms times a variable,
// 0.5 MB of lines of a listing, 1.8 seconds in place of 0.5.
fn rows_within(
    alloc: Global,
    room: &mut Room,
    f: &Poly,
    g: &Poly,
    most: usize,
) -> Result<Option<Poly>, NoMemory>
    requires room { size_of f.now * size_of g.now < 2 ^ 127 }
    requires powers { All (λ s. PowersFit s g.now) f.now }
    ensures { IfOk result (IsWithin f.now g.now most) }
{
    if f.terms().len() == 1 {
        return row_within(alloc, f, g, most);
    }
    let a = largest(f.terms());
    let b = largest(g.terms());
    if let Some(fields) = Fields::<1>::of(&a, &b) {
        return product_in(alloc, &mut room.one, &fields, f, g, most);
    }
    if let Some(fields) = Fields::<3>::of(&a, &b) {
        return product_in(alloc, &mut room.three, &fields, f, g, most);
    }
    if let Some(fields) = Fields::<10>::of(&a, &b) {
        return product_in(alloc, &mut room.ten, &fields, f, g, most);
    }
    match Fields::<15>::of(&a, &b) {
        Some(fields) => product_in(alloc, &mut room.fifteen, &fields, f, g, most),
        None => unreachable!(),
    }
}

// The same, with a row for each term of the one that has fewer.
fn fewer_rows(
    alloc: Global,
    room: &mut Room,
    f: &Poly,
    g: &Poly,
    most: usize,
) -> Result<Option<Poly>, NoMemory>
    requires room { size_of f.now * size_of g.now < 2 ^ 127 }
    requires powers { All (λ s. PowersFit s g.now) f.now }
    ensures { IfOk result (IsWithin f.now g.now most) }
{
    if g.terms().len() < f.terms().len() {
        return rows_within(alloc, room, g, f, most);
    }
    rows_within(alloc, room, f, g, most)
}

// The product of two polynomials, as `mul_within`, in memory that is kept for the next one.
pub(crate) fn mul_in(
    alloc: Global,
    room: &mut Room,
    f: &Poly,
    g: &Poly,
    most: usize,
) -> Result<Option<Poly>, NoMemory>
    requires room { size_of f.now * size_of g.now < 2 ^ 127 }
    requires powers { All (λ s. PowersFit s g.now) f.now }
    ensures coefficients { IfOk result (λ o. IfSome o (λ h. (n : ℕ) (m : List ℕ) → length m ≡ n →
        coefficient_at n h m ≡ product (coefficient_at n f.now) (coefficient_at n g.now) m)) }
    ensures size { IfOk result (λ o. IfSome o (λ h. size_of h ≤ size_of f.now * size_of g.now)) }
    ensures form { IfOk result (λ o. IfSome o IsPoly) }
    ensures below { IfOk result (λ o. IfSome o (λ h. (n : ℕ) → AreBelow n f.now → AreBelow n g.now → AreBelow n h)) }
    ensures few { IfOk result (λ o. IfSome o (λ h. length h ≤ most)) }
    ensures none { IfOk result (λ o. IfNone o (TakesMore f.now g.now most)) }
{
    fewer_rows(alloc, room, f, g, most)
}

/// The product of two polynomials, where it has at most `most` terms; None where it has more.
///
/// The terms of the polynomial with fewer are multiplied 64 at a time, as numbers that stand for monomials. Each product of two terms
/// that is still to come takes away at most one term of what there is; so None is returned as soon as there are more terms than `most`
/// and those products. Beside the products of 64 terms, whose rows are merged two halves at a time, at most about half of all products of
/// two terms are held at once.
pub fn mul_within(alloc: Global, f: &Poly, g: &Poly, most: usize) -> Result<Option<Poly>, NoMemory>
    requires room { size_of f.now * size_of g.now < 2 ^ 127 }
    requires powers { All (λ s. PowersFit s g.now) f.now }
    ensures coefficients { IfOk result (λ o. IfSome o (λ h. (n : ℕ) (m : List ℕ) → length m ≡ n →
        coefficient_at n h m ≡ product (coefficient_at n f.now) (coefficient_at n g.now) m)) }
    ensures size { IfOk result (λ o. IfSome o (λ h. size_of h ≤ size_of f.now * size_of g.now)) }
    ensures form { IfOk result (λ o. IfSome o IsPoly) }
    ensures below { IfOk result (λ o. IfSome o (λ h. (n : ℕ) → AreBelow n f.now → AreBelow n g.now → AreBelow n h)) }
    ensures few { IfOk result (λ o. IfSome o (λ h. length h ≤ most)) }
    ensures none { IfOk result (λ o. IfNone o (TakesMore f.now g.now most)) }
{
    let mut room = Room::new(alloc);
    mul_in(alloc, &mut room, f, g, most)
}

/// Returns the product of two polynomials. The product of their sums of absolute factors is below `2^127`, and no exponent of the product
/// exceeds 127. Takes time and memory as `mul_within` without a limit.
pub fn mul(alloc: Global, f: &Poly, g: &Poly) -> Result<Poly, NoMemory>
    requires room { size_of f.now * size_of g.now < 2 ^ 127 }
    requires powers { All (λ s. PowersFit s g.now) f.now }
    ensures coefficients { IfOk result (λ h. (n : ℕ) (m : List ℕ) → length m ≡ n →
        coefficient_at n h m ≡ product (coefficient_at n f.now) (coefficient_at n g.now) m) }
    ensures size { IfOk result (λ h. size_of h ≤ size_of f.now * size_of g.now) }
    ensures form { IfOk result IsPoly }
    ensures below { IfOk result (λ h. (n : ℕ) → AreBelow n f.now → AreBelow n g.now → AreBelow n h) }
{
    let mut room = Room::new(alloc);
    let found = fewer_rows(alloc, &mut room, f, g, usize::MAX)?;
    match found {
        Some(h) => Ok(h),
        None => unreachable!(),
    }
}
