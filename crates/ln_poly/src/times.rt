//! Computes the exponents of the product of two monomials.
ghost use Rattle.std.specs.Prelude.{◌≡◌, ℕ, ◌+◌, ◌++◌, ◌<◌, ◌≤◌, [], OnOk, length, true};
ghost use Rattle.ln_tree.specs.Exps.{IsRising, exponent};
ghost use Rattle.ln_poly.specs.Times.{AreLow, IsLowest, IsPassed, IsTimes, variable_at};

use ln_base::NoMemory;
use ln_tree::Exps;

// The lowest variable from two places on.
fn lowest(a: &[(u8, u8)], b: &[(u8, u8)], i: usize, j: usize) -> u8
    requires left { i ≤ length a.now }
    requires right { j ≤ length b.now }
    requires some { i + j < length a.now + length b.now }
    ensures { IsLowest a.now b.now i j result }
{
    if j == b.len() {
        return a[i].0;
    }
    if i == a.len() {
        return b[j].0;
    }
    a[i].0.min(b[j].0)
}

// The exponent of a variable at a place, 0 where another one is there, and the place after it.
fn passed(a: &[(u8, u8)], i: usize, v: u8) -> (u8, usize)
    requires rising { IsRising a.now }
    requires within { i ≤ length a.now }
    requires low { i < length a.now → v ≤ variable_at a.now i }
    ensures { IsPassed a.now i v result.0 result.1 }
{
    if i == a.len() {
        return (0, i);
    }
    if a[i].0 != v {
        return (0, i);
    }
    (a[i].1, i + 1)
}

// Is each variable of the first below each of the second?
fn are_low(a: &[(u8, u8)], b: &[(u8, u8)]) -> bool
    requires left { IsRising a.now }
    requires right { IsRising b.now }
    ensures { result ≡ true → AreLow a.now b.now }
{
    let n = a.len();
    if n == 0 {
        return true;
    }
    let k = b.len();
    if k == 0 {
        return true;
    }
    a[n - 1].0 < b[0].0
}

// Writes the pairs of the second after those of the first.
fn concatenated(out: &mut Exps, a: &Exps, b: &[(u8, u8)]) -> Result<(), NoMemory>
    requires empty { out.old ≡ [] }
    requires low { AreLow a.now b.now }
    requires rising { IsRising b.now }
    ensures { OnOk result ((out.new ≡ a.now ++ b.now) × IsRising out.new) }
{
    out.append(a.pairs())?;
    'pairs: for p in b {
        out.push(p.0, p.1)?;
    }
    // The contract of `pairs` states that they rise.
    let _pairs = out.pairs();
    Ok(())
}

// Writes the pairs of both, merged.
fn merged(out: &mut Exps, a: &[(u8, u8)], b: &[(u8, u8)]) -> Result<(), NoMemory>
    requires empty { out.old ≡ [] }
    requires left { IsRising a.now }
    requires right { IsRising b.now }
    requires small { (v : ℕ) → exponent v a.now + exponent v b.now < 128 }
    ensures { OnOk result (IsTimes out.new a.now b.now) }
{
    let mut i = 0;
    let mut j = 0;
    'pairs: while i < a.len() || j < b.len() {
        let v = lowest(a, b, i, j);
        let (d, k) = passed(a, i, v);
        let (e, n) = passed(b, j, v);
        out.push(v, d + e)?;
        i = k;
        j = n;
    }
    // The contract of `pairs` states that they rise.
    let _pairs = out.pairs();
    Ok(())
}

/// Writes the exponents of the product of two monomials where none are: in place, since a list that is moved after its bytes are written takes
/// half the time again. Where the variables of one are all below those of the other, they are a copy with the other's pairs appended.
pub fn put_times(out: &mut Exps, a: &Exps, b: &Exps) -> Result<(), NoMemory>
    requires empty { out.old ≡ [] }
    requires small { (v : ℕ) → exponent v a.now + exponent v b.now < 128 }
    ensures { OnOk result (IsTimes out.new a.now b.now) }
{
    let first = a.pairs();
    let second = b.pairs();
    if are_low(first, second) {
        return concatenated(out, a, second);
    }
    if are_low(second, first) {
        return concatenated(out, b, first);
    }
    merged(out, first, second)
}
