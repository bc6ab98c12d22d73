//! Terms with an exponent for each variable, divided by one variable after the other.
ghost use Rattle.std.specs.Prelude.{◌≡◌, ◌≤◌, min, map, nat_lt, true, IfOk, if◌then◌else◌};
ghost use Rattle.ln_bound.specs.Light.{most};
ghost use Rattle.ln_tree.specs.Exps.{IsRising, vector};
ghost use Rattle.ln_poly.specs.Sparse.{AreRising, terms_of};
ghost use Rattle.ln_nest.specs.Nested.{power_at_once, divided, exponent_of, free_of, is_positive, least_power, lessened, total};
ghost use Rattle.ln_nest.specs.Nested.{half_term, halved, has_power, is_power, odd_part, rest_term};
ghost use Rattle.ln_nest.specs.View.{terms_in, abs_total};

use ln_base::NoMemory;
use ln_tree::{Exps, exponent_of};
use std::alloc::Global;

/// A term on its way into the nested form: an exponent for each variable, and a factor.
#[derive(Drop)]
pub struct Work {
    pub exponents: Vec<u8>,
    pub factor: i128,
}

// The exponents of the first n variables.
fn spread(alloc: Global, pairs: &[(u8, u8)], n: usize) -> Result<Vec<u8>, NoMemory>
    requires few { n ≤ 168 }
    requires rising { IsRising pairs.now }
    ensures { IfOk result (λ m. m.items ≡ vector n pairs.now) }
{
    let mut out = Vec::new(alloc);
    'variables: for v in 0..n {
        out.push(exponent_of(pairs, v as u8))?;
    }
    Ok(out)
}

/// The terms of a polynomial over n variables.
pub fn work_of(alloc: Global, f: &[(Exps, i128)], n: usize) -> Result<Vec<Work>, NoMemory>
    requires few { n ≤ 168 }
    requires rising { AreRising f.now }
    ensures { IfOk result (λ ws. terms_in ws.items ≡ terms_of n f.now) }
{
    let mut out = Vec::new(alloc);
    'terms: for t in f {
        let exponents = spread(alloc, t.0.pairs(), n)?;
        out.push(Work {
            exponents,
            factor: t.1,
        })?;
    }
    Ok(out)
}

// Has the term variable v?
fn has(term: &Work, v: usize) -> bool
    ensures { result ≡ is_positive (exponent_of v term.now.exponents.items) }
{
    match term.exponents.get(v) {
        None => false,
        Some(e) => *e > 0,
    }
}

// Divides a term that has variable v by its power e.
fn lower(term: &mut Work, v: usize, e: u8)
    requires { is_positive (exponent_of v term.old.exponents.items) ≡ true }
    ensures exponents { term.new.exponents.items ≡ lessened e v term.old.exponents.items }
    ensures factor { term.new.factor ≡ term.old.factor }
{
    term.exponents[v] = term.exponents[v].saturating_sub(e);
}

// The lesser of b and an exponent above 0.
fn lesser(e: u8, b: u8) -> u8
    ensures { result ≡ (if nat_lt 0 e then min b e else b) }
{
    if e > 0 && e < b { e } else { b }
}

// The lesser of b and the exponent of variable v in the term, where it has v.
fn next(term: &Work, v: usize, b: u8) -> u8
    ensures { result ≡ (if is_positive (exponent_of v term.now.exponents.items) then min b (exponent_of v term.now.exponents.items) else b) }
{
    match term.exponents.get(v) {
        None => b,
        Some(e) => lesser(*e, b),
    }
}

// The least exponent of variable v in the terms that have it, or b where that is less.
fn least(terms: &[Work], v: usize, b: u8) -> u8
    ensures { result ≡ least_power v b (terms_in terms.now) }
{
    match terms {
        [] => b,
        [term, rest @ ..] => least(rest, v, next(term, v, b)),
    }
}

/// The power of variable v by which the terms that have it are divided at once.
pub fn power_at_once(terms: &[Work], v: usize) -> u8
    ensures { result ≡ power_at_once v (terms_in terms.now) }
{
    let e = least(terms, v, 126);
    if 8 <= e { e } else { 1 }
}

/// The terms with variable v, divided by its power e, and the others.
pub fn parted(
    alloc: Global,
    v: usize,
    e: u8,
    terms: Vec<Work>,
) -> Result<(Vec<Work>, Vec<Work>), NoMemory>
    ensures with { IfOk result (λ r. terms_in r.0.items ≡ divided e v (terms_in terms.items)) }
    ensures without { IfOk result (λ r. terms_in r.1.items ≡ free_of v (terms_in terms.items)) }
{
    let mut with = Vec::new(alloc);
    let mut without = Vec::new(alloc);
    for term in terms {
        let mut term = term;
        if has(&term, v) {
            lower(&mut term, v, e);
            with.push(term)?;
        } else {
            without.push(term)?;
        }
    }
    Ok((with, without))
}

// Is an exponent b or more?
fn has_power(m: &[u8], b: u8) -> bool
    ensures { result ≡ has_power b m.now }
{
    m.iter().any(|n| b <= *n)
}

/// Is there one term, with an exponent of b or more?
pub fn is_power(terms: &[Work], b: u8) -> bool
    ensures { result ≡ is_power b (terms_in terms.now) }
{
    match terms {
        [term] => has_power(term.exponents.as_slice(), b),
        _ => false,
    }
}

// Half of each exponent.
fn halved(alloc: Global, m: &[u8]) -> Result<Vec<u8>, NoMemory>
    ensures { IfOk result (λ h. h.items ≡ halved m.now) }
{
    let mut out = Vec::new(alloc);
    'exponents: for n in m {
        out.push(*n / 2)?;
    }
    Ok(out)
}

// 1 for each odd exponent, else 0.
fn odd_part(alloc: Global, m: &[u8]) -> Result<Vec<u8>, NoMemory>
    ensures { IfOk result (λ h. h.items ≡ odd_part m.now) }
{
    let mut out = Vec::new(alloc);
    'exponents: for n in m {
        out.push(*n % 2)?;
    }
    Ok(out)
}

/// The halves of the terms' monomials.
pub fn halves(alloc: Global, terms: &[Work]) -> Result<Vec<Work>, NoMemory>
    ensures { IfOk result (λ hs. terms_in hs.items ≡ map half_term (terms_in terms.now)) }
{
    let mut out = Vec::new(alloc);
    'terms: for t in terms {
        let exponents = halved(alloc, t.exponents.as_slice())?;
        out.push(Work {
            exponents,
            factor: 1,
        })?;
    }
    Ok(out)
}

/// What remains of the terms without the squares of their halves.
pub fn rests(alloc: Global, terms: &[Work]) -> Result<Vec<Work>, NoMemory>
    ensures { IfOk result (λ rs. terms_in rs.items ≡ map rest_term (terms_in terms.now)) }
{
    let mut out = Vec::new(alloc);
    'terms: for t in terms {
        let exponents = odd_part(alloc, t.exponents.as_slice())?;
        out.push(Work {
            exponents,
            factor: t.factor,
        })?;
    }
    Ok(out)
}

/// The sum of the factors.
pub fn constant(terms: &[Work]) -> i128
    requires { abs_total (terms_in terms.now) ≤ most }
    ensures { result ≡ total (terms_in terms.now) }
{
    let mut sum = 0;
    for term in terms {
        sum += term.factor;
    }
    sum
}
