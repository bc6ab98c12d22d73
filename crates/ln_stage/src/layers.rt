//! Stages of one total degree, listed depth first, from the smallest infinitesimal to the largest.
ghost use Rattle.std.specs.Prelude.{◌≡◌, ◌<◌, ◌≤◌, ◌*◌, All, IfOk, IfErr, length, OnOk, []};
ghost use Rattle.ln_tree.specs.Exps.{IsRising};
ghost use Rattle.ln_poly.specs.Sparse.{AreRising};
ghost use Rattle.ln_stage.specs.Degrees.{any_reaches, largest_degree, listed_degree, listed_graded, pairs_degree};
ghost use Rattle.ln_stage.specs.Kept.{IsStep};
ghost use Rattle.ln_stage.specs.Tally.{EndsAs, IsOver, IsStoppedBy, see_all};

use crate::stop::StageStop;
use crate::tally::Tally;
use crate::walk::{leaf, with_exponent, with_set};
use ln_tree::{Exps, exponent_of};

// The sum of the exponents of these variables.
fn degree_on(pairs: &[(u8, u8)], vs: &[u8]) -> u64
    requires rising { IsRising pairs.now }
    requires few { length vs.now ≤ 168 }
    ensures value { result ≡ pairs_degree vs.now pairs.now }
    ensures small { result ≤ 128 * 168 }
{
    let mut sum = 0u64;
    'vars: for v in vs {
        sum += u64::from(exponent_of(pairs, *v));
    }
    sum
}

// Do the exponents of these variables of some term at these places sum up to at least d?
fn reaches(f: &[(Exps, i128)], vs: &[u8], d: u64, kept: &[usize]) -> bool
    requires rising { AreRising f.now }
    requires inside { All (λ i. i < length f.now) kept.now }
    requires few { length vs.now ≤ 168 }
    ensures { result ≡ any_reaches f.now vs.now d kept.now }
{
    'kept: for i in kept {
        if d <= degree_on(f[*i].0.pairs(), vs) {
            return true;
        }
    }
    false
}

// The largest sum of the exponents of these variables among the terms at these places.
fn largest_degree(f: &[(Exps, i128)], vs: &[u8], kept: &[usize]) -> u64
    requires rising { AreRising f.now }
    requires inside { All (λ i. i < length f.now) kept.now }
    requires few { length vs.now ≤ 168 }
    ensures value { result ≡ largest_degree f.now vs.now kept.now }
    ensures small { result ≤ 128 * 168 }
{
    let mut largest = 0u64;
    'kept: for i in kept {
        let degree = degree_on(f[*i].0.pairs(), vs);
        if degree > largest {
            largest = degree;
        }
    }
    largest
}

// The stages from p on in the variables vs whose exponents there sum up to d, depth first, with the terms at these places, which are those that
// cover p. Returns whether the cut ended them.
pub(crate) fn walk_at(
    f: &[(Exps, i128)],
    vs: &[u8],
    kept: &[usize],
    p: &[u8],
    d: u64,
    tally: &mut Tally,
) -> Result<bool, StageStop>
    requires step { IsStep f.now vs.now kept.now p.now }
    requires few { length p.now ≤ 168 }
    requires vars { length vs.now ≤ 168 }
    ensures ok { IfOk result (λ cut. EndsAs (length p.now) f.now tally.new ([], cut) tally.old (listed_degree f.now vs.now kept.now p.now d)) }
    ensures err { IfErr result (λ e. IsStoppedBy e (IsOver (see_all (length p.now) f.now tally.old (listed_degree f.now vs.now kept.now p.now d).0))) }
{
    if d == 0 {
        return leaf(f, kept, p, tally);
    }
    if vs.is_empty() {
        return Ok(false);
    }
    let v = vs[0];
    let rest = &vs[1..];
    // Where v has the exponent 0, all of these terms remain and p is as it was.
    if walk_at(f, rest, kept, p, d, tally)? {
        return Ok(true);
    }
    'exponents: for e in 1..128u8 {
        if u64::from(e) > d {
            return Ok(false);
        }
        let high = with_exponent(tally.alloc(), f, kept, v, e)?;
        if high.is_empty() {
            return Ok(false);
        }
        let left = d - u64::from(e);
        if reaches(f, rest, left, high.as_slice()) {
            let q = with_set(tally.alloc(), p, v, e)?;
            if walk_at(f, rest, high.as_slice(), q.as_slice(), left, tally)? {
                return Ok(true);
            }
        }
    }
    Ok(false)
}

// The stages from p on in the variables vs by total degree first, with the terms at these places, which are those that
// cover p.
pub(crate) fn layers(
    f: &[(Exps, i128)],
    vs: &[u8],
    kept: &[usize],
    p: &[u8],
    tally: &mut Tally,
) -> Result<(), StageStop>
    requires step { IsStep f.now vs.now kept.now p.now }
    requires few { length p.now ≤ 168 }
    requires vars { length vs.now ≤ 168 }
    ensures seen { OnOk result (tally.new ≡ see_all (length p.now) f.now tally.old (listed_graded f.now vs.now kept.now p.now).0) }
    ensures err { IfErr result (λ e. IsStoppedBy e (IsOver (see_all (length p.now) f.now tally.old (listed_graded f.now vs.now kept.now p.now).0))) }
{
    let limit = largest_degree(f, vs, kept) + 1;
    'degrees: for d in 0..limit {
        if walk_at(f, vs, kept, p, d, tally)? {
            return Ok(());
        }
    }
    Ok(())
}
