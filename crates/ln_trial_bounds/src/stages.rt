//! Stages of polynomials: the difference of two squares over two sites of one coordinate each, and the product of the sixteen
//! coordinates of one site.
ghost use Rattle.std.specs.Prelude.{◌≡◌, ◌≤◌, IfOk, IfSome, length};

use crate::sources::{poly_of, table};
use ln_order::order_of;
use ln_stage::{StageStop, Stages, stages};
use ln_tree::Pred;
use std::alloc::Global;

const SQUARES: &str =
    "site num { t: -10 .. 10; } predicate s(a: num, b: num) { sign a.t^2 - b.t^2; }";

const NOTHING: &str = "site num { t: -10 .. 10; } predicate s(a: num, b: num) { sign a.t - a.t; }";

const CUBE: &str =
    "site cube { a: -1 .. 1; b: -1 .. 1; c: -1 .. 1; d: -1 .. 1; e: -1 .. 1; f: -1 .. 1; g: -1 .. 1; h: -1 .. 1;
i: -1 .. 1; j: -1 .. 1; k: -1 .. 1; l: -1 .. 1; m: -1 .. 1; n: -1 .. 1; o: -1 .. 1; p: -1 .. 1; }
predicate all(x: cube) { sign x.a*x.b*x.c*x.d*x.e*x.f*x.g*x.h*x.i*x.j*x.k*x.l*x.m*x.n*x.o*x.p; }";

/// The stages of a predicate within these limits; none where it has no polynomial.
fn staged(alloc: Global, p: &Pred, most: u64, heavy: u32) -> Option<Result<Stages, StageStop>>
    ensures { IfSome result (λ r. IfOk r (λ st. st.sites ≡ p.now.shape.sites)) }
{
    match poly_of(alloc, p) {
        Ok(f) => Some(stages(alloc, &f, &p.shape, most, u64::from(heavy))),
        Err(_) => None,
    }
}

/// The stages of the one predicate, which has this many sites.
fn staged_one(
    alloc: Global,
    preds: &[Pred],
    sites: u8,
    most: u64,
    heavy: u32,
) -> Option<Result<Stages, StageStop>>
    ensures { IfSome result (λ r. IfOk r (λ st. st.sites ≡ sites)) }
{
    match preds {
        [p] if p.shape.sites == sites => staged(alloc, p, most, heavy),
        _ => None,
    }
}

/// The stages of the one predicate of a source, which has this many sites, within these limits, if it has one.
pub(crate) fn stages_of(
    alloc: Global,
    source: &str,
    sites: u8,
    most: u64,
    heavy: u32,
) -> Option<Result<Stages, StageStop>>
    ensures { IfSome result (λ r. IfOk r (λ st. st.sites ≡ sites)) }
{
    match table(alloc, source) {
        Some(t) => staged_one(alloc, t.preds.as_slice(), sites, most, heavy),
        None => None,
    }
}

/// Has the block with this number the one pair of variable v and exponent e?
fn is_power(st: &Stages, i: usize, v: u8, e: u8) -> bool {
    i < st.blocks() && st.exps(i).pairs() == [(v, e)].as_slice()
}

/// Is the segment of an order of two sites at its first j places this?
fn is_segment(st: &Stages, indices: &[i64], j: u8, numbers: &[u32]) -> bool
    requires sites { st.now.sites ≡ 2 }
    requires indices { length indices.now ≡ 2 }
    requires within { j ≤ 2 }
{
    match order_of(indices) {
        Ok(o) => st.segment(&o, j) == numbers,
        Err(_) => false,
    }
}

/// Have the two orders these segments? Their lists are three long each; each second segment comes after the cut.
fn have_segments(st: &Stages) -> bool
    requires { st.now.sites ≡ 2 }
{
    st.segments().len() == 5
        && is_segment(st, &[5, 8], 0, &[0])
        && is_segment(st, &[5, 8], 1, &[1, 2])
        && is_segment(st, &[5, 8], 2, &[])
        && is_segment(st, &[8, 5], 0, &[0])
        && is_segment(st, &[8, 5], 1, &[3, 4])
        && is_segment(st, &[8, 5], 2, &[])
}

/// Are the blocks after block 0 those of a.t, a.t^2, b.t and b.t^2?
fn have_powers(st: &Stages) -> bool {
    st.blocks() == 5
        && is_power(st, 1, 0, 1)
        && is_power(st, 2, 0, 2)
        && is_power(st, 3, 1, 1)
        && is_power(st, 4, 1, 2)
}

/// Have the squares six stages in the five blocks and segments of their lists?
fn are_of_squares(alloc: Global) -> bool {
    match stages_of(alloc, SQUARES, 2, 6, 6) {
        Some(Ok(st)) => st.count() == 6 && have_powers(&st) && have_segments(&st),
        _ => false,
    }
}

#[test]
fn two_lists_of_three_have_five_blocks(rt: HostRuntime) {
    assert!(rt; are_of_squares(rt.alloc()));
}

/// How many stages a source has within these limits, if it has one predicate.
fn count(
    alloc: Global,
    source: &str,
    sites: u8,
    most: u64,
    heavy: u32,
) -> Option<Result<u64, StageStop>> {
    match stages_of(alloc, source, sites, most, heavy)? {
        Ok(st) => Some(Ok(st.count())),
        Err(stop) => Some(Err(stop)),
    }
}

/// Does a limit stop the stages of a source?
fn is_past(alloc: Global, source: &str, sites: u8, most: u64, heavy: u32) -> bool {
    matches!(
        count(alloc, source, sites, most, heavy),
        Some(Err(StageStop::Stages))
    )
}

#[test]
fn a_limit_that_is_passed_stops(rt: HostRuntime) {
    let alloc = rt.alloc();
    assert!(rt;
        is_past(alloc, SQUARES, 2, 5, 6)
            && is_past(alloc, SQUARES, 2, 6, 5)
            && matches!(count(alloc, NOTHING, 2, 6, 6), Some(Err(StageStop::Zero)))
    );
}

#[test]
fn sixteen_coordinates_have_65536_stages(rt: HostRuntime) {
    let alloc = rt.alloc();
    assert!(rt;
        matches!(count(alloc, CUBE, 1, 65_536, 131_072), Some(Ok(65_536)))
            && is_past(alloc, CUBE, 1, 65_535, 131_072)
    );
}
