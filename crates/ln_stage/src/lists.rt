//! The segments of all prefixes of orders of the sites, and the stage lists by total degree first.
ghost use Rattle.std.specs.Prelude.{◌≡◌, ◌≢◌, ◌<◌, ◌≤◌, ◌+◌, ◌*◌, ◌^◌, ◌⊎◌, IfOk, IfErr, OnOk, length, map, []};
ghost use Rattle.ln_algebra.specs.Orders.{ByDegree};
ghost use Rattle.ln_order.specs.Fronts.{front_places};
ghost use Rattle.ln_order.specs.Orders.{orders_of};
ghost use Rattle.ln_order.specs.Prefixes.{IsPrefixOf, prefixes_of};
ghost use Rattle.ln_poly.specs.Sparse.{AreBelow, AreRising};
ghost use Rattle.ln_stage.specs.FirstSight.{shared_count};
ghost use Rattle.ln_stage.specs.Graded.{AreGradedStagesOf, AreStagesBy, cut_by, rank_of, segment_by};
ghost use Rattle.ln_stage.specs.Kept.{tallied_by};
ghost use Rattle.ln_stage.specs.Lists.{stage_count, stage_weight};
ghost use Rattle.ln_stage.specs.Staged.{AreStagesOf, StopsListing, StopsListingIn, vectors_of};
ghost use Rattle.ln_stage.specs.Tally.{IsOver, IsStoppedBy, next_list, see_all};
ghost use Rattle.ln_stage.specs.Visit.{AreCuts, AreListed, cut_in};

use crate::stop::StageStop;
use crate::table::Stages;
use crate::tally::Tally;
use crate::visits::visit_by;
use ln_base::Seq;
use ln_order::{Front, all_prefixes};
use ln_poly::{Poly, is_zero};
use ln_tree::{Exps, Shape};
use std::alloc::Global;

// Is the cut before the prefix of this length?
fn before(cuts: &[bool], n: usize) -> bool
    requires { n ≤ length cuts.now }
    ensures { result ≡ cut_in cuts.now n }
{
    if n == 0 {
        return false;
    }
    cuts[n - 1]
}

// The segment of a prefix, as numbers of blocks.
fn segment(
    f: &[(Exps, i128)],
    s: &Shape,
    p: &Front,
    by_degree: bool,
    cuts: &mut [bool; 6],
    tally: &mut Tally,
) -> Result<Seq<u32>, StageStop>
    requires prefix { IsPrefixOf s.now.sites (front_places p.now) }
    requires below { AreBelow (length s.now.vars) f.now }
    requires rising { AreRising f.now }
    requires some { 0 < length f.now }
    requires cuts { AreCuts (cut_by by_degree s.now.sites s.now.vars f.now) (length (front_places p.now)) (front_places p.now) cuts.old }
    ensures list { IfOk result (λ l. l ≡ (see_all (length s.now.vars) f.now tally.old
        (segment_by by_degree s.now.sites s.now.vars f.now (front_places p.now))).list) }
    ensures rest { OnOk result (tally.new ≡ next_list (see_all (length s.now.vars) f.now tally.old
        (segment_by by_degree s.now.sites s.now.vars f.now (front_places p.now)))) }
    ensures cuts { OnOk result (AreCuts (cut_by by_degree s.now.sites s.now.vars f.now)
        (length (front_places p.now) + 1) (front_places p.now) cuts.new) }
    ensures err { IfErr result (λ e. IsStoppedBy e (IsOver (see_all (length s.now.vars) f.now tally.old
        (segment_by by_degree s.now.sites s.now.vars f.now (front_places p.now))))) }
{
    let n = p.places().len();
    let cut = before(cuts, n);
    let here = visit_by(f, s, p, by_degree, cut, tally)?;
    cuts[n] = here;
    Ok(tally.take_list())
}

// How many orders k sites have.
fn orders(k: u8) -> u64
    requires { k ≤ 5 }
    ensures value { result ≡ length (orders_of k) }
    ensures few { result ≤ 120 }
{
    match k {
        0 | 1 => 1,
        2 => 2,
        3 => 6,
        4 => 24,
        _ => 120,
    }
}

// The count with the stages of one segment more, which is in `lists` lists.
fn with_segment(count: u64, stages: usize, lists: u64, most: u64) -> Result<u64, StageStop>
    requires few { lists ≤ 120 }
    ensures ok { IfOk result (λ n. n ≡ count + lists * stages) }
    ensures within { IfOk result (λ n. n ≤ most) }
    ensures err { IfErr result (λ e. IsStoppedBy e (most < count + lists * stages)) }
{
    let all = u128::from(count) + u128::from(lists) * stages as u128;
    if all > u128::from(most) {
        return Err(StageStop::Stages);
    }
    Ok(all as u64)
}

// The segments of these prefixes, and how many stages there are in all lists.
fn listed(
    f: &[(Exps, i128)],
    s: &Shape,
    prefixes: &[Front],
    most: u64,
    by_degree: bool,
    tally: &mut Tally,
) -> Result<(Seq<Seq<u32>>, u64), StageStop>
    requires prefixes { map front_places prefixes.now ≡ prefixes_of s.now.sites }
    requires below { AreBelow (length s.now.vars) f.now }
    requires rising { AreRising f.now }
    requires some { 0 < length f.now }
    requires empty { tally.old.list ≡ [] }
    ensures ok { IfOk result (λ r. AreListed (segment_by by_degree s.now.sites s.now.vars f.now) s.now.sites (length s.now.vars) f.now
        tally.old most r.0 r.1 tally.new) }
    ensures err { IfErr result (λ e. IsStoppedBy e
        (IsOver (tallied_by (segment_by by_degree s.now.sites s.now.vars f.now) (length s.now.vars) f.now tally.old (prefixes_of s.now.sites))
        ⊎ (most < shared_count s.now.sites (segment_by by_degree s.now.sites s.now.vars f.now) (prefixes_of s.now.sites)))) }
{
    let mut cuts = [false; 6];
    let mut segments = Seq::new(tally.alloc());
    let mut count = 0;
    'prefixes: for p in prefixes {
        let list = segment(f, s, p, by_degree, &mut cuts, tally)?;
        let left = s.sites - p.places().len() as u8;
        let stages = list.len();
        segments.push(list)?;
        let more = with_segment(count, stages, orders(left), most)?;
        count = more;
    }
    Ok((segments, count))
}

// The stages of a polynomial over a shape, by one order of infinitesimals or the other.
fn stages_by(
    alloc: Global,
    f: &Poly,
    s: &Shape,
    most: u64,
    heavy: u64,
    by_degree: bool,
) -> Result<Stages, StageStop>
    requires below { AreBelow (length s.now.vars) f.now }
    requires heavy { heavy < 2 ^ 32 }
    ensures some { IfOk result (λ st. f.now ≢ []) }
    ensures stages { IfOk result (λ st. AreStagesBy by_degree s.now.sites s.now.vars f.now st) }
    ensures count { IfOk result (λ st. stage_count (vectors_of (length s.now.vars) st) ≤ most) }
    ensures weight { IfOk result (λ st. stage_weight (length s.now.vars) f.now (vectors_of (length s.now.vars) st) ≤ heavy) }
    ensures err { IfErr result (StopsListingIn (rank_of by_degree) s.now.sites s.now.vars f.now most heavy) }
{
    if is_zero(f) {
        return Err(StageStop::Zero);
    }
    let terms = f.terms();
    let prefixes = all_prefixes(alloc, s.sites)?;
    let mut tally = Tally::new(alloc, most, heavy);
    let found = listed(terms, s, prefixes.as_slice(), most, by_degree, &mut tally)?;
    let (segments, count) = found;
    let blocks = tally.into_blocks()?;
    Ok(Stages::of(s.sites, blocks, segments, count))
}

/// The stages of a polynomial over a shape: for each order of the sites its stage list, kept in segments, with the blocks
/// numbered in order of first sight.
///
/// The stage list of an order is all exponents over the variables of sites that some monomial covers, from the earliest
/// on, up to the first that is a monomial which no other covers. `Zero` says that the polynomial has no term, `Stages` that it has one and its
/// stage count exceeds `most` or its stage weight exceeds `heavy`.
pub fn stages(
    alloc: Global,
    f: &Poly,
    s: &Shape,
    most: u64,
    heavy: u64,
) -> Result<Stages, StageStop>
    requires below { AreBelow (length s.now.vars) f.now }
    requires heavy { heavy < 2 ^ 32 }
    ensures some { IfOk result (λ st. f.now ≢ []) }
    ensures stages { IfOk result (λ st. AreStagesOf s.now.sites s.now.vars f.now st) }
    ensures count { IfOk result (λ st. stage_count (vectors_of (length s.now.vars) st) ≤ most) }
    ensures weight { IfOk result (λ st. stage_weight (length s.now.vars) f.now (vectors_of (length s.now.vars) st) ≤ heavy) }
    ensures err { IfErr result (StopsListing s.now.sites s.now.vars f.now most heavy) }
{
    stages_by(alloc, f, s, most, heavy, false)
}

/// The stages of a polynomial over a shape by total degree first: for each order of the sites its stage list in that order of infinitesimals,
/// with the blocks numbered in order of first sight. A list is kept whole at its order; shorter prefixes have nothing.
///
/// `Zero` says that the polynomial has no term, `Stages` that it has one and the count of these stages exceeds `most` or their weight exceeds
/// `heavy`.
pub fn graded_stages(
    alloc: Global,
    f: &Poly,
    s: &Shape,
    most: u64,
    heavy: u64,
) -> Result<Stages, StageStop>
    requires below { AreBelow (length s.now.vars) f.now }
    requires heavy { heavy < 2 ^ 32 }
    ensures some { IfOk result (λ st. f.now ≢ []) }
    ensures stages { IfOk result (λ st. AreGradedStagesOf s.now.sites s.now.vars f.now st) }
    ensures count { IfOk result (λ st. stage_count (vectors_of (length s.now.vars) st) ≤ most) }
    ensures weight { IfOk result (λ st. stage_weight (length s.now.vars) f.now (vectors_of (length s.now.vars) st) ≤ heavy) }
    ensures err { IfErr result (StopsListingIn ByDegree s.now.sites s.now.vars f.now most heavy) }
{
    stages_by(alloc, f, s, most, heavy, true)
}
