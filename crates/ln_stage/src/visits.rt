//! What is listed at one prefix of the orders of the sites.
ghost use Rattle.std.specs.Prelude.{◌≡◌, ◌<◌, ◌||◌, ◌&&◌, IfOk, IfErr, length, nat_lt, replicate, [], false};
ghost use Rattle.std.specs.List.{range_with_len};
ghost use Rattle.ln_order.specs.Fronts.{front_places};
ghost use Rattle.ln_order.specs.Prefixes.{IsPrefixOf};
ghost use Rattle.ln_poly.specs.Sparse.{AreBelow, AreRising};
ghost use Rattle.ln_stage.specs.Graded.{cut_by, found_at, segment_by};
ghost use Rattle.ln_stage.specs.Tally.{EndsAs, IsOver, IsStoppedBy, see_all};
ghost use Rattle.ln_stage.specs.Visit.{IsStart, cut_before};

use crate::layers::layers;
use crate::stop::StageStop;
use crate::tally::Tally;
use crate::walk::{walk, walk_site};
use ln_base::{NoMemory, Seq};
use ln_order::{Front, front_ranking, vars_of_site};
use ln_tree::{Exps, Shape};
use std::alloc::Global;

// The places of n terms.
fn places(alloc: Global, n: usize) -> Result<Vec<usize>, NoMemory>
    ensures { IfOk result (λ r. r.items ≡ range_with_len 0 n) }
{
    let mut places = Vec::new(alloc);
    'places: for i in 0..n {
        places.push(i)?;
    }
    Ok(places)
}

// The vector of n exponents that are all 0.
fn zeros(alloc: Global, n: usize) -> Result<Vec<u8>, NoMemory>
    ensures { IfOk result (λ r. r.items ≡ replicate n 0) }
{
    Ok(vec![in alloc; 0u8; n]?)
}

// What a walk at a prefix starts from: the variables by rising infinitesimal, the places of all terms, and no exponent.
#[derive(Drop)]
struct WalkStart {
    vars: Seq<u8>,
    kept: Vec<usize>,
    exps: Vec<u8>,
}

fn start(alloc: Global, f: &[(Exps, i128)], s: &Shape, p: &Front) -> Result<WalkStart, NoMemory>
    requires prefix { IsPrefixOf s.now.sites (front_places p.now) }
    requires below { AreBelow (length s.now.vars) f.now }
    requires rising { AreRising f.now }
    requires some { 0 < length f.now }
    ensures { IfOk result (λ w. IsStart s.now.vars f.now (front_places p.now) w.vars w.kept.items w.exps.items) }
{
    let vars = front_ranking(alloc, p, s)?;
    let kept = places(alloc, f.len())?;
    let exps = zeros(alloc, s.vars.len())?;
    Ok(WalkStart { vars, kept, exps })
}

// Is nothing listed at a prefix? So it is after the cut, and by degree at any prefix but a whole order.
fn is_left_out(s: &Shape, p: &Front, by_degree: bool, cut: bool) -> bool
    ensures { result ≡ (cut || (by_degree && nat_lt (length (front_places p.now)) s.now.sites)) }
{
    cut || by_degree && p.places().len() < usize::from(s.sites)
}

// Lists a prefix that isn't left out, from the start of a walk there: by degree the whole list of an order, else the stages that need the
// prefix's last site and none after it. Returns whether the cut is here.
fn visit_from(
    f: &[(Exps, i128)],
    s: &Shape,
    p: &Front,
    by_degree: bool,
    w: &WalkStart,
    tally: &mut Tally,
) -> Result<bool, StageStop>
    requires prefix { IsPrefixOf s.now.sites (front_places p.now) }
    requires start { IsStart s.now.vars f.now (front_places p.now) w.now.vars w.now.kept.items w.now.exps.items }
    requires before { cut_before (cut_by by_degree s.now.sites s.now.vars f.now) (front_places p.now) ≡ false }
    requires whole { (by_degree && nat_lt (length (front_places p.now)) s.now.sites) ≡ false }
    ensures ok { IfOk result (λ c. EndsAs (length s.now.vars) f.now tally.new ([], c) tally.old
        (found_at by_degree s.now.sites s.now.vars f.now (front_places p.now))) }
    ensures err { IfErr result (λ e. IsStoppedBy e (IsOver (see_all (length s.now.vars) f.now tally.old
        (segment_by by_degree s.now.sites s.now.vars f.now (front_places p.now))))) }
{
    let vars = w.vars.as_slice();
    let kept = w.kept.as_slice();
    let exps = w.exps.as_slice();
    if by_degree {
        layers(f, vars, kept, exps, tally)?;
        return Ok(false);
    }
    let sites = p.places();
    if sites.is_empty() {
        return walk(f, vars, kept, exps, 0, tally);
    }
    let last = vars_of_site(tally.alloc(), s, sites[sites.len() - 1])?;
    walk_site(f, vars, last.len(), kept, exps, tally)
}

// The stages at a prefix, by one order of infinitesimals or the other. Nothing is listed where the cut is before; returns whether it is here
// or before. By total degree there is no cut before, and nothing is listed but at a whole order.
pub(crate) fn visit_by(
    f: &[(Exps, i128)],
    s: &Shape,
    p: &Front,
    by_degree: bool,
    cut: bool,
    tally: &mut Tally,
) -> Result<bool, StageStop>
    requires prefix { IsPrefixOf s.now.sites (front_places p.now) }
    requires below { AreBelow (length s.now.vars) f.now }
    requires rising { AreRising f.now }
    requires some { 0 < length f.now }
    requires before { cut ≡ cut_before (cut_by by_degree s.now.sites s.now.vars f.now) (front_places p.now) }
    ensures ok { IfOk result (λ c. EndsAs (length s.now.vars) f.now tally.new ([], c) tally.old
        (found_at by_degree s.now.sites s.now.vars f.now (front_places p.now))) }
    ensures err { IfErr result (λ e. IsStoppedBy e (IsOver (see_all (length s.now.vars) f.now tally.old
        (segment_by by_degree s.now.sites s.now.vars f.now (front_places p.now))))) }
{
    if is_left_out(s, p, by_degree, cut) {
        return Ok(cut);
    }
    let w = start(tally.alloc(), f, s, p)?;
    visit_from(f, s, p, by_degree, &w, tally)
}
