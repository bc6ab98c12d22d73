//! The order of exponents, and the variables of sites by rising infinitesimal.
ghost use Rattle.std.specs.Ordering.{nat_cmp};
ghost use Rattle.std.specs.Prelude.{◌≡◌, ◌↔◌, ◌<◌, ◌≤◌, ◌+◌, ◌++◌, length, IsTrue, IfOk, OnOk};
ghost use Rattle.ln_algebra.specs.Earlier.{Earlier};
ghost use Rattle.ln_algebra.specs.Walk.{IsRanking};
ghost use Rattle.ln_tree.specs.Exps.{IsRising, exponent, vector};
ghost use Rattle.ln_order.specs.Fronts.{front_places};
ghost use Rattle.ln_order.specs.Places.{order_places};
ghost use Rattle.ln_order.specs.Sites.{OrdersAreThoseOfRows, along, ranking_of, sites_of, vars_of};

use crate::front::Front;
use crate::order::Order;
use ln_base::{NoMemory, Seq};
use ln_tree::layout::same_site;
use ln_tree::{Exps, Shape, VarInfo, exponent_of};
use std::alloc::Global;
use std::cmp::Ordering;

// The order of the exponents of one variable.
fn at_var(a: &[(u8, u8)], b: &[(u8, u8)], v: u8) -> Ordering
    requires left { IsRising a.now }
    requires right { IsRising b.now }
    ensures { result ≡ nat_cmp (exponent v a.now) (exponent v b.now) }
{
    exponent_of(a, v).cmp(&exponent_of(b, v))
}

// The order of two exponents at the first variable of a site where they differ.
fn at_site(vars: &[VarInfo], site: u8, a: &[(u8, u8)], b: &[(u8, u8)]) -> Ordering
    requires few { length vars.now ≤ 168 }
    requires left { IsRising a.now }
    requires right { IsRising b.now }
    ensures { result ≡ along (vars_of site vars.now 0) a.now b.now }
{
    'vars: for (v, i) in vars.iter().enumerate() {
        if same_site(i.site, Some(site)) {
            match at_var(a, b, v as u8) {
                Ordering::Equal => {}
                order => return order,
            }
        }
    }
    Ordering::Equal
}

/// Is a earlier than b in this order of the sites? It is where a has the smaller exponent at the smallest infinitesimal
/// in which the two differ. It allocates nothing.
pub fn earlier(o: &Order, s: &Shape, a: &Exps, b: &Exps) -> bool
    requires { length (order_places o.now) ≡ s.now.sites }
    ensures { IsTrue result
        ↔ Earlier (sites_of s.now.vars (order_places o.now)) (vector (length s.now.vars) a.now) (vector (length s.now.vars) b.now) }
{
    let vars = s.vars.as_slice();
    let places = o.places();
    let n = places.len();
    'sites: for k in 0..n {
        match at_site(vars, places[n - 1 - k], a.pairs(), b.pairs()) {
            Ordering::Equal => {}
            order => return order == Ordering::Less,
        }
    }
    false
}

// Appends the variables of a site.
fn put_vars(out: &mut Vec<u8>, vars: &[VarInfo], site: u8) -> Result<(), NoMemory>
    requires { length vars.now ≤ 168 }
    ensures { OnOk result (out.new.items ≡ out.old.items ++ vars_of site vars.now 0) }
{
    'vars: for (v, i) in vars.iter().enumerate() {
        if same_site(i.site, Some(site)) {
            out.push(v as u8)?;
        }
    }
    Ok(())
}

// The variables of the sites at these places, those of the last one first.
fn ranked(alloc: Global, places: &[u8], s: &Shape) -> Result<Seq<u8>, NoMemory>
    ensures { IfOk result (λ vs. vs ≡ ranking_of s.now.vars places.now) }
{
    let vars = s.vars.as_slice();
    let n = places.len();
    let mut out = Vec::new(alloc);
    'sites: for k in 0..n {
        put_vars(&mut out, vars, places[n - 1 - k])?;
    }
    Ok(Seq::from_vec(out))
}

/// All variables of sites, by rising infinitesimal in this order of the sites.
pub fn ranking(alloc: Global, o: &Order, s: &Shape) -> Result<Seq<u8>, NoMemory>
    requires { length (order_places o.now) ≡ s.now.sites }
    ensures ranked { IfOk result (λ vs. IsRanking (length s.now.vars) (sites_of s.now.vars (order_places o.now)) vs) }
    ensures value { IfOk result (λ vs. vs ≡ ranking_of s.now.vars (order_places o.now)) }
{
    ranked(alloc, o.places(), s)
}

/// The variables of the sites of a prefix, by rising infinitesimal in it.
pub fn front_ranking(alloc: Global, p: &Front, s: &Shape) -> Result<Seq<u8>, NoMemory>
    ensures { IfOk result (λ vs. vs ≡ ranking_of s.now.vars (front_places p.now)) }
{
    ranked(alloc, p.places(), s)
}

/// The variables of a site.
pub fn vars_of_site(alloc: Global, s: &Shape, site: u8) -> Result<Seq<u8>, NoMemory>
    ensures { IfOk result (λ vs. vs ≡ vars_of site s.now.vars 0) }
{
    ranked(alloc, &[site], s)
}

/// The order of a row's sites implies the same order of exponents as the row's own indices.
///
/// On it rests that a row is decided by the stage list of its order.
pub fn orders_are_those_of_rows()
    ensures { OrdersAreThoseOfRows }
{}
