//! The arguments of a predicate and their variables.
ghost use Rattle.std.specs.Prelude.{◌≡◌, ◌≤◌, ◌<◌, true, [], Some, ◌+◌, ◌∷◌, ◌++◌, suc, List, length, map, count_by, slice_get, IfOk, OnOk, IfSome, unwrap_or};
ghost use Rattle.std.specs.List.{filter_map, position_from, list_all};
ghost use Rattle.ln_syntax.specs.Raw.{item, items, same};
ghost use Rattle.ln_tree.specs.Table.{ArgOf, arg_of, coord_of, site_of, param_of};
ghost use Rattle.ln_names.specs.Limits.{Each};
ghost use Rattle.ln_parse.specs.Ready.{ReadyArg, is_good_site};
ghost use Rattle.ln_parse.specs.Says.{arg_said, name_if, site_names, param_names, site_vars, param_vars, coords_or, vars_behind, is_site_said};

use crate::name::name_at;
use crate::predicate::Scene;
use ln_base::{NoMemory, Seq, Span};
use ln_names::spans::same;
use ln_syntax::{RawArg, RawItem};
use ln_tree::{Arg, Coord, Param, Site, VarInfo};
use std::alloc::Global;

/// The variables of a predicate, and how many sites it has.
#[derive(Drop)]
pub struct Layout {
    pub vars: Seq<VarInfo>,
    pub sites: u8,
}

/// The arguments of a predicate, resolved among the items before it.
#[tactic(auto, using(crate::proofs::Building::Lists::one_mapped, crate::proofs::Building::Lists::all_mapped, crate::proofs::Building::Loops::each_or))]
pub fn args(alloc: Global, s: &Scene) -> Result<Seq<Arg>, NoMemory>
    requires ready { Each (λ before a. ReadyArg s.now.bytes.now (items s.now.items.now) a) [] s.now.args.now }
    requires sites { length (site_names (items s.now.items.now)) ≤ 16 }
    requires params { length (param_names (items s.now.items.now)) ≤ 16 }
    ensures { IfOk result (λ xs. map arg_of xs ≡ map (λ a. arg_said s.now.bytes.now (items s.now.items.now) a a.is_param) s.now.args.now) }
{
    let raw = s.args;
    let mut args = Seq::new(alloc);
    'args: for a in raw {
        args.push(arg(s.bytes, s.items, *a))?;
    }
    Ok(args)
}

fn arg(bytes: &[u8], before: &[RawItem], a: RawArg) -> Arg
    requires ready { ReadyArg bytes.now (items before.now) a }
    requires sites { length (site_names (items before.now)) ≤ 16 }
    requires params { length (param_names (items before.now)) ≤ 16 }
    ensures { arg_of result ≡ arg_said bytes.now (items before.now) a a.is_param }
{
    if a.is_param {
        return Arg::Param(or_zero(number_of(bytes, before, true, a.name)));
    }
    Arg::Site(
        name_at(bytes, a.name),
        or_zero(number_of(bytes, before, false, a.kind)),
    )
}

// The number of the param of this name, or of the site type.
fn number_of(bytes: &[u8], before: &[RawItem], is_param: bool, at: Span) -> Option<usize>
    ensures { result ≡ position_from (λ n. same bytes.now n at) 0 (filter_map (λ i. name_if is_param (item i)) before.now) }
{
    let mut n = 0usize;
    'items: for it in before {
        let Some(name) = name_if(it, is_param) else {
            continue;
        };
        if same(bytes, name, at) {
            return Some(n);
        }
        n += 1;
    }
    None
}

// The name of a param, or of a site type.
fn name_if(it: &RawItem, is_param: bool) -> Option<Span>
    ensures { result ≡ name_if is_param (item it.now) }
{
    match it {
        RawItem::Site(name, _) => if is_param { None } else { Some(*name) },
        RawItem::Param(name, _) => if is_param { Some(*name) } else { None },
        RawItem::Pred(_, _, _, _) => None,
    }
}

/// The variables of arguments, in order of the arguments, for a site its coordinates in declared order.
pub fn laid_out(
    alloc: Global,
    sites: &[Site],
    params: &[Param],
    args: &[Arg],
) -> Result<Layout, NoMemory>
    requires good { list_all is_good_site (map site_of sites.now) ≡ true }
    requires few { length args.now ≤ 13 }
    requires site_args { count_by is_site_said (map arg_of args.now) ≤ 5 }
    ensures vars { IfOk result (λ l. l.vars ≡ vars_behind (map site_of sites.now) (map param_of params.now) 0 0 (map arg_of args.now)) }
    ensures sites { IfOk result (λ l. l.sites ≡ count_by is_site_said (map arg_of args.now)) }
{
    let mut vars = Seq::new(alloc);
    let mut seen = 0u8;
    'args: for (k, a) in args.iter().enumerate() {
        seen = arg_vars(&mut vars, sites, params, k as u8, seen, a)?;
    }
    Ok(Layout { vars, sites: seen })
}

// Appends the variables of one argument, and returns how many sites there are with it.
fn arg_vars(
    vars: &mut Seq<VarInfo>,
    sites: &[Site],
    params: &[Param],
    k: u8,
    s: u8,
    a: &Arg,
) -> Result<u8, NoMemory>
    requires good { list_all is_good_site (map site_of sites.now) ≡ true }
    requires room { s < 255 }
    ensures vars { IfOk result (λ n. (rest : List ArgOf) → vars.new ++ vars_behind (map site_of sites.now)
        (map param_of params.now) (suc k) n rest ≡ vars.old ++ vars_behind (map site_of sites.now)
        (map param_of params.now) k s (arg_of a.now ∷ rest)) }
    ensures sites { IfOk result (λ n. (rest : List ArgOf) →
        n + count_by is_site_said rest ≡ s + count_by is_site_said (arg_of a.now ∷ rest)) }
{
    match a {
        Arg::Site(_, t) => {
            coords_vars(vars, k, s, coords_of(sites, *t))?;
            Ok(s + 1)
        }
        Arg::Param(p) => {
            param_var(vars, k, params, *p)?;
            Ok(s)
        }
    }
}

// The coordinates of the site type of this number.
fn coords_of(sites: &[Site], t: u8) -> &[Coord]
    requires good { list_all is_good_site (map site_of sites.now) ≡ true }
    ensures few { length result.now ≤ 32 }
    ensures coords { map coord_of result.now ≡ coords_or (slice_get (map site_of sites.now) t) }
{
    match sites.get(t as usize) {
        Some(site) => site.coords.as_slice(),
        None => &[],
    }
}

fn coords_vars(vars: &mut Seq<VarInfo>, k: u8, s: u8, coords: &[Coord]) -> Result<(), NoMemory>
    requires { length coords.now ≤ 32 }
    ensures { OnOk result (vars.new ≡ vars.old ++ site_vars k s 0 (map coord_of coords.now)) }
{
    'coords: for (c, x) in coords.iter().enumerate() {
        vars.push(VarInfo {
            arg: k,
            site: Some(s),
            coord: c as u8,
            lo: x.lo,
            hi: x.hi,
        })?;
    }
    Ok(())
}

fn param_var(vars: &mut Seq<VarInfo>, k: u8, params: &[Param], p: u8) -> Result<(), NoMemory>
    ensures { OnOk result (vars.new ≡ vars.old ++ param_vars k (slice_get (map param_of params.now) p)) }
{
    match params.get(p as usize) {
        Some(p) => {
            vars.push(var_of_param(k, p))?;
            Ok(())
        }
        None => Ok(()),
    }
}

fn var_of_param(k: u8, p: &Param) -> VarInfo
    ensures { result ∷ [] ≡ param_vars k (Some (param_of p.now)) }
{
    VarInfo {
        arg: k,
        site: None,
        coord: 0,
        lo: p.lo,
        hi: p.hi,
    }
}

// The place, or 0 where there is none.
fn or_zero(place: Option<usize>) -> u8
    requires { IfSome place (λ i. i < 256) }
    ensures { result ≡ unwrap_or place 0 }
{
    match place {
        Some(i) => i as u8,
        None => 0,
    }
}
