//! The tests that a shape and its numbering rest on.
ghost use Rattle.std.specs.Prelude.{position, ◌≡◌, ◌<◌, length, true, count_by};
ghost use Rattle.std.specs.List.{list_all};
ghost use Rattle.ln_tree.specs.Variables.{is_var, number_or_end, same_site, has_range, begins, goes_on};
ghost use Rattle.ln_tree.specs.Variables.{sites_behind, in_order, no_var, starts_site, is_param, is_laid_out};

use crate::expr::Var;
use crate::shape::VarInfo;

fn is_var(i: &VarInfo, v: Var) -> bool
    ensures { result ≡ is_var v.arg v.coord i.now }
{
    i.arg == v.arg && i.coord == v.coord
}

fn place_in(vars: &[VarInfo], v: Var) -> Option<usize>
    ensures { result ≡ position (is_var v.arg v.coord) vars.now }
{
    'each: for (k, i) in vars.iter().enumerate() {
        if is_var(i, v) {
            return Some(k);
        }
    }
    None
}

/// The number of a variable, from 0; where there is no such variable, how many there are.
pub fn number_in(vars: &[VarInfo], v: Var) -> usize
    ensures { result ≡ number_or_end vars.now v.arg v.coord }
{
    match place_in(vars, v) {
        Some(number) => number,
        None => vars.len(),
    }
}

/// The same site, or no site both?
pub fn same_site(a: Option<u8>, b: Option<u8>) -> bool
    ensures { result ≡ same_site a b }
{
    match (a, b) {
        (None, None) => true,
        (Some(s), Some(t)) => s == t,
        _ => false,
    }
}

fn has_range(i: &VarInfo) -> bool
    ensures { result ≡ has_range i.now }
{
    i.lo <= i.hi && i.lo > i64::MIN
}

// Does i begin argument a, after s sites?
fn begins(a: u8, s: u8, i: &VarInfo) -> bool
    ensures { result ≡ begins a s i.now }
{
    i.arg == a && (i.site.is_none() || same_site(i.site, Some(s)))
}

// Is i the next coordinate of the site of b?
fn goes_on(b: &VarInfo, i: &VarInfo) -> bool
    ensures { result ≡ goes_on b.now i.now }
{
    i.arg == b.arg
        && b.site.is_some()
        && same_site(i.site, b.site)
        && u16::from(i.coord) == u16::from(b.coord) + 1
        && i.coord < 32
}

// How many sites there are once i begins an argument, where s come before it.
fn sites_behind(s: u8, i: &VarInfo) -> u8
    requires { s < 255 }
    ensures { result ≡ sites_behind s i.now }
{
    if i.site.is_some() { s + 1 } else { s }
}

fn in_order(vars: &[VarInfo]) -> bool
    requires { length vars.now < 200 }
    ensures { result ≡ in_order 0 0 no_var vars.now }
{
    let mut args = 0u8;
    let mut sites = 0u8;
    let mut before = VarInfo {
        arg: 0,
        site: None,
        coord: 0,
        lo: 0,
        hi: 0,
    };
    'vars: for i in vars {
        if i.coord == 0 {
            if !begins(args, sites, i) {
                return false;
            }
            args += 1;
            sites = sites_behind(sites, i);
        } else if !goes_on(&before, i) {
            return false;
        }
        before = *i;
    }
    true
}

/// Is it the first coordinate of a site?
pub fn starts_site(i: &VarInfo) -> bool
    ensures { result ≡ starts_site i.now }
{
    i.site.is_some() && i.coord == 0
}

fn starting_sites(vars: &[VarInfo]) -> usize
    ensures { result ≡ count_by starts_site vars.now }
{
    let mut n = 0usize;
    'each: for i in vars {
        n += usize::from(starts_site(i));
    }
    n
}

fn params(vars: &[VarInfo]) -> usize
    ensures { result ≡ count_by is_param vars.now }
{
    let mut n = 0usize;
    'each: for i in vars {
        n += usize::from(i.site.is_none());
    }
    n
}

fn have_ranges(vars: &[VarInfo]) -> bool
    ensures { result ≡ list_all has_range vars.now }
{
    'each: for i in vars {
        if !has_range(i) {
            return false;
        }
    }
    true
}

/// Are these the variables of a shape with this many sites? They are in order of the arguments, for a site its
/// coordinates in declared order; there are at most 5 sites of at most 32 coordinates and at most 8 params; the
/// ranges are in order.
pub fn is_shape(sites: u8, vars: &[VarInfo]) -> bool
    ensures { result ≡ is_laid_out sites vars.now }
{
    vars.len() <= 168
        && in_order(vars)
        && have_ranges(vars)
        && starting_sites(vars) == usize::from(sites)
        && sites <= 5
        && params(vars) <= 8
}
