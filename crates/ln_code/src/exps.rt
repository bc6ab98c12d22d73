//! Pairs of a variable and an exponent, as a line has them: whether they are exponents, and of coordinates of sites.
ghost use Rattle.std.specs.Prelude.{◌≡◌, ◌↔◌, IfOk, IsTrue, MatchOption, slice_get};
ghost use Rattle.ln_tree.specs.Exps.{IsAbove, IsRising};
ghost use Rattle.ln_code.specs.Kept.{AreOfSites, is_of_site};

use ln_base::NoMemory;
use ln_tree::{Exps, VarInfo};
use std::alloc::Global;

// Is the variable a coordinate of a site?
fn is_of_site(vars: &[VarInfo], v: u8) -> bool
    ensures { result ≡ is_of_site (slice_get vars.now v) }
{
    match vars.get(usize::from(v)).copied() {
        Some(i) => i.site.is_some(),
        None => false,
    }
}

/// Are the variables coordinates of sites?
pub fn are_of_sites(vars: &[VarInfo], a: &[(u8, u8)]) -> bool
    ensures { IsTrue result ↔ AreOfSites vars.now a.now }
{
    'pairs: for p in a {
        if !is_of_site(vars, p.0) {
            return false;
        }
    }
    true
}

/// Is each variable below n?
pub fn are_below(a: &[(u8, u8)], n: usize) -> bool
    ensures { IsTrue result ↔ IsAbove a.now n }
{
    'pairs: for p in a {
        if usize::from(p.0) >= n {
            return false;
        }
    }
    true
}

/// The exponents, where the variables rise and each exponent is from 1 to 127.
pub fn exps_of(alloc: Global, a: &[(u8, u8)]) -> Result<Option<Exps>, NoMemory>
    ensures { IfOk result (λ o. MatchOption o (IsRising a.now → ⊥) (λ e. (e ≡ a.now) × IsRising a.now)) }
{
    let mut out = Exps::new(alloc);
    'pairs: for p in a {
        if p.1 == 0 {
            return Ok(None);
        }
        if p.1 > 127 {
            return Ok(None);
        }
        if !are_below(out.pairs(), usize::from(p.0)) {
            return Ok(None);
        }
        out.push(p.0, p.1)?;
    }
    Ok(Some(out))
}
