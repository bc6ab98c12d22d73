//! The exponents of an `at` line.
ghost use Rattle.std.specs.Prelude.{◌≡◌, IfOk, MatchOption};
ghost use Rattle.ln_tree.specs.Exps.{IsRising};
ghost use Rattle.ln_code.specs.Kept.{AreOfSites};

use ln_base::NoMemory;
use ln_code::are_of_sites;
use ln_tree::{Exps, VarInfo};
use std::alloc::Global;

/// The exponents, where the variables rise and are coordinates of sites, and each exponent is from 1 to 127.
pub fn exps_of(alloc: Global, vars: &[VarInfo], a: &[(u8, u8)]) -> Result<Option<Exps>, NoMemory>
    ensures { IfOk result (λ o. MatchOption o (IsRising a.now → AreOfSites vars.now a.now → ⊥)
        (λ e. (e ≡ a.now) × IsRising a.now × AreOfSites vars.now a.now)) }
{
    if !are_of_sites(vars, a) {
        return Ok(None);
    }
    ln_code::exps_of(alloc, a)
}
