//! The results of operations: a value, where the rule of the line holds and what it would push is small.
//!
//! The rules on limits and running sizes are tested first, then exponents; only then a polynomial is worked out, which is known to fit.
ghost use Rattle.std.specs.Prelude.{◌≤◌, ℕ, List, Option, IfOk, OnSome, length, Some};
ghost use Rattle.ln_algebra.specs.Tree.{Tree};
ghost use Rattle.ln_interval.specs.Range.{most};
ghost use Rattle.ln_tree.specs.declared.shape.VarInfo.{VarInfo as Info};
ghost use Rattle.ln_poly.specs.Expansion.{IsNormal};
ghost use Rattle.ln_poly.specs.Sparse.{size_of};
ghost use Rattle.ln_verify.specs.BlockRules.{Version as AnyVersion};
ghost use Rattle.ln_verify.specs.Rules.{IsKnown, IsRule, IsSize};
ghost use Rattle.ln_verify.specs.Values.{IsFor, IsMade};
ghost use Rattle.ln_verify.specs.Versions.{version_of};

use crate::allowed::{input_size, joined_size, variable};
use crate::joined::joined;
use crate::limits::Limits;
use crate::shared_poly;
use crate::shared_poly::{SharedPoly, opposite, power};
use crate::value::Value;
use crate::version::Version;
use ln_base::NoMemory;
use ln_bound::{Two, Width};
use ln_interval::pair::MOST;
use ln_tree::VarInfo;
use std::alloc::Global;

// The limits, if any, where the running size is at most 2^127 - 1.
fn within<L: Limits>(found: Option<L>, size: u128) -> Option<L>
    ensures small { OnSome result (size ≤ most) }
    ensures rule { (s : ℕ) (t : Tree) (r : Option L.Known) → IsSize size s → IsRule L.known found t s r → IsKnown L.known result t s r }
{
    if size > MOST {
        return None;
    }
    found
}

// The value, where its polynomial has at most 1,024 terms.
fn kept<L: Limits>(limits: L, size: u128, poly: SharedPoly) -> Option<Value<L>>
    requires small { size ≤ most }
    requires heavy { size_of poly ≤ size }
    ensures { (n : ℕ) (t : Tree) → IsNormal n t poly → IsMade (IsFor L.known n) L.tree n result (Some (L.known limits t size)) }
{
    if poly.count() > 1024 {
        return None;
    }
    Some(Value { limits, size, poly })
}

/// Of a number.
pub fn number<L: Limits>(alloc: Global, c: i128, s: L::Said) -> Result<Option<Value<L>>, NoMemory>
    ensures { IfOk result (λ o. (v : AnyVersion) (vars : List Info) (n : ℕ) (b : L.Bound) → L.tells s b →
        IsMade (IsFor L.known n) L.tree n o ((L.rules v vars).push c b)) }
{
    let size = c.unsigned_abs();
    let Some(limits) = within(L::of_number(c, s), size) else {
        return Ok(None);
    };
    let h = shared_poly::number(alloc, c)?;
    Ok(kept(limits, size, h))
}

/// Of a variable.
pub fn input<L: Limits>(
    alloc: Global,
    version: Version,
    vars: &[VarInfo],
    k: u8,
    s: L::Said,
) -> Result<Option<Value<L>>, NoMemory>
    ensures { IfOk result (λ o. (b : L.Bound) → L.tells s b →
        IsMade (IsFor L.known (length vars.now)) L.tree (length vars.now) o ((L.rules (version_of version) vars.now).input k b)) }
{
    let Some(i) = variable(vars, k) else {
        return Ok(None);
    };
    let size = input_size(version, i);
    let Some(limits) = within(L::of_input(version, i, s), size) else {
        return Ok(None);
    };
    let h = power(alloc, k, 1, 1)?;
    Ok(kept(limits, size, h))
}

/// Of a local, which gets one more owner.
pub fn again<L: Limits>(x: &Value<L>, s: L::Said) -> Result<Option<Value<L>>, NoMemory>
    ensures { IfOk result (λ o. (v : AnyVersion) (vars : List Info) (n : ℕ) (b : L.Bound) (k : L.Known) → L.tells s b → IsFor L.known n x.now k →
        IsMade (IsFor L.known n) L.tree n o ((L.rules v vars).again k b)) }
{
    let Some(limits) = within(L::of_local(x.limits, s), x.size) else {
        return Ok(None);
    };
    let h = x.poly.copy()?;
    Ok(kept(limits, x.size, h))
}

/// Of two values.
pub fn two<L: Limits>(
    alloc: Global,
    t: Two,
    w: Width,
    s: L::Said,
    x: Value<L>,
    y: Value<L>,
) -> Result<Option<Value<L>>, NoMemory>
    ensures { IfOk result (λ o. (v : AnyVersion) (vars : List Info) (n : ℕ) (b : L.Bound) (j k : L.Known) → L.tells s b →
        IsFor L.known n x j → IsFor L.known n y k → IsMade (IsFor L.known n) L.tree n o ((L.rules v vars).two t w b j k)) }
{
    let size = joined_size(t, x.size, y.size);
    let Some(limits) = within(L::of_two(t, w, s, x.limits, y.limits), size) else {
        return Ok(None);
    };
    let found = joined(alloc, t, x.poly, y.poly)?;
    let Some(h) = found else {
        return Ok(None);
    };
    Ok(kept(limits, size, h))
}

/// Of one value.
pub fn minus<L: Limits>(w: Width, s: L::Said, x: Value<L>) -> Option<Value<L>>
    ensures { (v : AnyVersion) (vars : List Info) (n : ℕ) (b : L.Bound) (k : L.Known) → L.tells s b → IsFor L.known n x k →
        IsMade (IsFor L.known n) L.tree n result ((L.rules v vars).minus w b k) }
{
    let Some(limits) = within(L::of_minus(w, s, x.limits), x.size) else {
        return None;
    };
    kept(limits, x.size, opposite(x.poly))
}

/// Of one value that is divided by 2^n.
pub fn cut<L: Limits>(n: u8, s: L::Said, x: Value<L>) -> Option<Value<L>>
    ensures { (v : AnyVersion) (vars : List Info) (m : ℕ) (b : L.Bound) (k : L.Known) → L.tells s b → IsFor L.known m x k →
        IsMade (IsFor L.known m) L.tree m result ((L.rules v vars).cut n b k) }
{
    let Some(limits) = within(L::of_cut(n, s, x.limits), x.size) else {
        return None;
    };
    kept(limits, x.size, x.poly)
}
