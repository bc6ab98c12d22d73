//! One function for each kind of line within the part of a predicate.
ghost use Rattle.std.specs.Prelude.{◌≡◌, ◌↔◌, ℕ, List, [], ◌∷◌, ◌++◌, Option, IfOk, IsTrue, length};
ghost use Rattle.ln_tree.specs.Exps.{Pairs};
ghost use Rattle.ln_code.specs.Engine.{State};
ghost use Rattle.ln_code.specs.FilterRules.{FilterKnown};
ghost use Rattle.ln_code.specs.Rules.{Known};
ghost use Rattle.ln_verify.specs.BlockRules.{Version as AnyVersion};
ghost use Rattle.ln_verify.specs.Here.{AreAbove, BlockEnds, IsCase, Leads, FilterDecides, subject_of};
ghost use Rattle.ln_verify.specs.Line.{Subject};
ghost use Rattle.ln_verify.specs.Versions.{version_of};
ghost use Rattle.ln_verify.specs.Works.{IsBlockStack, IsFilterStack};
ghost use Rattle.ln_cert.specs.declared.part.Part.TheVariants.{NoFilter, Filter, FilterOp, Decide, Block, BlockOp, RangeOp, End, Order};

use crate::case::Case;
use crate::derived::{is_derivative, is_whole};
use crate::orders::is_next;
use crate::progress::Progress;
use crate::ranged::{BlockStack, Ends, pair_of_bound, pair_of_ends};
use crate::stacks::empty;
use crate::steps::operate;
use crate::triple::FilterStack;
use crate::version::Version;
use ln_base::{NoMemory, Seq};
use ln_code::{Op, Triple, are_of_sites, exps_of};
use ln_tree::Exps;
use std::alloc::Global;

/// `nofilter`.
pub fn no_filter(alloc: Global, state: &mut Progress) -> bool
    ensures { (v : AnyVersion) (p : Subject) → Leads v p state.old NoFilter result state.new }
{
    state.exps = Seq::new(alloc);
    state.lists = 0;
    true
}

/// `filter`.
pub fn filter(alloc: Global, state: &mut Progress) -> Result<bool, NoMemory>
    ensures { IfOk result (λ ok. (v : AnyVersion) (p : Subject) → Leads v p state.old Filter ok state.new) }
{
    state.filter_stack = empty(alloc)?;
    Ok(true)
}

/// A line of a filter.
pub fn filter_op(
    alloc: Global,
    case: &Case<'_>,
    version: Version,
    state: &mut Progress,
    op: Op,
    a: Triple,
) -> Result<bool, NoMemory>
    ensures { IfOk result (λ ok. Leads (version_of version) (subject_of case.now) state.old (FilterOp op a) ok state.new) }
{
    operate(alloc, case, version, &mut state.filter_stack, op, a)
}

/// A line of a block, in version 1.
pub fn block_op(
    alloc: Global,
    case: &Case<'_>,
    version: Version,
    state: &mut Progress,
    op: Op,
    b: u128,
) -> Result<bool, NoMemory>
    ensures { IfOk result (λ ok. Leads (version_of version) (subject_of case.now) state.old (BlockOp op b) ok state.new) }
{
    let said = pair_of_bound(b);
    operate(alloc, case, version, &mut state.block_stack, op, said)
}

/// A line of a block, in version 2.
pub fn range_op(
    alloc: Global,
    case: &Case<'_>,
    version: Version,
    state: &mut Progress,
    op: Op,
    ends: Ends,
) -> Result<bool, NoMemory>
    ensures { IfOk result (λ ok. Leads (version_of version) (subject_of case.now) state.old (RangeOp op ends.low ends.high) ok state.new) }
{
    let said = pair_of_ends(ends);
    operate(alloc, case, version, &mut state.block_stack, op, said)
}

/// `order`.
pub fn order(
    alloc: Global,
    case: &Case<'_>,
    state: &mut Progress,
    places: &[u8],
    list: &[u32],
) -> Result<bool, NoMemory>
    requires { IsCase case.now }
    ensures { IfOk result (λ ok. (v : AnyVersion) → Leads v (subject_of case.now) state.old (Order places.now list.now) ok state.new) }
{
    if state.lists >= case.orders.len() {
        return Ok(false);
    }
    if !is_next(
        alloc,
        case,
        state.exps.as_slice(),
        state.lists,
        places,
        list,
    )? {
        return Ok(false);
    }
    state.lists += 1;
    Ok(true)
}

// Is there one value, whose polynomial is the predicate's, with an E that fits 64 bits?
fn decides(alloc: Global, case: &Case<'_>, filter_stack: &FilterStack) -> Result<bool, NoMemory>
    requires { IsCase case.now }
    ensures { IfOk result (λ ok. (s : State FilterKnown (ℕ → Option FilterKnown)) → IsFilterStack (length case.now.shape.now.vars) filter_stack.now s →
        IsTrue ok ↔ FilterDecides (subject_of case.now) s) }
{
    if filter_stack.values.len() != 1 {
        return Ok(false);
    }
    let x = &filter_stack.values[0];
    if x.limits.e > 9223372036854775807 {
        return Ok(false);
    }
    let f = x.poly.settled(alloc)?;
    Ok(is_whole(case, &f))
}

/// `decide`.
pub fn decide(alloc: Global, case: &Case<'_>, state: &mut Progress) -> Result<bool, NoMemory>
    requires { IsCase case.now }
    ensures { IfOk result (λ ok. (v : AnyVersion) → Leads v (subject_of case.now) state.old Decide ok state.new) }
{
    if !decides(alloc, case, &state.filter_stack)? {
        return Ok(false);
    }
    state.exps = Seq::new(alloc);
    state.lists = 0;
    Ok(true)
}

// Is there one value, whose polynomial is the scaled derivative by the last of the exponents?
fn ends(
    alloc: Global,
    case: &Case<'_>,
    exps: &[Exps],
    block_stack: &BlockStack,
) -> Result<bool, NoMemory>
    requires { IsCase case.now }
    ensures { IfOk result (λ ok. (es : List Pairs) (a : Pairs) (s : State Known (ℕ → Option Known)) → exps.now ≡ es ++ a ∷ [] →
        AreAbove (length case.now.shape.now.vars) exps.now →
        IsBlockStack (length case.now.shape.now.vars) block_stack.now s → IsTrue ok ↔ BlockEnds (subject_of case.now) a s) }
{
    if exps.is_empty() {
        return Ok(false);
    }
    if block_stack.values.len() != 1 {
        return Ok(false);
    }
    let f = block_stack.values[0].poly.settled(alloc)?;
    is_derivative(alloc, case, &exps[exps.len() - 1], &f)
}

/// `end`.
pub fn end(alloc: Global, case: &Case<'_>, state: &mut Progress) -> Result<bool, NoMemory>
    requires { IsCase case.now }
    ensures { IfOk result (λ ok. (v : AnyVersion) → Leads v (subject_of case.now) state.old End ok state.new) }
{
    if !ends(alloc, case, state.exps.as_slice(), &state.block_stack)? {
        return Ok(false);
    }
    Ok(true)
}

/// `block`.
pub fn block(
    alloc: Global,
    case: &Case<'_>,
    state: &mut Progress,
    k: u32,
    a: &[(u8, u8)],
) -> Result<bool, NoMemory>
    ensures { IfOk result (λ ok. (v : AnyVersion) → Leads v (subject_of case.now) state.old (Block k a.now) ok state.new) }
{
    if k as usize != state.exps.len() {
        return Ok(false);
    }
    if !are_of_sites(case.shape.vars.as_slice(), a) {
        return Ok(false);
    }
    let Some(e) = exps_of(alloc, a)? else {
        return Ok(false);
    };
    state.exps.push(e)?;
    state.block_stack = empty(alloc)?;
    Ok(true)
}
