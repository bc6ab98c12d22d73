//! The program of a predicate by total degree.
ghost use Rattle.std.specs.Prelude.{◌≡◌, ◌<◌, ◌≤◌, length, slice_get, IfErr, IfOk, Some};
ghost use Rattle.ln_base.specs.Limits.{most_weight};
ghost use Rattle.ln_code.specs.Kept.{IsProgram};
ghost use Rattle.ln_stage.specs.Graded.{AreGradedStagesOf};
ghost use Rattle.ln_stage.specs.Lists.{stage_count, stage_weight};
ghost use Rattle.ln_stage.specs.Staged.{vectors_of};
ghost use Rattle.ln_graded.specs.Graded.{Begins, CanBegin, IsGradable, IsGraded, IsGradedFrom, IsWithin, StopsFor};

use crate::blocks::FromNested;
use crate::stop::GradedStop;
use ln_base::NoMemory;
use ln_code::{Block, FilterBlock, Program};
use ln_due::blocks_after;
use ln_poly::Poly;
use ln_stage::{StageStop, Stages, graded_stages};
use ln_tree::Shape;
use std::alloc::Global;

// The stages of a polynomial that isn't 0.
fn staged(alloc: Global, f: &Poly, s: &Shape, most: u64, heavy: u64) -> Result<Stages, GradedStop>
    requires poly { IsGradable s.now.vars f.now }
    requires heavy { heavy ≤ most_weight }
    ensures stages { IfOk result (λ st. AreGradedStagesOf s.now.sites s.now.vars f.now st) }
    ensures count { IfOk result (λ st. stage_count (vectors_of (length s.now.vars) st) ≤ most) }
    ensures weight { IfOk result (λ st. stage_weight (length s.now.vars) f.now (vectors_of (length s.now.vars) st) ≤ heavy) }
    ensures err { IfErr result (StopsFor s.now f.now most heavy) }
{
    match graded_stages(alloc, f, s, most, heavy) {
        Ok(st) => Ok(st),
        Err(StageStop::NoMemory(e)) => Err(GradedStop::NoMemory(e)),
        Err(StageStop::Zero) => Err(GradedStop::Stages),
        Err(StageStop::Stages) => Err(GradedStop::Stages),
    }
}

// The filter of a program, once more.
fn filter(alloc: Global, p: &Program) -> Result<Option<FilterBlock>, NoMemory>
    ensures { IfOk result (λ o. o ≡ p.now.filter) }
{
    match p.filter() {
        Some(f) => {
            let copy = f.copy(alloc)?;
            Ok(Some(copy))
        }
        None => Ok(None),
    }
}

// The first block of a program that has one, once more.
fn first_block(alloc: Global, p: &Program) -> Result<Block, NoMemory>
    requires { 0 < length p.now.blocks }
    ensures first { IfOk result (λ b. slice_get p.now.blocks 0 ≡ Some b) }
    ensures kept { IsProgram p.now }
{
    p.blocks()[0].copy(alloc)
}

// The program with this filter, this block 0 and these stages.
fn joined(
    alloc: Global,
    f: &Poly,
    s: &Shape,
    begin: (Option<FilterBlock>, Block),
    st: Stages,
) -> Result<Program, NoMemory>
    requires poly { IsGradable s.now.vars f.now }
    requires begins { CanBegin s.now f.now begin.0 begin.1 }
    requires stages { AreGradedStagesOf s.now.sites s.now.vars f.now st }
    requires weight { stage_weight (length s.now.vars) f.now (vectors_of (length s.now.vars) st) ≤ most_weight }
    ensures program { IfOk result (IsGradedFrom s.now f.now begin.0 (Some begin.1)) }
    ensures within { IfOk result (IsWithin s.now f.now (stage_count (vectors_of (length s.now.vars) st))
        (stage_weight (length s.now.vars) f.now (vectors_of (length s.now.vars) st))) }
{
    let (filter, first) = begin;
    let made = blocks_after(alloc, &FromNested {}, f, s, first, st.all_exps());
    let segments = st.into_segments();
    let blocks = made?;
    let shape = s.copy(alloc)?;
    Ok(Program::join(shape, filter, blocks, segments))
}

/// The program by total degree of the predicate over this shape whose normal polynomial is f, with this filter and this block 0 of it. Its list
/// is whole where an order of the sites is.
///
/// `Stages` means that the count of the stages in the lists of all orders exceeds `most`, or that their weight exceeds `heavy`.
pub fn graded_from(
    alloc: Global,
    f: &Poly,
    s: &Shape,
    begin: (Option<FilterBlock>, Block),
    most: u64,
    heavy: u64,
) -> Result<Program, GradedStop>
    requires poly { IsGradable s.now.vars f.now }
    requires begins { CanBegin s.now f.now begin.0 begin.1 }
    requires heavy { heavy ≤ most_weight }
    ensures program { IfOk result (IsGradedFrom s.now f.now begin.0 (Some begin.1)) }
    ensures within { IfOk result (IsWithin s.now f.now most heavy) }
    ensures err { IfErr result (StopsFor s.now f.now most heavy) }
{
    let st = staged(alloc, f, s, most, heavy)?;
    let program = joined(alloc, f, s, begin, st)?;
    Ok(program)
}

/// The program by total degree of the predicate over this shape whose normal polynomial is f and whose program is p: with p's filter
/// and first block, and with its list whole where an order of the sites is.
///
/// `Stages` means that the count of the stages in the lists of all orders exceeds `most`, or that their weight exceeds `heavy`.
pub fn graded(
    alloc: Global,
    f: &Poly,
    s: &Shape,
    p: &Program,
    most: u64,
    heavy: u64,
) -> Result<Program, GradedStop>
    requires poly { IsGradable s.now.vars f.now }
    requires begins { Begins s.now f.now p.now }
    requires heavy { heavy ≤ most_weight }
    ensures program { IfOk result (IsGraded s.now f.now p.now) }
    ensures within { IfOk result (IsWithin s.now f.now most heavy) }
    ensures err { IfErr result (StopsFor s.now f.now most heavy) }
{
    let first = first_block(alloc, p)?;
    let filter = filter(alloc, p)?;
    graded_from(alloc, f, s, (filter, first), most, heavy)
}
