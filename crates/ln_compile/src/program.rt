//! The program of a predicate.
ghost use Rattle.std.specs.Prelude.{◌≡◌, ◌≤◌, length, IfOk, IfSome};
ghost use Rattle.ln_base.specs.Limits.{most_stages};
ghost use Rattle.ln_tree.specs.Table.{pred_of};
ghost use Rattle.ln_bound.specs.Light.{AreLight};
ghost use Rattle.ln_poly.specs.Expansion.{HaveFewTerms, IsNormal};
ghost use Rattle.ln_poly.specs.Sparse.{Sparse, terms_of};
ghost use Rattle.ln_compile.specs.Accepted.{IsSound, expanded_of, loaded_of, root_of};
ghost use Rattle.ln_due.specs.Small.{FilterPushesSmall};
ghost use Rattle.ln_code.specs.Kept.{FollowsFilterRules};
ghost use Rattle.ln_code.specs.Part.{ops_in_filter};
ghost use Rattle.ln_code.specs.Carried.{CarriesWhole};
ghost use Rattle.ln_compile.specs.Compiled.{IsBeginningOf, IsFilterOf, IsProgramOf};
ghost use Rattle.ln_compile.specs.Made.{AreOwnBlocks};

use crate::blocks::{FromNested, first_block};
use ln_base::{NoMemory, Seq};
use ln_bound::size::size;
use ln_code::{Block, FilterBlock, Program};
use ln_due::blocks_after;
use ln_filter::plan;
use ln_stage::Accepted;
use ln_tree::Pred;
use std::alloc::Global;

// The filter of a predicate, if it has one.
fn filter(alloc: Global, p: &Pred) -> Result<Option<FilterBlock>, NoMemory>
    requires light { AreLight (loaded_of (pred_of p.now)) }
    ensures filter { IfOk result (λ o. IsFilterOf (pred_of p.now) o) }
    ensures rules { IfOk result (λ o. IfSome o (λ f. FollowsFilterRules p.now.shape.vars f)) }
    ensures whole { IfOk result (λ o. (f : Sparse) → IsNormal (length p.now.shape.vars) (root_of (pred_of p.now)) f →
        IfSome o (CarriesWhole p.now.shape.vars (terms_of (length p.now.shape.vars) f))) }
    ensures pushes { IfOk result (λ o. HaveFewTerms (length p.now.shape.vars) (expanded_of (pred_of p.now)) →
        IfSome o (FilterPushesSmall p.now.shape.vars)) }
    ensures small { IfOk result (λ o. ops_in_filter o ≤ 1048640) }
{
    let sized = size(alloc, p)?;
    let planned = plan(alloc, &sized);
    drop(sized);
    planned
}

/// The filter of a predicate without a fault, if it has one, and its block 0.
pub(crate) fn beginning(alloc: Global, p: &Pred) -> Result<(Option<FilterBlock>, Block), NoMemory>
    requires { IsSound (pred_of p.now) }
    ensures { IfOk result (λ b. IsBeginningOf (pred_of p.now) b.0 b.1) }
{
    let first = first_block(alloc, p)?;
    let filter = filter(alloc, p)?;
    Ok((filter, first))
}

// The blocks of an accepted predicate.
fn blocks_of(alloc: Global, a: &Accepted<'_>) -> Result<Seq<Block>, NoMemory>
    ensures { IfOk result (AreOwnBlocks (pred_of a.now.pred) a.now.poly a.now.stages.exps) }
{
    let p = a.pred();
    let first = first_block(alloc, p)?;
    blocks_after(
        alloc,
        &FromNested {},
        a.poly(),
        &p.shape,
        first,
        a.stages().all_exps(),
    )
}

/// The program of an accepted predicate.
pub(crate) fn program(alloc: Global, a: &Accepted<'_>) -> Result<Program, NoMemory>
    ensures program { IfOk result (λ c. IsProgramOf (pred_of a.now.pred) c) }
    ensures small { IfOk result (λ c. length c.blocks ≤ most_stages) }
{
    let p = a.pred();
    let blocks = blocks_of(alloc, a)?;
    let segments = a.stages().copy_segments(alloc)?;
    let shape = p.shape.copy(alloc)?;
    let filter = filter(alloc, p)?;
    Ok(Program::join(shape, filter, blocks, segments))
}
