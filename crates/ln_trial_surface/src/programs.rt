//! Compiled sources, found by their names, and programs by total degree.
use ln_base::{NoMemory, Seq, Sign};
use ln_bound::{FittedPred, Width};
use ln_code::{
    Block, Builder, Built, Draft, FilterBlock, Op, Program, Programs, Row, Scratch, Triple,
    Verdict, block_value, run_row,
};
use ln_compile::{Compiled, Refusal, compile};
use ln_factor::product_row;
use ln_filter::plan;
use ln_graded::{GradedStop, graded};
use ln_interval::Pair;
use ln_poly::Poly;
use ln_tree::{Exps, Shape};
use ln_trial_programs::sample::{ORIENT, compiled};
use std::alloc::Global;
use std::test::Fail;

#[test]
fn calls_of_blocks_and_programs_have_their_types(_rt: HostRuntime) {
    let _: fn(Exps, Seq<Op>, Seq<Pair>, u32) -> Block = Block::seal;
    let _: fn(&Block, Global) -> Result<Block, NoMemory> = Block::copy;
    let _: fn(Seq<Op>, Seq<Triple>, u32) -> FilterBlock = FilterBlock::seal;
    let _: fn(&FilterBlock, Global) -> Result<FilterBlock, NoMemory> = FilterBlock::copy;
    let _: fn(Shape, Option<FilterBlock>, Seq<Block>, Seq<Seq<u32>>) -> Program = Program::join;
    let _: fn(Global) -> Programs = Programs::new;
    let _: fn(&mut Programs, Program) -> Result<(), NoMemory> = Programs::push;
    let _: fn(Global, &Program) -> Result<Scratch, NoMemory> = Scratch::new;
    let _: fn(&Program, &mut Scratch, &Row) -> Verdict = run_row;
    let _: fn(&Block, &Program, &mut Scratch, &Row) -> i128 = block_value;
}

#[test]
fn calls_that_make_programs_have_their_types(_rt: HostRuntime) {
    let _: fn(Global, &FittedPred) -> Result<Option<FilterBlock>, NoMemory> = plan;
    let _: fn(Global, &[u8]) -> Result<Compiled, Refusal> = compile;
    let _: fn(&Compiled, &str) -> Option<usize> = Compiled::find;
    let _: fn(&Compiled, usize) -> u64 = Compiled::stage_count;
    let _: fn(&Programs, &[usize], &mut [Scratch], &Row, &mut [Verdict]) -> Sign = product_row;
    let _: fn(Global, &Poly, &Shape, &Program, u64, u64) -> Result<Program, GradedStop> = graded;
}

// Has it one program, found by the one name and not by the other, with this many stages?
fn is_found(c: &Compiled, name: &str, other: &str, stages: u64) -> bool {
    if c.table().preds.as_slice().len() != 1 || c.programs().as_slice().len() != 1 {
        return false;
    }
    c.find(name) == Some(0) && c.find(other).is_none() && c.stage_count(0) == stages
}

// The same of a source.
fn is_compiled(alloc: Global, source: &str) -> Result<bool, NoMemory> {
    match compiled(alloc, source)? {
        Some(c) => Ok(is_found(&c, "orient", "x", 30)),
        None => Ok(false),
    }
}

#[test]
fn the_orientation_is_found_by_its_name_and_has_30_stages(rt: HostRuntime) -> Result<(), Fail> {
    assert!(rt; is_compiled(rt.alloc(), ORIENT)?);
    Ok(())
}

// Are they a variable and its opposite?
fn are_opposite(ops: &[Op]) -> bool {
    match ops {
        [Op::Input(0), Op::Neg(_)] => true,
        _ => false,
    }
}

// Has a builder of two operations both, each with its bound?
fn is_built(alloc: Global) -> Result<bool, NoMemory> {
    let mut code = Builder::new(alloc);
    code.push(Op::Input(0), 7u64)?;
    code.push(Op::Neg(Width::W64), 9u64)?;
    let Built { ops, bounds } = code.built();
    Ok(are_opposite(ops.as_slice()) && bounds.as_slice() == [7u64, 9u64].as_slice())
}

#[test]
fn two_operations_are_built_with_their_bounds(rt: HostRuntime) -> Result<(), Fail> {
    assert!(rt; is_built(rt.alloc())?);
    Ok(())
}

// Is the second of two subtrees that are kept in local 66, and another in none?
fn is_in_66(alloc: Global) -> Result<bool, NoMemory> {
    let mut draft: Draft<u64> = Draft::new(alloc);
    draft.kept.push(4)?;
    draft.kept.push(7)?;
    Ok(draft.local_of(7) == Some(66) && draft.local_of(5).is_none())
}

#[test]
fn the_second_subtree_that_is_kept_is_in_local_66(rt: HostRuntime) -> Result<(), Fail> {
    assert!(rt; is_in_66(rt.alloc())?);
    Ok(())
}

const SQUARE: &str =
    "site num { t: -10 .. 10; } predicate same(a: num, b: num) { sign (a.t + b.t) * (a.t + b.t); }";

// Is it a value that is kept in local 65?
fn is_kept(op: Option<&Op>) -> bool {
    match op {
        Some(Op::Set(j)) => *j == 65,
        _ => false,
    }
}

// Is it the value in local 65?
fn is_taken(op: Option<&Op>) -> bool {
    match op {
        Some(Op::Get(j)) => *j == 65,
        _ => false,
    }
}

// Is the sum computed once, kept in local 65 and multiplied by itself?
fn are_shared(ops: &[Op]) -> bool {
    ops.len() == 7 && is_kept(ops.get(3)) && is_taken(ops.get(4)) && is_taken(ops.get(5))
}

// Are they the operations of the first block of the first program?
fn has_shared(programs: &[Program]) -> bool {
    match programs {
        [p] => {
            match p.blocks() {
                [b, ..] => are_shared(b.ops()),
                [] => false,
            }
        }
        _ => false,
    }
}

// The same of a source.
fn is_shared(alloc: Global, source: &str) -> Result<bool, NoMemory> {
    match compiled(alloc, source)? {
        Some(c) => Ok(has_shared(c.programs().as_slice())),
        None => Ok(false),
    }
}

#[test]
fn a_sum_that_is_used_twice_is_computed_once(rt: HostRuntime) -> Result<(), Fail> {
    assert!(rt; is_shared(rt.alloc(), SQUARE)?);
    Ok(())
}
