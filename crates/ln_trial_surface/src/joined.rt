//! A program put together from its parts, whose filter and whose one block push 1: it has no sites.
ghost use Rattle.std.specs.Prelude.{◌≡◌, ◌≤◌, ◌∷◌, [], length, IfOk, IfSome};
ghost use Rattle.ln_trial_surface.specs.One.{one_code, one_filter, one_part};

use crate::read::row_of;
use ln_base::{NoMemory, Seq, Sign};
use ln_code::{Block, By, FilterBlock, Op, Program, Programs, Scratch, Triple, Verdict, run_row};
use ln_interval::Pair;
use ln_order::Order;
use ln_tree::{Exps, Pred, Shape};
use ln_trial_programs::sample::compiled;
use std::alloc::Global;
use std::test::Fail;

// The list of one item.
fn alone<T: Drop>(alloc: Global, item: T) -> Result<Seq<T>, NoMemory>
    ensures { IfOk result (λ s. s ≡ item ∷ []) }
{
    let mut items = Seq::new(alloc);
    items.push(item)?;
    Ok(items)
}

// The block that pushes 1, of the range 1 .. 1.
fn one_block(alloc: Global) -> Result<Option<Block>, NoMemory>
    ensures { IfOk result (λ o. IfSome o (λ b. b ≡ one_code)) }
{
    let Some(pair) = Pair::new(1, 1) else {
        return Ok(None);
    };
    let ops = alone(alloc, Op::Push(1))?;
    let pairs = alone(alloc, pair)?;
    Ok(Some(Block::seal(Exps::new(alloc), ops, pairs, 1)))
}

// The filter that pushes 1, without an error.
fn one_filter(alloc: Global) -> Result<FilterBlock, NoMemory>
    ensures { IfOk result (λ f. f ≡ one_filter) }
{
    let ops = alone(alloc, Op::Push(1))?;
    let triples = alone(alloc, Triple { k: 0, h: 1, e: 0 })?;
    Ok(FilterBlock::seal(ops, triples, 1))
}

// The program of these, over a shape without sites, whose one segment is that of the empty prefix.
fn one_program(alloc: Global, s: &Shape) -> Result<Option<Program>, NoMemory>
    requires { s.now.sites ≡ 0 }
    ensures { IfOk result (λ o. IfSome o (λ p. p ≡ one_part s.now)) }
{
    let Some(block) = one_block(alloc)? else {
        return Ok(None);
    };
    let filter = one_filter(alloc)?;
    let blocks = alone(alloc, block)?;
    let segments = alone(alloc, alone(alloc, 0u32)?)?;
    let shape = s.copy(alloc)?;
    Ok(Some(Program::join(shape, Some(filter), blocks, segments)))
}

// Are they the operations and the range of the block?
fn is_block(b: &Block) -> bool {
    match (b.ops(), b.pairs()) {
        ([Op::Push(z)], [p]) => {
            *z == 1 && p.low == 1 && p.high == 1 && b.exps().pairs().is_empty()
        }
        _ => false,
    }
}

// Are they the operations and the triple of the filter?
fn is_filter(f: &FilterBlock) -> bool {
    match (f.ops(), f.triples()) {
        ([Op::Push(z)], [t]) => *z == 1 && t.k == 0 && t.h == 1 && t.e == 0,
        _ => false,
    }
}

// Has a program without sites the filter, the block and the segment?
fn has_parts(p: &Program) -> bool
    requires { p.now.shape.sites ≡ 0 }
{
    match (p.filter(), p.blocks()) {
        (Some(f), [b]) => {
            let order = Order::of_arguments(0);
            is_filter(f) && is_block(b) && p.segment(&order, 0) == [0u32].as_slice()
        }
        _ => false,
    }
}

// Is it plus by the filter, in one call?
fn is_plus(v: &Verdict) -> bool {
    v.sign == Sign::Plus && matches!(v.by, By::Filter) && v.wide == 0 && v.calls == 1
}

// Is the verdict on the row of a record so?
fn decides(alloc: Global, pred: &Pred, program: &Program) -> Result<bool, NoMemory>
    requires sites { program.now.shape.sites ≡ pred.now.shape.sites }
    requires vars { program.now.shape.vars ≡ pred.now.shape.vars }
{
    let Some(r) = row_of(alloc, pred, "3\n")? else {
        return Ok(false);
    };
    let mut s = Scratch::new(alloc, program)?;
    Ok(is_plus(&run_row(program, &mut s, &r)))
}

// The list of one program.
fn listed(alloc: Global, p: Program) -> Result<Programs, NoMemory>
    requires { length p.blocks ≤ 65536 }
{
    let mut programs = Programs::new(alloc);
    programs.push(p)?;
    Ok(programs)
}

// Has a predicate without sites such a program?
fn is_joined(alloc: Global, pred: &Pred) -> Result<bool, NoMemory> {
    if pred.shape.sites != 0 {
        return Ok(false);
    }
    let Some(program) = one_program(alloc, &pred.shape)? else {
        return Ok(false);
    };
    if !has_parts(&program) || !decides(alloc, pred, &program)? {
        return Ok(false);
    }
    let programs = listed(alloc, program)?;
    Ok(programs.as_slice().len() == 1)
}

const ONE: &str = "param c: 0 .. 5; predicate one(c: param) { sign 1; }";

// The same of the one predicate of a source.
fn is_joined_for(alloc: Global, source: &str) -> Result<bool, NoMemory> {
    match compiled(alloc, source)? {
        Some(c) => {
            match c.table().preds.as_slice() {
                [pred] => is_joined(alloc, pred),
                _ => Ok(false),
            }
        }
        None => Ok(false),
    }
}

#[test]
fn a_program_is_put_together_from_its_parts(rt: HostRuntime) -> Result<(), Fail> {
    assert!(rt; is_joined_for(rt.alloc(), ONE)?);
    Ok(())
}
