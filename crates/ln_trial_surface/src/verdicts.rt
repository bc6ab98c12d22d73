//! The values of blocks on rows, and copies of blocks.
ghost use Rattle.std.specs.Prelude.{◌≡◌};

use crate::read::row_of;
use ln_base::NoMemory;
use ln_code::{Block, Program, Scratch, block_value};
use ln_tree::Pred;
use ln_trial_programs::sample::{SQUARES, compiled};
use std::alloc::Global;
use std::test::Fail;

// The derivative of a.t^2 - b.t^2 by a.t, once: is it twice the number, within -20 .. 20?
fn is_twice(b: &Block) -> bool {
    let within = match b.pairs().last() {
        Some(p) => p.low == -20 && p.high == 20,
        None => false,
    };
    within && b.ops().len() == 3 && b.exps().pairs() == [(0u8, 1u8)].as_slice()
}

// Is the second block of a program such a block, and is its copy?
fn is_copied(alloc: Global, blocks: &[Block]) -> Result<bool, NoMemory> {
    match blocks {
        [_, b, ..] => Ok(is_twice(b) && is_twice(&b.copy(alloc)?)),
        _ => Ok(false),
    }
}

// The same of the one program of a source.
fn is_copied_of(alloc: Global, source: &str) -> Result<bool, NoMemory> {
    match compiled(alloc, source)? {
        Some(c) => {
            match c.programs().as_slice() {
                [program] => is_copied(alloc, program.blocks()),
                _ => Ok(false),
            }
        }
        None => Ok(false),
    }
}

#[test]
fn a_copy_of_a_block_has_its_operations_and_its_ends(rt: HostRuntime) -> Result<(), Fail> {
    assert!(rt; is_copied_of(rt.alloc(), SQUARES)?);
    Ok(())
}

// The value of the program's second block on the row of a record; none where the record is no row.
fn second_value(
    alloc: Global,
    pred: &Pred,
    program: &Program,
    record: &str,
) -> Result<Option<i128>, NoMemory>
    requires sites { program.now.shape.sites ≡ pred.now.shape.sites }
    requires vars { program.now.shape.vars ≡ pred.now.shape.vars }
{
    let Some(r) = row_of(alloc, pred, record)? else {
        return Ok(None);
    };
    let mut s = Scratch::new(alloc, program)?;
    let blocks = program.blocks();
    if blocks.len() < 2 {
        return Ok(None);
    }
    Ok(Some(block_value(&blocks[1], program, &mut s, &r)))
}

// The same of the one program of a source.
fn second_value_of(alloc: Global, source: &str, record: &str) -> Result<Option<i128>, NoMemory> {
    let Some(c) = compiled(alloc, source)? else {
        return Ok(None);
    };
    match (c.table().preds.as_slice(), c.programs().as_slice()) {
        ([pred], [program]) => second_value(alloc, pred, program, record),
        _ => Ok(None),
    }
}

#[test]
fn the_block_of_twice_a_number_has_its_value(rt: HostRuntime) -> Result<(), Fail> {
    let alloc = rt.alloc();
    assert!(rt; second_value_of(alloc, SQUARES, "1,3,2,3\n")? == Some(6));
    assert!(rt; second_value_of(alloc, SQUARES, "1,-3,2,3\n")? == Some(-6));
    Ok(())
}
