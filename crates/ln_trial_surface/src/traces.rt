//! Traces of rows: how a row is explained, and how a trace is read and judged.
ghost use Rattle.std.specs.Prelude.{◌≡◌};

use crate::read::row_of;
use ln_base::limits::MOST_FILE;
use ln_base::{NoMemory, Sign};
use ln_code::{Program, Row, Scratch};
use ln_trace::{Trace, TraceLine, TraceStop, explain_row, read_trace};
use ln_tree::Pred;
use ln_trial_programs::sample::{ONE_POINT, ONE_POINT_TRACE, ORIENT, compiled};
use std::alloc::Global;
use std::test::Fail;

#[test]
fn calls_of_traces_have_their_types(_rt: HostRuntime) {
    let _: fn(Global, &Program, &mut Scratch, u64, &Row, &mut Vec<u8>) -> Result<(), NoMemory> =
        explain_row;
    let _: fn(Global, &[u8]) -> Result<Trace, TraceStop> = read_trace;
}

// Are these the lines of the program for a row, after the first line of a trace?
fn is_explained(alloc: Global, pred: &Pred, program: &Program) -> Result<bool, NoMemory>
    requires sites { program.now.shape.sites ≡ pred.now.shape.sites }
    requires vars { program.now.shape.vars ≡ pred.now.shape.vars }
{
    let Some(r) = row_of(alloc, pred, ONE_POINT)? else {
        return Ok(false);
    };
    let mut s = Scratch::new(alloc, program)?;
    let mut out = Vec::from_slice(alloc, b"trace 1\n")?;
    explain_row(alloc, program, &mut s, 1, &r, &mut out)?;
    Ok(out.as_slice() == ONE_POINT_TRACE.as_bytes())
}

// The same of the one program of a source.
fn is_explained_for(alloc: Global, source: &str) -> Result<bool, NoMemory> {
    let Some(c) = compiled(alloc, source)? else {
        return Ok(false);
    };
    match (c.table().preds.as_slice(), c.programs().as_slice()) {
        ([pred], [program]) => is_explained(alloc, pred, program),
        _ => Ok(false),
    }
}

#[test]
fn a_row_of_one_point_is_explained_by_five_stages(rt: HostRuntime) -> Result<(), Fail> {
    assert!(rt; is_explained_for(rt.alloc(), ORIENT)?);
    Ok(())
}

// Are they a row, five values and a minus?
fn are_of_one_point(lines: &[TraceLine]) -> bool {
    match lines {
        [
            TraceLine::Row(1),
            TraceLine::At(..),
            TraceLine::At(..),
            TraceLine::At(..),
            TraceLine::At(..),
            TraceLine::At(exps, value),
            TraceLine::Sign(sign),
        ] => {
            exps.as_slice() == [(1u8, 1u8), (2, 1)].as_slice()
                && *value == -1
                && *sign == Sign::Minus
        }
        _ => false,
    }
}

// Are those the lines of a text, after the first?
fn has_lines(alloc: Global, text: &[u8]) -> bool {
    if text.len() > MOST_FILE {
        return false;
    }
    match read_trace(alloc, text) {
        Ok(trace) => are_of_one_point(trace.lines()),
        Err(_) => false,
    }
}

#[test]
fn a_trace_has_its_lines_after_the_first(rt: HostRuntime) {
    assert!(rt; has_lines(rt.alloc(), ONE_POINT_TRACE.as_bytes()));
}
