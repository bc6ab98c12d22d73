//! What the library's `judge` says of traces that are read whole first. The program's command judges line by line, with the same rules.
use ln_base::NoMemory;
use ln_base::limits::{MOST_FILE, MOST_SOURCE};
use ln_compile::{Checked, Refusal, check};
use ln_rows::Rows;
use ln_stage::Accepted;
use ln_trace::{Trace, TraceStop, judge, read_trace};
use ln_trial_programs::sample::{ONE_POINT, ONE_POINT_TRACE, ORIENT};
use std::alloc::Global;
use std::test::Fail;

// A trace in which a text stands for another, with the first line that fails, 0 where none does and 1 where a form fault is in line 1.
const WANTED: &[(&str, &str, &str, u32)] = &[
    (ONE_POINT_TRACE, "", "", 0),
    // A further vector after line 4, which no stage has.
    (
        ONE_POINT_TRACE,
        "at 3^1 : 0\n",
        "at 3^1 : 0\nat 3^2 : 0\n",
        0,
    ),
    // Another value, a stage that is left out, another sign, no sign, neither value nor sign, no record.
    (ONE_POINT_TRACE, "at : 0", "at : 1", 3),
    (ONE_POINT_TRACE, "at 2^1 : 0\n", "", 5),
    (ONE_POINT_TRACE, "sign -", "sign +", 8),
    (ONE_POINT_TRACE, "sign -\n", "", 8),
    (ONE_POINT_TRACE, "at 1^1 2^1 : -1\nsign -\n", "", 7),
    ("trace 1\n", "", "", 2),
    ("trace 2\n", "", "", 1),
];

// The first line that fails by a predicate, 0 where none does.
fn fault_by(alloc: Global, a: &Accepted<'_>, trace: &Trace) -> Result<u32, NoMemory> {
    let mut rows = Rows::new(alloc, ONE_POINT.as_bytes())?;
    match judge(alloc, a.pred(), a.poly(), a.stages(), &mut rows, trace)? {
        Some(line) => Ok(line),
        None => Ok(0),
    }
}

// The same by the one predicate of a source; none where there is another number of them.
fn fault_in(alloc: Global, c: &Checked, trace: &Trace) -> Result<Option<u32>, NoMemory> {
    if c.table().preds.len() != 1 {
        return Ok(None);
    }
    let line = fault_by(alloc, &c.accepted(0), trace)?;
    Ok(Some(line))
}

// The first line of a trace of the orientation that fails; none where the source is refused.
fn first_failing(alloc: Global, trace: &Trace) -> Result<Option<u32>, NoMemory> {
    let source = ORIENT.as_bytes();
    if source.len() > MOST_SOURCE {
        return Ok(None);
    }
    match check(alloc, source) {
        Ok(c) => fault_in(alloc, &c, trace),
        Err(Refusal::NoMemory(e)) => Err(e),
        Err(_) => Ok(None),
    }
}

// Is this the first line of the text that fails, of its form or by its rule?
fn fails_at(alloc: Global, text: &[u8], line: u32) -> Result<bool, NoMemory> {
    if text.len() > MOST_FILE {
        return Ok(false);
    }
    match read_trace(alloc, text) {
        Ok(trace) => Ok(first_failing(alloc, &trace)? == Some(line)),
        Err(TraceStop::Form(at)) => Ok(at == line),
        Err(TraceStop::NoMemory(e)) => Err(e),
    }
}

fn all_fail(alloc: Global) -> Result<bool, NoMemory> {
    for (trace, old, new, line) in WANTED {
        let text = trace.replacen(alloc, *old, new, 1)?;
        if !fails_at(alloc, text.as_bytes(), *line)? {
            return Ok(false);
        }
    }
    Ok(true)
}

#[test]
fn traces_that_are_read_whole_are_judged(rt: HostRuntime) -> Result<(), Fail> {
    assert!(rt; all_fail(rt.alloc())?);
    Ok(())
}
