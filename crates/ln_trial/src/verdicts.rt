//! The verdicts that `run_row` gives on rows of compiled programs, with what they count.
ghost use Rattle.std.specs.Prelude.{◌≡◌};

use ln_base::{NoMemory, Sign};
use ln_code::{By, Program, Row, Scratch, Verdict, run_row};
use ln_compile::Compiled;
use ln_rows::Rows;
use ln_tree::Pred;
use ln_trial_programs::sample::{ORIENT, compiled};
use std::alloc::Global;
use std::test::Fail;

// The verdict of a predicate's program on a record's row, and the calls of this many runs of it, added up, in memory made once; none where the
// record is no row.
fn runs_on(
    alloc: Global,
    pred: &Pred,
    program: &Program,
    record: &str,
    count: usize,
) -> Result<Option<(Verdict, u64)>, NoMemory>
    requires sites { program.now.shape.sites ≡ pred.now.shape.sites }
    requires vars { program.now.shape.vars ≡ pred.now.shape.vars }
{
    let mut s = Scratch::new(alloc, program)?;
    let mut rows = Rows::new(alloc, record.as_bytes())?;
    let mut row = Row {
        index: [0; 5],
        values: [0; 168],
    };
    let Some(Ok(())) = rows.next_row(pred, &mut row)? else {
        return Ok(None);
    };
    let first = run_row(program, &mut s, &row);
    let mut calls = u64::from(first.calls);
    'runs: for _ in 1..count {
        calls = calls.saturating_add(u64::from(run_row(program, &mut s, &row).calls));
    }
    Ok(Some((first, calls)))
}

/// The same of a source's one program; none where there is another number of programs, too.
pub fn runs(
    alloc: Global,
    c: &Compiled,
    record: &str,
    count: usize,
) -> Result<Option<(Verdict, u64)>, NoMemory> {
    match (c.table().preds.as_slice(), c.programs().as_slice()) {
        ([pred], [program]) => runs_on(alloc, pred, program, record, count),
        _ => Ok(None),
    }
}

// A record, and the sign of its row, the stage that decides, or none for the filter, and the calls.
type Want = (&'static str, Sign, Option<u32>, u32);

const WANTED: &[Want] = &[
    ("1,0,0,2,1,0,3,0,1\n", Sign::Plus, None, 1),
    ("2,0,0,1,0,1,3,1,0\n", Sign::Minus, None, 1),
    // On a line, upright, two points that are one, one point: the stages of p.y, p.x, q.y and 1.
    ("1,0,0,2,1,1,3,2,2\n", Sign::Plus, Some(1), 3),
    ("1,0,0,2,0,1,3,0,2\n", Sign::Minus, Some(2), 4),
    ("1,1,0,2,0,0,3,0,0\n", Sign::Plus, Some(3), 5),
    ("1,5,5,2,5,5,3,5,5\n", Sign::Plus, Some(4), 6),
    ("2,5,5,1,5,5,3,5,5\n", Sign::Minus, Some(4), 6),
];

// Is this the stage that decides, or the filter?
fn decides(by: By, stage: Option<u32>) -> bool {
    match by {
        By::Filter => stage.is_none(),
        By::Stage(i) => stage == Some(i),
        By::Nothing => false,
    }
}

// Is this the verdict on the row of a record? None of the operations is wide.
fn is_given(alloc: Global, c: &Compiled, want: &Want) -> Result<bool, NoMemory> {
    let (record, sign, stage, calls) = *want;
    match runs(alloc, c, record, 1)? {
        Some((v, _)) => {
            Ok(v.sign == sign && decides(v.by, stage) && v.calls == calls && v.wide == 0)
        }
        None => Ok(false),
    }
}

fn are_given(alloc: Global) -> Result<bool, NoMemory> {
    let Some(c) = compiled(alloc, ORIENT)? else {
        return Ok(false);
    };
    for want in WANTED {
        if !is_given(alloc, &c, want)? {
            return Ok(false);
        }
    }
    Ok(true)
}

#[test]
fn rows_of_the_orientation_have_their_verdicts(rt: HostRuntime) -> Result<(), Fail> {
    assert!(rt; are_given(rt.alloc())?);
    Ok(())
}

/// Returns the wide operations of the verdicts on these records, added up; none where one of them is no row.
pub fn wide_of_rows(
    alloc: Global,
    source: &str,
    records: &[&str],
) -> Result<Option<u64>, NoMemory> {
    let Some(c) = compiled(alloc, source)? else {
        return Ok(None);
    };
    let mut wide = 0u64;
    for record in records {
        match runs(alloc, &c, record, 1)? {
            Some((v, _)) => wide = wide.saturating_add(u64::from(v.wide)),
            None => return Ok(None),
        }
    }
    Ok(Some(wide))
}
