//! Tests the sign of a product of factors on a row, without a command.
ghost use Rattle.std.specs.Prelude.{◌≡◌, ◌∷◌, [], IfSome};

use crate::sample::{ORIENT, compiled};
use ln_base::{NoMemory, Sign};
use ln_code::{By, Program, Programs, Row, Scratch, Verdict};
use ln_compile::Compiled;
use ln_factor::product_row;
use ln_rows::Rows;
use ln_tree::Pred;
use std::alloc::Global;
use std::test::Fail;

const BLANK: Verdict = Verdict {
    sign: Sign::Zero,
    by: By::Nothing,
    wide: 0,
    calls: 0,
};

// A record of the orientation, its sign, and the stage that decides it, or none for the filter.
const RECORDS: &[(&str, Sign, Option<u32>)] = &[
    ("1,0,0,2,1,0,3,0,1\n", Sign::Plus, None),
    ("2,0,0,1,0,1,3,1,0\n", Sign::Minus, None),
    ("1,0,0,2,1,1,3,2,2\n", Sign::Plus, Some(1)),
    ("1,0,0,2,0,1,3,0,2\n", Sign::Minus, Some(2)),
];

// Is this the verdict?
fn is_so(v: &Verdict, sign: Sign, stage: Option<u32>) -> bool {
    let decides = match v.by {
        By::Filter => stage.is_none(),
        By::Stage(i) => stage == Some(i),
        By::Nothing => false,
    };
    v.sign == sign && decides
}

// Have the program's third power on a record's row, and each of its factors, this sign?
fn is_cubed(
    alloc: Global,
    pred: &Pred,
    programs: &Programs,
    program: &Program,
    want: &(&str, Sign, Option<u32>),
) -> Result<bool, NoMemory>
    requires one { programs.now ≡ program.now ∷ [] }
    requires sites { program.now.shape.sites ≡ pred.now.shape.sites }
    requires vars { program.now.shape.vars ≡ pred.now.shape.vars }
{
    let (record, sign, stage) = *want;
    let mut s = [
        Scratch::new(alloc, program)?,
        Scratch::new(alloc, program)?,
        Scratch::new(alloc, program)?,
    ];
    let mut rows = Rows::new(alloc, record.as_bytes())?;
    let mut row = Row {
        index: [0; 5],
        values: [0; 168],
    };
    let Some(Ok(())) = rows.next_row(pred, &mut row)? else {
        return Ok(false);
    };
    let mut out = [BLANK; 3];
    let product = product_row(programs, &[0, 0, 0], &mut s, &row, &mut out);
    Ok(
        product == sign
            && is_so(&out[0], sign, stage)
            && is_so(&out[1], sign, stage)
            && is_so(&out[2], sign, stage),
    )
}

// The same of each record.
fn are_cubed(
    alloc: Global,
    pred: &Pred,
    programs: &Programs,
    program: &Program,
) -> Result<bool, NoMemory>
    requires one { programs.now ≡ program.now ∷ [] }
    requires sites { program.now.shape.sites ≡ pred.now.shape.sites }
    requires vars { program.now.shape.vars ≡ pred.now.shape.vars }
{
    for want in RECORDS {
        if !is_cubed(alloc, pred, programs, program, want)? {
            return Ok(false);
        }
    }
    Ok(true)
}

// The predicate of a source and its program, where there is one.
fn only(c: &Compiled) -> Option<(&Pred, &Program)>
    ensures { IfSome result (λ both. (c.now.programs ≡ both.1.now ∷ [])
        × (both.1.now.shape.sites ≡ both.0.now.shape.sites) × (both.1.now.shape.vars ≡ both.0.now.shape.vars)) }
{
    match (c.table().preds.as_slice(), c.programs().as_slice()) {
        ([pred], [program]) => Some((pred, program)),
        _ => None,
    }
}

// The same of the one predicate of a source.
fn only_is_cubed(alloc: Global, c: &Compiled) -> Result<bool, NoMemory> {
    match only(c) {
        Some((pred, program)) => are_cubed(alloc, pred, c.programs(), program),
        None => Ok(false),
    }
}

fn orientation_is_cubed(alloc: Global) -> Result<bool, NoMemory> {
    match compiled(alloc, ORIENT)? {
        Some(c) => only_is_cubed(alloc, &c),
        None => Ok(false),
    }
}

#[test]
fn a_third_power_has_the_sign_and_its_factors_the_verdicts(rt: HostRuntime) -> Result<(), Fail> {
    assert!(rt; orientation_is_cubed(rt.alloc())?);
    Ok(())
}
