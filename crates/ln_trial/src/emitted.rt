//! Tests of what `emit` writes, and of the library's `emit`, which writes the same: its calls return the signs of rows.
use crate::spheres::CIRCLE;
use crate::support::written;
use ln_base::{NoMemory, Port};
use ln_cemit::emit;
use ln_cmean::{CAnswer, CFault, CScratch, call};
use ln_csyn::{CFile, CStop, read_c};
use ln_trial_programs::sample::{ORIENT, compiled};
use std::alloc::Global;
use std::test::Fail;

const UNUSED: &str = "site num { t: -9 .. 9; }
predicate f(a: num, b: num) { let d = a.t*b.t; sign a.t - b.t; }
";

// The C that the library writes for the programs of a source; none where the source is refused, or the program writes another C.
fn text_of(alloc: Global, source: &str) -> Result<Option<Vec<u8>>, NoMemory> {
    let con = written(alloc, "emit s.ln", source)?;
    let Some(c) = compiled(alloc, source)? else {
        return Ok(None);
    };
    let text = emit(alloc, c.programs())?;
    if text.as_slice() == con.bytes(Port::Out) {
        Ok(Some(text))
    } else {
        Ok(None)
    }
}

// The file of a text; none where it is no file.
fn file_of(alloc: Global, text: &[u8]) -> Result<Option<CFile>, NoMemory> {
    if text.len() > 1 << 20 {
        return Ok(None);
    }
    match read_c(alloc, text) {
        Ok(file) => Ok(Some(file)),
        Err(CStop::NotSubset) => Ok(None),
        Err(CStop::NoMemory(e)) => Err(e),
    }
}

// Returns what the call of a name returns on a row.
fn called(
    alloc: Global,
    file: &CFile,
    name: &str,
    index: &[i64],
    values: &[i64],
) -> Result<Result<CAnswer, CFault>, NoMemory> {
    let mut s = CScratch::new(alloc, file)?;
    Ok(call(file, name, index, values, &mut s))
}

// The indices and the values of a row, the sign that its call returns, and how many functions that calls.
type CRow = (&'static [i64], &'static [i64], i32, u32);

// The operations in 128 bits of the calls of a name on these rows; none where one of them returns another sign or calls otherwise.
fn wide_in(
    alloc: Global,
    file: &CFile,
    name: &str,
    rows: &[CRow],
) -> Result<Option<u64>, NoMemory> {
    let mut wide = 0u64;
    for (index, values, sign, calls) in rows {
        match called(alloc, file, name, index, values)? {
            Ok(was) if was.sign == *sign && was.calls == *calls => {
                wide = wide.saturating_add(u64::from(was.wide));
            }
            _ => return Ok(None),
        }
    }
    Ok(Some(wide))
}

// The file that a source's C is when it is read back.
fn read_back(alloc: Global, source: &str) -> Result<Option<CFile>, NoMemory> {
    match text_of(alloc, source)? {
        Some(text) => file_of(alloc, &text),
        None => Ok(None),
    }
}

/// The same of the C of a source, read back.
pub fn wide_of(
    alloc: Global,
    source: &str,
    name: &str,
    rows: &[CRow],
) -> Result<Option<u64>, NoMemory> {
    match read_back(alloc, source)? {
        Some(file) => wide_in(alloc, &file, name, rows),
        None => Ok(None),
    }
}

const ORIENT_ROWS: &[CRow] = &[
    // The filter decides.
    (&[1, 2, 3], &[0, 0, 1, 0, 0, 1], 1, 1),
    (&[2, 1, 3], &[0, 0, 0, 1, 1, 0], -1, 1),
    // On a line, none of them level: after the filter and block 0 the coefficient of p.y, 2 - 1.
    (&[1, 2, 3], &[0, 0, 1, 1, 2, 2], 1, 3),
    // Upright: that of p.x, 1 - 2.
    (&[1, 2, 3], &[0, 0, 0, 1, 0, 2], -1, 4),
    // q and r are one point: that of q.y, 1 - 0.
    (&[1, 2, 3], &[1, 0, 0, 0, 0, 0], 1, 5),
    // One point: 1 is all that is left, and -1 where q comes before p.
    (&[1, 2, 3], &[5, 5, 5, 5, 5, 5], 1, 6),
    (&[2, 1, 3], &[5, 5, 5, 5, 5, 5], -1, 6),
];

#[test]
fn calls_give_the_signs(rt: HostRuntime) -> Result<(), Fail> {
    assert!(rt; wide_of(rt.alloc(), ORIENT, "ln_orient", ORIENT_ROWS)? == Some(0));
    Ok(())
}

// How many calls of blocks a text has: each follows its cast, as in `((int)lb0_orient(v))`.
fn calls_of_blocks(text: &[u8]) -> u32 {
    let mut calls = 0u32;
    let mut before = [0u8; 2];
    for byte in text {
        calls = calls.saturating_add(u32::from(before == *b")l" && *byte == b'b'));
        before = [before[1], *byte];
    }
    calls
}

// The same of the C of a source; none where there is none.
fn blocks_called(alloc: Global, source: &str) -> Result<Option<u32>, NoMemory> {
    match text_of(alloc, source)? {
        Some(text) => Ok(Some(calls_of_blocks(&text))),
        None => Ok(None),
    }
}

// Is this the C of a source?
fn is_text(alloc: Global, source: &str, want: &str) -> Result<bool, NoMemory> {
    match text_of(alloc, source)? {
        Some(text) => Ok(text.as_slice() == want.as_bytes()),
        None => Ok(false),
    }
}

// One call for the empty prefix of the orders, two for each of three sites and two for each of six pairs: six whole lists would have 30.
#[test]
fn the_c_of_the_orientation_has_19_calls_of_blocks(rt: HostRuntime) -> Result<(), Fail> {
    let alloc = rt.alloc();
    assert!(rt; matches!(blocks_called(alloc, ORIENT)?, Some(19)));
    assert!(rt; is_text(alloc, "", "#include <stdint.h>\n")?);
    Ok(())
}

// Has the C of a source no function of a name?
fn lacks(alloc: Global, source: &str, name: &str) -> Result<bool, NoMemory> {
    let Some(file) = read_back(alloc, source)? else {
        return Ok(false);
    };
    let was = called(alloc, &file, name, &[1, 2, 3], &[0; 6])?;
    Ok(matches!(was, Err(CFault::NoFunction)))
}

#[test]
fn a_name_that_is_none_has_no_function(rt: HostRuntime) -> Result<(), Fail> {
    assert!(rt; lacks(rt.alloc(), ORIENT, "ln_other")?);
    Ok(())
}

const CIRCLES: &[CRow] = &[
    // Corners of the largest square, and its centre: the filter decides.
    (
        &[1, 2, 3, 4],
        &[
            -1048576, -1048576, 1048576, -1048576, 1048576, 1048576, 0, 0,
        ],
        1,
        1,
    ),
    // Corners of a square: a moves up, into the circle of b, c, d.
    (&[1, 2, 3, 4], &[0, 0, 1, 0, 1, 1, 0, 1], -1, 3),
    // One point, and the same with the indices of a and b exchanged: the last of 30 stages.
    (&[1, 2, 3, 4], &[7, 7, 7, 7, 7, 7, 7, 7], -1, 31),
    (&[2, 1, 3, 4], &[7, 7, 7, 7, 7, 7, 7, 7], 1, 31),
];

#[test]
fn circles_at_the_ends_of_ranges(rt: HostRuntime) -> Result<(), Fail> {
    assert!(rt; wide_of(rt.alloc(), CIRCLE, "ln_incircle", CIRCLES)?.is_some());
    Ok(())
}

const UNUSED_ROWS: &[CRow] = &[(&[1, 2], &[3, 2], 1, 1), (&[1, 2], &[-2, 2], -1, 1)];

// It is named in the C, and changes nothing.
#[test]
fn a_let_that_is_not_used(rt: HostRuntime) -> Result<(), Fail> {
    assert!(rt; wide_of(rt.alloc(), UNUSED, "ln_f", UNUSED_ROWS)? == Some(0));
    Ok(())
}
