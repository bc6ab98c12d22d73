//! Records of rows files: their fields, headers, numbers, rows and points; edges of points.
use csv::ByteRecord;
use ln_base::NoMemory;
use ln_code::{Program, Row, Scratch};
use ln_edges::{Point, is_edge, read_point};
use ln_rows::{NumberStop, RowStop, Rows, header, number, row};
use ln_tree::{Pred, Site, Table};
use ln_trial_programs::sample::{ORIENT, compiled};
use std::alloc::Global;
use std::test::Fail;

#[test]
fn calls_of_rows_and_points_have_their_types(_rt: HostRuntime) {
    let _: fn(&Table, &Pred, &ByteRecord) -> bool = header;
    let _: fn(&Pred, &ByteRecord) -> Result<Row, RowStop> = row;
    let _: fn(&[u8], i64, i64) -> Result<i64, NumberStop> = number;
    let _: fn(&Site, &ByteRecord) -> Option<Point> = read_point;
    let _: fn(&Program, &mut Scratch, &[Point], usize, usize) -> bool = is_edge;
}

// The number of a cause, from 1, and the column.
fn cause(s: RowStop) -> (u8, u8) {
    match s {
        RowStop::Fields => (1, 0),
        RowStop::Number(col) => (2, col),
        RowStop::Range(col) => (3, col),
        RowStop::Index(col) => (4, col),
    }
}

// The second index and the last value of a record's row; or why it is none, and the column.
fn told(p: &Pred, fields: &ByteRecord) -> Result<(i64, i64), (u8, u8)> {
    match row(p, fields) {
        Ok(r) => Ok((r.index[1], r.values[5])),
        Err(stop) => Err(cause(stop)),
    }
}

// A record, whether it is the header, and what row it is, or why none.
type Want = (&'static [u8], bool, Result<(i64, i64), (u8, u8)>);

const RECORDS: &[Want] = &[
    (b"p,p.x,p.y,q,q.x,q.y,r,r.x,r.y\n", true, Err((2, 0))),
    (b"p,p.x,p.y,q,q.x,q.y,r,r.x\n", false, Err((1, 0))),
    (b"1,0,0,2,1,0,3,0,1\n", false, Ok((2, 1))),
    (b"1,-0,007,2,1,0,3,0,1\n", false, Ok((2, 1))),
    (b"1,0,0,1,1,0,3,0,1\n", false, Err((4, 3))),
    (b"1,1001,0,2,1,0,3,0,1\n", false, Err((3, 1))),
    (b"1,1e3,0,2,1,0,3,0,1\n", false, Err((2, 1))),
    (b"1,0,0,2,1,0,3,0\n", false, Err((1, 0))),
    (b"-1,0,0,2,1,0,3,0,1\n", false, Err((3, 0))),
];

// Are the records of the table what they have to be for a predicate?
fn are_told(alloc: Global, t: &Table, p: &Pred) -> Result<bool, NoMemory> {
    let mut fields = ByteRecord::new(alloc);
    for (text, heads, want) in RECORDS {
        let mut rows = Rows::new(alloc, text)?;
        if !rows.next(&mut fields)?
            || header(t, p, &fields) != *heads
            || told(p, &fields) != *want
        {
            return Ok(false);
        }
    }
    Ok(true)
}

// Are they so for the one predicate of a source?
fn are_told_of(alloc: Global, source: &str) -> Result<bool, NoMemory> {
    match compiled(alloc, source)? {
        Some(c) => {
            match c.table().preds.as_slice() {
                [p] => are_told(alloc, c.table(), p),
                _ => Ok(false),
            }
        }
        None => Ok(false),
    }
}

#[test]
fn records_of_the_orientation_are_its_header_or_rows_or_refused(
    rt: HostRuntime,
) -> Result<(), Fail> {
    assert!(rt; are_told_of(rt.alloc(), ORIENT)?);
    Ok(())
}
