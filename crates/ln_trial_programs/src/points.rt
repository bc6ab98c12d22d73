//! Tests of points: which one a record says, and which columns a file of them begins with.
ghost use Rattle.std.specs.Prelude.{◌≤◌, length};

use crate::sample::{ORIENT, compiled};
use csv::ByteRecord;
use ln_base::NoMemory;
use ln_edges::{Point, read_point};
use ln_rows::Rows;
use ln_tree::Site;
use std::alloc::Global;
use std::test::Fail;

// A record, and the index and the coordinates of the point that it says, if it says one.
type Said = (&'static [u8], Option<(i64, i64, i64)>);

const SAID: &[Said] = &[
    (b"7,-1000,0999\n", Some((7, -1000, 999))),
    (b"9223372036854775807,0,0\n", Some((i64::MAX, 0, 0))),
    (b"9223372036854775808,0,0\n", None),
    (b"-1,0,0\n", None),
    (b"7,1001,0\n", None),
    (b"7,x,0\n", None),
    (b"7,0\n", None),
    (b"7,0,0,0\n", None),
];

// Is it the point with this index and these two coordinates, and 0 in the other places?
fn is_at(point: &Point, want: (i64, i64, i64)) -> bool {
    let (index, x, y) = want;
    point.index == index && point.values[0] == x && point.values[1] == y && point.values[2] == 0
}

// Does the record say what it has to?
fn says(site: &Site, record: &ByteRecord, want: Option<(i64, i64, i64)>) -> bool
    requires { length site.now.coords ≤ 32 }
{
    match (read_point(site, record), want) {
        (Some(point), Some(want)) => is_at(&point, want),
        (None, None) => true,
        _ => false,
    }
}

// Texts, and whether they begin with the columns of points of the type.
const HEADERS: &[(&[u8], bool)] = &[
    (b"point,point.x,point.y\n1,2,3\n", true),
    (b"\"point\",point.x,\"point.y\"", true),
    (b"point,point.y,point.x\n", false),
    (b"point,point.x\n", false),
    (b"point,point.x,point.y,point.z\n", false),
    (b"", false),
];

// Do the records say what they have to, and do the texts begin as they have to?
fn are_read(alloc: Global, site: &Site) -> Result<bool, NoMemory> {
    if site.coords.as_slice().len() > 32 {
        return Ok(false);
    }
    let mut record = ByteRecord::new(alloc);
    for (text, want) in SAID {
        let mut rows = Rows::new(alloc, text)?;
        if !rows.next(&mut record)? || !says(site, &record, *want) {
            return Ok(false);
        }
    }
    for (text, begins) in HEADERS {
        let mut rows = Rows::new(alloc, text)?;
        if matches!(rows.point_header(site), Ok(true)) != *begins {
            return Ok(false);
        }
    }
    Ok(true)
}

// The same of the type of the orientation's points.
fn are_read_as_points(alloc: Global) -> Result<bool, NoMemory> {
    let Some(c) = compiled(alloc, ORIENT)? else {
        return Ok(false);
    };
    match c.table().sites.as_slice().first() {
        Some(site) => are_read(alloc, site),
        None => Ok(false),
    }
}

#[test]
fn records_and_columns_of_points_are_read(rt: HostRuntime) -> Result<(), Fail> {
    assert!(rt; are_read_as_points(rt.alloc())?);
    Ok(())
}
