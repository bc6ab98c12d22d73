//! The points of a points file.
ghost use Rattle.std.specs.Prelude.{◌≡◌, ◌↔◌, ◌+◌, ◌≤◌, ◌++◌, ◌∷◌, ℕ, List, map, take, option_map, length};
ghost use Rattle.std.specs.Prelude.{[], slice_index_or, MatchOption, IsErr, Ok, IfOk, IfSome, IsTrue, Contains};
ghost use Rattle.csv.specs.Records.{fields_of};
ghost use Rattle.ln_edges.specs.Points.{IsZeroAfter, point_of};
ghost use Rattle.ln_edges.specs.Read.{IsFound, IsNextPoint, IsNoPoint, AreReadAs};
ghost use Rattle.ln_edges.specs.Read.{coords_of, point_for, point_in, points_for};
ghost use Rattle.ln_rows.specs.Left.{Records};
ghost use Rattle.ln_rows.specs.Number.{number_in};
ghost use Rattle.ln_tree.specs.Table.{CoordOf, coord_of};

use crate::point::Point;
use csv::ByteRecord;
use ln_base::NoMemory;
use ln_rows::{Rows, field, number};
use ln_tree::{Coord, Site};
use std::alloc::Global;

// The number of a field in the range of a coordinate.
fn coordinate(fields: &ByteRecord, at: usize, coord: &Coord) -> Option<i64>
    ensures { MatchOption result
        (IsErr (number_in coord.now.lo coord.now.hi (slice_index_or (fields_of fields.now) at [])))
        (λ z. number_in coord.now.lo coord.now.hi (slice_index_or (fields_of fields.now) at []) ≡ Ok z) }
{
    match number(field(fields, at), coord.lo, coord.hi) {
        Ok(z) => Some(z),
        Err(_) => None,
    }
}

// The point of a record with one field for the index and one for each coordinate.
fn point_over(coords: &[Coord], fields: &ByteRecord) -> Option<Point>
    requires few { length coords.now ≤ 32 }
    requires size { length (fields_of fields.now) ≡ length coords.now + 1 }
    ensures point { option_map (point_of (length (map coord_of coords.now))) result
        ≡ point_in (map coord_of coords.now) (fields_of fields.now) }
    ensures zero { IfSome result (λ p. IsZeroAfter (length (map coord_of coords.now)) p) }
{
    let index = match number(field(fields, 0), 0, i64::MAX) {
        Ok(index) => index,
        Err(_) => return None,
    };
    let mut values = [0i64; 32];
    'coords: for (k, coord) in coords.iter().enumerate() {
        match coordinate(fields, k + 1, coord) {
            Some(z) => values[k] = z,
            None => return None,
        }
    }
    Some(Point { index, values })
}

/// Returns the point that a record says: its index, from 0 to `2^63 - 1`, and its coordinates, each in its range; the
/// places after those of the type are 0. `None` exactly where the record says none: where it has another number of
/// fields, or a field isn't such a number. It allocates nothing.
pub fn read_point(site: &Site, fields: &ByteRecord) -> Option<Point>
    requires { length site.now.coords ≤ 32 }
    ensures point { option_map (point_for site.now) result
        ≡ point_in (coords_of site.now) (fields_of fields.now) }
    ensures zero { IfSome result (λ p. IsZeroAfter (length (coords_of site.now)) p) }
{
    let coords = site.coords.as_slice();
    if fields.len() != coords.len() + 1 {
        return None;
    }
    point_over(coords, fields)
}

/// The records after the header.
#[derive(Drop)]
pub enum Found {
    /// Points, at most 256, whose indices differ.
    Points(Vec<Point>),
    /// More than 256 records.
    Many,
    /// At most 256 records, of which the one of this number, from 1, is the first that is no point: it says none, or
    /// has the index of an earlier point.
    NoPoint(u32),
}

// Has one of the points this index?
fn has_index(points: &[Point], index: i64) -> bool
    ensures { IsTrue result ↔ Contains (map (λ p. p.index) points.now) index }
{
    'points: for p in points {
        if p.index == index {
            return true;
        }
    }
    false
}

// The point that a record says after these; none where it is no point.
fn next_point(site: &Site, points: &[Point], fields: &ByteRecord) -> Option<Point>
    requires { length site.now.coords ≤ 32 }
    ensures { MatchOption result
        (IsNoPoint (coords_of site.now) (points_for site.now points.now) (fields_of fields.now))
        (λ p. IsNextPoint (coords_of site.now) (points_for site.now points.now) (fields_of fields.now)
        (point_for site.now p)) }
{
    match read_point(site, fields) {
        Some(point) => {
            if has_index(points, point.index) {
                return None;
            }
            Some(point)
        }
        None => None,
    }
}

// Takes a further record, of this number, of which the first fields are kept: the point that it says, or that it is
// the first that is no point.
fn take_record(
    site: &Site,
    points: &mut Vec<Point>,
    fault: Option<u32>,
    number: u32,
    fields: &ByteRecord,
) -> Result<Option<u32>, NoMemory>
    requires { length site.now.coords ≤ 32 }
    ensures { IfOk result (λ o. (done : Records) → (all : List (List ℕ))
        → fields_of fields.now ≡ take (length (coords_of site.now) + 2) all → number ≡ length done + 1
        → AreReadAs (coords_of site.now) done (points_for site.now points.old.items) fault
        → AreReadAs (coords_of site.now) (done ++ all ∷ []) (points_for site.now points.new.items) o) }
{
    if fault.is_some() {
        return Ok(fault);
    }
    match next_point(site, points, fields) {
        Some(point) => {
            points.push(point)?;
            Ok(None)
        }
        None => Ok(Some(number)),
    }
}

// Returns what was found, where there are at most 256 records.
fn make_found(points: Vec<Point>, fault: Option<u32>) -> Found
    ensures { (cs : List CoordOf) (records : Records) → length records ≤ 256
        → AreReadAs cs records (map (point_of (length cs)) points.items) fault → IsFound cs records result }
{
    match fault {
        Some(number) => Found::NoPoint(number),
        None => Found::Points(points),
    }
}

/// Returns what the remaining records, those after the header, are. A bad record among the first 256 is remembered,
/// and the records are counted on, as more than 256 of them come before it. `NoMemory` if an allocation fails.
pub fn read_points(alloc: Global, site: &Site, rows: &mut Rows<'_>) -> Result<Found, NoMemory>
    requires { length site.now.coords ≤ 32 }
    ensures { IfOk result (λ f. IsFound (coords_of site.now) rows.old f) }
{
    let mut points = Vec::new(alloc);
    let mut record = ByteRecord::new(alloc);
    let mut fault = None;
    let mut number = 0u32;
    let most = site.coords.as_slice().len() + 2;
    'records: loop {
        if !rows.next_within(most, &mut record)? {
            return Ok(make_found(points, fault));
        }
        if number == 256 {
            return Ok(Found::Many);
        }
        number += 1;
        fault = take_record(site, &mut points, fault, number, &record)?;
    }
}
