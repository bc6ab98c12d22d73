//! Compares fields with the names of columns.
ghost use Rattle.std.specs.Prelude.{◌≡◌, ◌↔◌, ◌+◌, ◌-◌, ◌<◌, ◌^◌, ◌++◌, min, [], ◌∷◌, map, length, IsTrue, Some};
ghost use Rattle.csv.specs.Records.{fields_of, field_at};
ghost use Rattle.std.specs.Option.{option_copied};
ghost use Rattle.ln_tree.specs.Names.{name_bytes};
ghost use Rattle.ln_rows.specs.Columns.{coord_column, site_columns, param_columns, arg_columns, column_names, Passes};

use csv::ByteRecord;
use ln_tree::{Arg, Coord, Name, Param, Pred, Site, Table, arg_width};

fn same(a: &[u8], b: &[u8]) -> bool
    ensures { IsTrue result ↔ (a.now ≡ b.now) }
{
    a == b
}

// Is it the name of a site, a dot and the name of a coordinate?
fn is_dotted(field: &[u8], site: &[u8], coord: &[u8]) -> bool
    ensures { IsTrue result ↔ (field.now ≡ site.now ++ 46 ∷ coord.now) }
{
    let n = site.len();
    field.len() > n && same(&field[..n], site) && field[n] == b'.' && same(&field[n + 1..], coord)
}

// Is the field at a place this name?
fn is_name(fields: &ByteRecord, at: usize, name: &Name) -> bool
    ensures value { IsTrue result ↔ (field_at (fields_of fields.now) at ≡ Some (name_bytes name.now)) }
    ensures small { IsTrue result → at + 1 < 2 ^ 64 }
{
    match fields.get(at) {
        Some(field) => same(field, name.bytes()),
        None => false,
    }
}

// Is the field at a place the name of this coordinate of the site?
fn is_coord(fields: &ByteRecord, at: usize, site: &Name, coord: &Coord) -> bool
    ensures value { IsTrue result ↔ (field_at (fields_of fields.now) at ≡ Some (coord_column site.now coord.now)) }
    ensures small { IsTrue result → at + 1 < 2 ^ 64 }
{
    match fields.get(at) {
        Some(field) => is_dotted(field, site.bytes(), coord.name.bytes()),
        None => false,
    }
}

// The place after a name, where it is the field at `at`.
fn past_name(fields: &ByteRecord, at: usize, name: &Name) -> Option<usize>
    ensures { Passes (name_bytes name.now ∷ []) (fields_of fields.now) at result }
{
    if is_name(fields, at, name) {
        Some(at + 1)
    } else {
        None
    }
}

// The place after the names of these coordinates of a site, where they are from `at` on.
fn past_coords(fields: &ByteRecord, at: usize, site: &Name, coords: &[Coord]) -> Option<usize>
    ensures { Passes (map (coord_column site.now) coords.now) (fields_of fields.now) at result }
{
    let mut to = at;
    'coords: for coord in coords {
        if !is_coord(fields, to, site, coord) {
            return None;
        }
        to += 1;
    }
    Some(to)
}

// The place after the columns of a site of this type, where they are from `at` on.
fn past_site(fields: &ByteRecord, at: usize, name: &Name, site: Option<&Site>) -> Option<usize>
    ensures { Passes (site_columns name.now (option_copied site.entry)) (fields_of fields.now) at result }
{
    let behind = past_name(fields, at, name)?;
    match site {
        Some(site) => past_coords(fields, behind, name, site.coords.as_slice()),
        None => Some(behind),
    }
}

// The place after the column of a param, where it is the field at `at`.
fn past_param(fields: &ByteRecord, at: usize, param: Option<&Param>) -> Option<usize>
    ensures { Passes (param_columns (option_copied param.entry)) (fields_of fields.now) at result }
{
    match param {
        Some(param) => past_name(fields, at, &param.name),
        None => Some(at),
    }
}

// The place after the columns of an argument, where they are from `at` on.
fn past_arg(fields: &ByteRecord, at: usize, t: &Table, arg: &Arg) -> Option<usize>
    ensures { Passes (arg_columns t.now.sites t.now.params arg.now) (fields_of fields.now) at result }
{
    match arg {
        Arg::Site(name, k) => past_site(fields, at, name, t.sites.get(usize::from(*k))),
        Arg::Param(k) => past_param(fields, at, t.params.get(usize::from(*k))),
    }
}

/// Are these fields the names of the columns, in order? The columns of a site argument are its index, named as the site, and
/// its coordinates, each named as the site, a dot and the coordinate; a param's column is named as the param.
pub fn header(t: &Table, p: &Pred, fields: &ByteRecord) -> bool
    ensures { IsTrue result ↔ (fields_of fields.now ≡ column_names t.now.sites t.now.params p.now.args) }
{
    let mut at = 0;
    'each: for arg in p.args.as_slice() {
        match past_arg(fields, at, t, arg) {
            Some(to) => at = to,
            None => return false,
        }
    }
    at == fields.len()
}

/// Are these fields the names of the columns of points of a type, in order: its index, named as the type, and its coordinates, each named
/// as the type, a dot and the coordinate?
pub fn point_header(s: &Site, fields: &ByteRecord) -> bool
    ensures { IsTrue result ↔ (fields_of fields.now ≡ site_columns s.now.name (Some s.now)) }
{
    match past_site(fields, 0, &s.name, Some(s)) {
        Some(to) => to == fields.len(),
        None => false,
    }
}

/// Room for as many fields as there are columns, and one; or `2^64 - 1` where that is less.
pub(crate) fn room(t: &Table, p: &Pred) -> usize
    ensures { result ≡ min (length (column_names t.now.sites t.now.params p.now.args) + 1) (2 ^ 64 - 1) }
{
    let mut room = 1usize;
    'each: for arg in p.args.as_slice() {
        room = room.saturating_add(arg_width(t, arg));
    }
    room
}
