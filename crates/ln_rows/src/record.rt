//! Reads a record as a row of a predicate, or tells the first fault that it has.
ghost use Rattle.std.specs.Prelude.{◌≡◌, ◌+◌, ◌-◌, ◌<◌, ◌≤◌, ℕ, List, [], true, length, slice_index_or, Some, None, Ok, Err, IfErr, IfOk, OnErr, OnOk};
ghost use Rattle.csv.specs.Records.{fields_of};
ghost use Rattle.ln_tree.specs.Row.{InRange};
ghost use Rattle.ln_code.specs.RowOf.{row_of, IsZeroPast};
ghost use Rattle.ln_tree.specs.Variables.{is_laid_out};
ghost use Rattle.ln_rows.specs.Number.{number_in};
ghost use Rattle.ln_rows.specs.Record.{SiteIndex, Variable, columns, column_number, in_column, first_fault};
ghost use Rattle.ln_rows.specs.Record.{values, index_column, read_row, IsBegun, IsRead, IsReadAs, StaysPast};

use crate::numbers::{NumberStop, number};
use csv::ByteRecord;
use ln_code::Row;
use ln_order::first_equal;
use ln_tree::layout::starts_site;
use ln_tree::{Pred, VarInfo};

/// Why a record isn't a row: the first of these that it has. A column is named by its number, from 0.
#[derive(Clone, Copy)]
pub enum RowStop {
    /// The number of its fields isn't that of the columns.
    Fields,
    /// The field of this column, the first with a fault, isn't an optional `-` and one or more digits.
    Number(u8),
    /// The field of this column, the first with a fault, is a number outside the column's range.
    Range(u8),
    /// The site with this column, the first such, has the index of an earlier site.
    Index(u8),
}

/// The field at a place, empty past the last one.
pub fn field(fields: &ByteRecord, at: usize) -> &[u8]
    ensures { result.now ≡ slice_index_or (fields_of fields.now) at [] }
{
    match fields.get(at) {
        Some(bytes) => bytes,
        None => &[],
    }
}

// The number of the field of column `at`, from lo to hi.
fn read(fields: &ByteRecord, at: usize, lo: i64, hi: i64) -> Result<i64, RowStop>
    requires { at < 256 }
    ensures { result ≡ in_column at (number_in lo hi (slice_index_or (fields_of fields.now) at [])) }
{
    match number(field(fields, at), lo, hi) {
        Ok(z) => Ok(z),
        Err(NumberStop::Number) => Err(RowStop::Number(at as u8)),
        Err(NumberStop::Range) => Err(RowStop::Range(at as u8)),
    }
}

// The index in column `at`.
fn read_index(fields: &ByteRecord, at: usize) -> Result<i64, RowStop>
    requires { at < 256 }
    ensures { result ≡ in_column at (column_number SiteIndex (slice_index_or (fields_of fields.now) at [])) }
{
    read(fields, at, 0, i64::MAX)
}

// The value of a variable in column `at`.
fn read_value(fields: &ByteRecord, at: usize, i: &VarInfo) -> Result<i64, RowStop>
    requires { at < 256 }
    ensures { result ≡ in_column at (column_number (Variable i.now) (slice_index_or (fields_of fields.now) at [])) }
{
    let lo = i.lo;
    let hi = i.hi;
    read(fields, at, lo, hi)
}

// The row that the fields say, or the first fault of a column. Nothing else of the row is written.
fn read_columns(vars: &[VarInfo], fields: &ByteRecord, into: &mut Row) -> Result<(), RowStop>
    requires few_vars { length vars.now ≤ 168 }
    requires few_sites { length (columns vars.now) ≤ length vars.now + 5 }
    requires size { length (fields_of fields.now) ≡ length (columns vars.now) }
    ensures ok { OnOk result (IsRead vars.now (fields_of fields.now) into.new) }
    ensures err { IfErr result (λ e. first_fault 0 (columns vars.now) (fields_of fields.now) ≡ Some e) }
    ensures past { StaysPast (length (columns vars.now) - length vars.now) (length vars.now) into.old into.new }
    ensures begun { OnErr result (IsBegun vars.now (fields_of fields.now) into.old into.new) }
{
    let mut at = 0usize;
    let mut site = 0usize;
    'vars: for (v, i) in vars.iter().enumerate() {
        if starts_site(i) {
            into.index[site] = read_index(fields, at)?;
            into.values[v] = read_value(fields, at + 1, i)?;
            site += 1;
            at += 2;
        } else {
            into.values[v] = read_value(fields, at, i)?;
            at += 1;
        }
    }
    Ok(())
}

// How many columns there are.
pub(crate) fn column_count(vars: &[VarInfo], sites: u8) -> usize
    requires { is_laid_out sites vars.now ≡ true }
    ensures { result ≡ length (columns vars.now) }
{
    vars.len() + usize::from(sites)
}

// The column with the index of site `place`.
fn index_column(vars: &[VarInfo], place: u8) -> u8
    requires { length (columns vars.now) < 256 }
    ensures { result ≡ index_column 0 place (columns vars.now) }
{
    let mut at = 0u8;
    let mut left = place;
    'vars: for i in vars {
        if starts_site(i) {
            if left == 0 {
                return at;
            }
            left -= 1;
            at += 2;
        } else {
            at += 1;
        }
    }
    at
}

// Whether the indices of a row that was read differ, or the fault that it has.
pub(crate) fn differ(vars: &[VarInfo], sites: u8, into: &Row) -> Result<(), RowStop>
    requires { is_laid_out sites vars.now ≡ true }
    ensures { (fields : List (List ℕ)) → length fields ≡ length (columns vars.now) → IsRead vars.now fields into.now →
        IsReadAs sites vars.now fields result into.now }
{
    match first_equal(&into.index[..usize::from(sites)]) {
        None => Ok(()),
        Some(place) => Err(RowStop::Index(index_column(vars, place))),
    }
}

// The row of a predicate with these variables and this many sites, or the first fault.
fn row_over(vars: &[VarInfo], sites: u8, fields: &ByteRecord, into: &mut Row) -> Result<(), RowStop>
    requires { is_laid_out sites vars.now ≡ true }
    ensures ok { OnOk result (read_row sites vars.now (fields_of fields.now) ≡ Ok (row_of sites vars.now into.new)) }
    ensures err { IfErr result (λ e. read_row sites vars.now (fields_of fields.now) ≡ Err e) }
    ensures past { StaysPast sites (length vars.now) into.old into.new }
    ensures in_range { OnOk result (InRange sites vars.now (row_of sites vars.now into.new)) }
    ensures begun { OnErr result (IsBegun vars.now (fields_of fields.now) into.old into.new) }
{
    if fields.len() != column_count(vars, sites) {
        return Err(RowStop::Fields);
    }
    read_columns(vars, fields, into)?;
    differ(vars, sites, into)
}

/// Reads the row that a record says into `into`, or returns the first fault that it has: `row` for a caller that keeps one `Row` for
/// many records. An index is from 0 to `2^63 - 1`, a variable in its declared range, and the indices differ. Places past those of the
/// predicate stay as they are; so where they were 0 they are 0. After a fault the row is that of no record: the first
/// indices and values of the predicate that were read are this record's, and all other places are as they were. A call that
/// succeeds writes all places of the predicate. Allocates nothing.
pub fn fill_row(p: &Pred, fields: &ByteRecord, into: &mut Row) -> Result<(), RowStop>
    ensures ok { OnOk result (read_row p.now.shape.sites p.now.shape.vars (fields_of fields.now)
        ≡ Ok (row_of p.now.shape.sites p.now.shape.vars into.new)) }
    ensures err { IfErr result (λ e. read_row p.now.shape.sites p.now.shape.vars (fields_of fields.now) ≡ Err e) }
    ensures stays { StaysPast p.now.shape.sites (length p.now.shape.vars) into.old into.new }
    ensures past { IsZeroPast p.now.shape.sites (length p.now.shape.vars) into.old →
        IsZeroPast p.now.shape.sites (length p.now.shape.vars) into.new }
    ensures in_range { OnOk result (InRange p.now.shape.sites p.now.shape.vars (row_of p.now.shape.sites p.now.shape.vars into.new)) }
    ensures begun { OnErr result (IsBegun p.now.shape.vars (fields_of fields.now) into.old into.new) }
{
    row_over(p.shape.vars.as_slice(), p.shape.sites, fields, into)
}

// A row of zeros.
fn no_numbers() -> Row
    ensures { IsZeroPast 0 0 result }
{
    Row {
        index: [0; 5],
        values: [0; 168],
    }
}

/// Returns the row that a record says, or the first fault that it has: another number of fields than of columns; the first column from
/// the left whose field is no number, or one out of range; the first site whose index an earlier site has. An index is from 0 to
/// `2^63 - 1`, a variable in its declared range. Places past those of the predicate are 0. Allocates nothing.
pub fn row(p: &Pred, fields: &ByteRecord) -> Result<Row, RowStop>
    ensures ok { IfOk result (λ r. read_row p.now.shape.sites p.now.shape.vars (fields_of fields.now)
        ≡ Ok (row_of p.now.shape.sites p.now.shape.vars r)) }
    ensures err { IfErr result (λ e. read_row p.now.shape.sites p.now.shape.vars (fields_of fields.now) ≡ Err e) }
    ensures past { IfOk result (λ r. IsZeroPast p.now.shape.sites (length p.now.shape.vars) r) }
    ensures in_range { IfOk result (λ r. InRange p.now.shape.sites p.now.shape.vars (row_of p.now.shape.sites p.now.shape.vars r)) }
{
    let mut row = no_numbers();
    fill_row(p, fields, &mut row)?;
    Ok(row)
}
