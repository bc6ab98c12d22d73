//! The records of a rows file.
ghost use Rattle.std.specs.Prelude.{◌≡◌, ◌+◌, ◌≤◌, ℕ, List, None, Some, [], ◌∷◌, true, false, length, take, IfOk, IfSome, IsOk, OnErr};
ghost use Rattle.csv.specs.Records.{fields_of};
ghost use Rattle.ln_rows.specs.Columns.{site_columns};
ghost use Rattle.ln_rows.specs.Header.{HeaderIs, names_of};
ghost use Rattle.ln_rows.specs.Left.{Records, records_in, Takes};
ghost use Rattle.ln_rows.specs.Record.{IsReadAs};

use crate::left::Left;
use crate::names::{header, point_header, room};
use crate::record::{RowStop, column_count, differ, fill_row};
use csv::ByteRecord;
use ln_base::NoMemory;
use ln_code::Row;
use ln_tree::{Pred, Site, Table};
use std::alloc::Global;
use std::marker::Model;

/// The records of bytes in memory, which contracts see as the list of those that remain. `csv` defines what a record is:
/// fields with commas between them, in quotes or not; records end at LF, CR LF or CR, and empty lines are none.
#[derive(Drop)]
pub struct Rows<'a> {
    left: Left<'a>,
    record: ByteRecord,
}

impl<'a> Model for Rows<'a> {
    ghost use Rattle.ln_rows.specs.Left.{Records};

    ghost Value = { Records };

    ghost view = { λ r. r.left };
}

impl<'a> Rows<'a> {
    /// Makes the list of the records of these bytes, none of which has been read. It allocates nothing: reading the first record does.
    pub fn new(alloc: Global, bytes: &'a [u8]) -> Result<Rows<'a>, NoMemory>
        ensures records { IfOk result (λ r. r ≡ records_in bytes.now) }
        ensures made { IsOk result }
    {
        Ok(Rows {
            left: Left::new(alloc, bytes),
            record: ByteRecord::new(alloc),
        })
    }

    /// The next record into `into`, and whether there was one. At the end no record remains, before and after, and after `NoMemory` none.
    pub fn next(&mut self, into: &mut ByteRecord) -> Result<bool, NoMemory>
        ensures takes { IfOk result (λ found. Takes found self.old self.new (fields_of into.new)) }
        ensures end { IfOk result (λ found. found ≡ false → (self.old ≡ []) × (self.new ≡ [])) }
        ensures err { OnErr result (self.new ≡ []) }
    {
        let found = self.left.take(usize::MAX, into)?;
        Ok(found)
    }

    /// The first `most` fields of the next record into `into`, and whether there was one. Of a record without quotes no more are kept. At the end no
    /// record remains, before and after. After `NoMemory` no record remains.
    pub fn next_within(&mut self, most: usize, into: &mut ByteRecord) -> Result<bool, NoMemory>
        ensures takes { IfOk result (λ found. found ≡ true → (fields : List (List ℕ)) × (self.old ≡ fields ∷ self.new)
            × (fields_of into.new ≡ take most fields)) }
        ensures end { IfOk result (λ found. found ≡ false → (self.old ≡ []) × (self.new ≡ [])) }
        ensures err { OnErr result (self.new ≡ []) }
    {
        let found = self.left.take(most, into)?;
        Ok(found)
    }

    /// Takes the first record, if there is one, and returns whether its fields are the names of the columns of points of a type. After
    /// `NoMemory` no record remains.
    pub fn point_header(&mut self, s: &Site) -> Result<bool, NoMemory>
        requires { length s.now.coords ≤ 32 }
        ensures right { IfOk result (λ right. right ≡ true → self.old ≡ site_columns s.now.name (Some s.now) ∷ self.new) }
        ensures wrong { IfOk result (λ right. right ≡ false → (rest : Records) →
            self.old ≡ site_columns s.now.name (Some s.now) ∷ rest → ⊥) }
        ensures err { OnErr result (self.new ≡ []) }
    {
        let most = s.coords.as_slice().len() + 2;
        let found = self.left.take(most, &mut self.record)?;
        if !found {
            return Ok(false);
        }
        Ok(point_header(s, &self.record))
    }

    /// Takes the first record, if there is one, and returns whether its fields are the names of the predicate's columns. After
    /// `NoMemory` no record remains.
    pub fn header(&mut self, t: &Table, p: &Pred) -> Result<bool, NoMemory>
        ensures header { IfOk result (λ right. HeaderIs (names_of t.now p.now) self.old self.new right) }
        ensures err { OnErr result (self.new ≡ []) }
    {
        let found = self.left.take(room(t, p), &mut self.record)?;
        if !found {
            return Ok(false);
        }
        Ok(header(t, p, &self.record))
    }

    // The same as `next_row`, by the fields of the record.
    fn next_fields(
        &mut self,
        p: &Pred,
        into: &mut Row,
    ) -> Result<Option<Result<(), RowStop>>, NoMemory>
        ensures takes { IfOk result (λ o. IfSome o (λ read. (fields : List (List ℕ)) × (self.old ≡ fields ∷ self.new)
            × IsReadAs p.now.shape.sites p.now.shape.vars fields read into.new)) }
        ensures end { IfOk result (λ o. o ≡ None → (self.old ≡ []) × (self.new ≡ [])) }
        ensures err { OnErr result (self.new ≡ []) }
    {
        let most = column_count(p.shape.vars.as_slice(), p.shape.sites) + 1;
        let found = self.left.take(most, &mut self.record)?;
        if !found {
            return Ok(None);
        }
        Ok(Some(fill_row(p, &self.record, into)))
    }

    /// Takes the next record, if there is one, and reads the row that it says into `into`, or returns the first fault that it has. Places
    /// past those of the predicate may change. Allocates nothing where the fields are plain numbers, and keeps no more fields of a record
    /// without quotes than there are columns, and one. At the end no record remains, before and after. After `NoMemory` no record remains.
    pub fn next_row(
        &mut self,
        p: &Pred,
        into: &mut Row,
    ) -> Result<Option<Result<(), RowStop>>, NoMemory>
        ensures takes { IfOk result (λ o. IfSome o (λ read. (fields : List (List ℕ)) × (self.old ≡ fields ∷ self.new)
            × IsReadAs p.now.shape.sites p.now.shape.vars fields read into.new)) }
        ensures end { IfOk result (λ o. o ≡ None → (self.old ≡ []) × (self.new ≡ [])) }
        ensures err { OnErr result (self.new ≡ []) }
    {
        let vars = p.shape.vars.as_slice();
        if self.left.take_row(vars, into) {
            Ok(Some(differ(vars, p.shape.sites, into)))
        } else {
            self.next_fields(p, into)
        }
    }
}
