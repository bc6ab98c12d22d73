//! The remaining records of bytes in memory.
ghost use Rattle.std.specs.Prelude.{◌≡◌, ◌≤◌, ◌+◌, ℕ, List, [], false, true, length, IfOk, OnErr};
ghost use Rattle.csv.specs.Reading.{is_bom, strip_bom};
ghost use Rattle.csv.specs.Records.{fields_of};
ghost use Rattle.ln_rows.specs.Left.{left_of, records_in, records_of, TakesWithin};
ghost use Rattle.ln_rows.specs.Plain.{TakesPlainRow};
ghost use Rattle.ln_rows.specs.Record.{columns};

use crate::line::plain_record;
use crate::plain::{past_ends, plain_row};
use crate::quoted::Quoted;
use csv::ByteRecord;
use ln_base::NoMemory;
use ln_code::Row;
use ln_tree::VarInfo;
use std::alloc::Global;
use std::marker::Model;

/// The remaining records: those of `rest` while no record had a quote, and then those of csv's own reader.
#[derive(Drop)]
pub(crate) struct Left<'a> {
    alloc: Global,
    rest: &'a [u8],
    quoted: Option<Quoted<'a>>,
}

impl<'a> Model for Left<'a> {
    ghost use Rattle.ln_rows.specs.Left.{Records, left_of};

    ghost Value = { Records };

    ghost view = { λ r. left_of r.rest.now r.quoted };
}

fn is_mark(a: u8, b: u8, c: u8) -> bool
    ensures { result ≡ is_bom a b c }
{
    a == 0xEF && b == 0xBB && c == 0xBF
}

// The bytes after a byte order mark.
fn past_mark(bytes: &[u8]) -> &[u8]
    ensures { result.now ≡ strip_bom bytes.now }
{
    if bytes.len() < 3 {
        return bytes;
    }
    if is_mark(bytes[0], bytes[1], bytes[2]) {
        &bytes[3..]
    } else {
        bytes
    }
}

// Whether what remains is the records of the bytes that remain, since none had a quote so far.
fn reads_bytes(quoted: &Option<Quoted<'_>>) -> bool
    ensures { result ≡ true → (bytes : List ℕ) → left_of bytes quoted.now ≡ records_of bytes }
{
    match quoted {
        None => true,
        Some(_) => false,
    }
}

impl<'a> Left<'a> {
    pub(crate) fn new(alloc: Global, bytes: &'a [u8]) -> Left<'a>
        ensures { result ≡ records_in bytes.now }
    {
        Left {
            alloc,
            rest: past_mark(bytes),
            quoted: None,
        }
    }

    /// Takes the next record, where its fields are plain numbers in the ranges of these variables' columns, and writes them into the row.
    pub(crate) fn take_row(&mut self, vars: &[VarInfo], into: &mut Row) -> bool
        requires few_vars { length vars.now ≤ 168 }
        requires few_sites { length (columns vars.now) ≤ length vars.now + 5 }
        ensures { TakesPlainRow vars.now result self.old self.new into.new }
    {
        if !reads_bytes(&self.quoted) {
            return false;
        }
        match plain_row(vars, past_ends(self.rest), into) {
            Some(rest) => {
                self.rest = rest;
                true
            }
            None => false,
        }
    }

    // The same as `take`, but its contract doesn't say what remains at the end and after `NoMemory`.
    fn try_take(&mut self, most: usize, into: &mut ByteRecord) -> Result<bool, NoMemory>
        ensures { IfOk result (λ found. TakesWithin most found self.old self.new (fields_of into.new)) }
    {
        if let Some(quoted) = &mut self.quoted {
            return quoted.next(most, into);
        }
        let text = past_ends(self.rest);
        if text.is_empty() {
            return Ok(false);
        }
        if let Some(rest) = plain_record(text, most, into)? {
            self.rest = rest;
            return Ok(true);
        }
        let quoted = self.quoted.insert(Quoted::new(self.alloc, text)?);
        quoted.next(most, into)
    }

    // Leaves no record.
    fn end(&mut self)
        ensures { self.new ≡ [] }
    {
        self.rest = &[];
        self.quoted = None;
    }

    /// Takes the next record: the first `most` of its fields into `into`, and whether there was one. At the end no record remains, before and after.
    /// After `NoMemory` no record remains.
    pub(crate) fn take(&mut self, most: usize, into: &mut ByteRecord) -> Result<bool, NoMemory>
        ensures takes { IfOk result (λ found. TakesWithin most found self.old self.new (fields_of into.new)) }
        ensures end { IfOk result (λ found. found ≡ false → self.new ≡ []) }
        ensures err { OnErr result (self.new ≡ []) }
    {
        match self.try_take(most, into) {
            Ok(true) => Ok(true),
            Ok(false) => {
                self.end();
                Ok(false)
            }
            Err(e) => {
                self.end();
                Err(e)
            }
        }
    }
}
