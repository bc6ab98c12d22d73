//! Records by csv's own reader.
ghost use Rattle.std.specs.Prelude.{◌≡◌, [], ◌∷◌, IfOk, ⊤};
ghost use Rattle.csv.specs.Records.{fields_of};
ghost use Rattle.ln_rows.specs.Left.{records_of, TakesWithin};

use csv::{ByteRecord, Error, Reader, ReaderBuilder};
use ln_base::{NoMemory, ReportsNoMemory};
use std::alloc::Global;
use std::io::{Chain, Read};
use std::marker::Model;

/// The records of bytes in memory as csv's own reader returns them, with its default settings but for lengths, which may differ.
#[derive(Drop)]
pub(crate) struct Quoted<'a> {
    reader: Reader<Chain<&'static [u8], &'a [u8]>>,
}

impl<'a> Model for Quoted<'a> {
    ghost use Rattle.ln_rows.specs.Left.{Records, reader_records, MayRead};

    ghost Value = { Records };

    ghost view = { λ q. reader_records q.reader };

    ghost invariant = { λ q. MayRead q.reader };
}

// Why csv's reader stopped, which reads bytes in memory, with lengths that may differ: memory ran out, since nothing else stops it there.
#[derive(Drop)]
struct Unread {
    _why: Error,
}

impl ReportsNoMemory for Unread {
    ghost reports = { λ _. ⊤ };
}

fn line_end() -> &'static [u8]
    ensures { result.now ≡ 10 ∷ [] }
{
    b"\n"
}

impl<'a> Quoted<'a> {
    /// The records of these bytes. A line end is written before them, which begins no record, since the reader takes a byte order mark off the
    /// start of its bytes. An empty header is set, for which the reader reads and keeps none.
    pub(crate) fn new(alloc: Global, bytes: &'a [u8]) -> Result<Quoted<'a>, NoMemory>
        ensures { IfOk result (λ q. q ≡ records_of bytes.now) }
    {
        let mut reader = ReaderBuilder::new()
            .flexible(true)
            .from_reader(alloc, line_end().chain(bytes));
        match reader.set_byte_headers(ByteRecord::new(alloc)) {
            Ok(()) => Ok(Quoted { reader }),
            Err(e) => Err(NoMemory::reported_by(&Unread { _why: e })),
        }
    }

    /// The first `most` fields of the next record into `into`, and whether there was one. After false or `NoMemory` it isn't used again.
    pub(crate) fn next(&mut self, most: usize, into: &mut ByteRecord) -> Result<bool, NoMemory>
        ensures { IfOk result (λ found. TakesWithin most found self.old self.new (fields_of into.new)) }
    {
        let found = match self.reader.read_byte_record(into) {
            Ok(found) => found,
            Err(e) => return Err(NoMemory::reported_by(&Unread { _why: e })),
        };
        let count = into.len().min(most);
        into.truncate(count);
        Ok(found)
    }
}
