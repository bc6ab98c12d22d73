//! Records without quotes, right from the bytes.
ghost use Rattle.std.specs.Prelude.{◌≡◌, ◌≤◌, ◌<◌, ℕ, List, true, false, get_or, length, take, IfOk, IfSome, OnOk};
ghost use Rattle.std.specs.List.{list_all};
ghost use Rattle.csv.specs.Records.{fields_of};
ghost use Rattle.ln_rows.specs.Left.{HasFirst};
ghost use Rattle.ln_rows.specs.Line.{is_unquoted, is_no_comma, fields_in};

use crate::plain::past_end;
use csv::ByteRecord;
use ln_base::NoMemory;

fn is_unquoted(b: u8) -> bool
    ensures { result ≡ is_unquoted b }
{
    !(b == b'"' || b == b'\n' || b == b'\r')
}

// Returns how many bytes are before the first quote or line end.
fn line_length(text: &[u8]) -> usize
    ensures within { result ≤ length text.now }
    ensures all { list_all is_unquoted (take result text.now) ≡ true }
{
    let mut at = 0usize;
    'line: while at < text.len() && is_unquoted(text[at]) {
        at += 1;
    }
    at
}

fn is_no_comma(b: u8) -> bool
    ensures { result ≡ is_no_comma b }
{
    !(b == b',')
}

// Returns how many bytes are before the first comma.
fn field_length(line: &[u8]) -> usize
    ensures within { result ≤ length line.now }
    ensures all { list_all is_no_comma (take result line.now) ≡ true }
    ensures comma { result < length line.now → is_no_comma (get_or line.now result 0) ≡ false }
{
    let mut at = 0usize;
    'field: while at < line.len() && is_no_comma(line[at]) {
        at += 1;
    }
    at
}

// The first `most` of the fields between the commas of a line.
fn split(line: &[u8], most: usize, into: &mut ByteRecord) -> Result<(), NoMemory>
    ensures { OnOk result (fields_of into.new ≡ take most (fields_in line.now)) }
{
    into.clear();
    let mut rest = line;
    'fields: while into.len() < most {
        let size = field_length(rest);
        into.push_field(&rest[..size])?;
        if size == rest.len() {
            return Ok(());
        }
        rest = &rest[size + 1..];
    }
    Ok(())
}

/// Reads the first `most` fields of the first record into `into`, of a text that begins with no line end, where no quote is in the record, and
/// returns the rest of the text after it.
pub(crate) fn plain_record<'a>(
    text: &'a [u8],
    most: usize,
    into: &mut ByteRecord,
) -> Result<Option<&'a [u8]>, NoMemory>
    ensures { IfOk result (λ o. IfSome o (λ rest. (all : List (List ℕ)) × HasFirst text.now all rest.now
        × (fields_of into.new ≡ take most all))) }
{
    let size = line_length(text);
    if size == 0 {
        return Ok(None);
    }
    match past_end(&text[size..]) {
        Some(rest) => {
            split(&text[..size], most, into)?;
            Ok(Some(rest))
        }
        None => Ok(None),
    }
}
