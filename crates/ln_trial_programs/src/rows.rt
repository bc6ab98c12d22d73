//! The records of a rows file, and the numbers of fields.
use csv::ByteRecord;
use ln_base::NoMemory;
use ln_rows::{NumberStop, Rows, number};
use std::test::Fail;

/// Fields, the ranges of their columns, and the numbers that they say, or why they say none.
const NUMBERS: &[(&[u8], i64, i64, Result<i64, NumberStop>)] = &[
    (b"-7", -9, 9, Ok(-7)),
    (b"007", 7, 7, Ok(7)),
    (b"-9223372036854775808", i64::MIN, 0, Ok(i64::MIN)),
    (b"10", -9, 9, Err(NumberStop::Range)),
    (b"-10", -9, 9, Err(NumberStop::Range)),
    (b"-9223372036854775809", i64::MIN, 0, Err(NumberStop::Range)),
    (b"1e3", -9, 9, Err(NumberStop::Number)),
    (b"+5", -9, 9, Err(NumberStop::Number)),
    (b"", -9, 9, Err(NumberStop::Number)),
];

/// Does the field say this?
fn says(field: &[u8], lo: i64, hi: i64, want: &Result<i64, NumberStop>) -> bool {
    match (number(field, lo, hi), want) {
        (Ok(z), Ok(wanted)) => z == *wanted,
        (Err(NumberStop::Range), Err(NumberStop::Range)) => true,
        (Err(NumberStop::Number), Err(NumberStop::Number)) => true,
        _ => false,
    }
}

#[test]
fn numbers_stand_within_their_ranges(rt: HostRuntime) {
    for (field, lo, hi, want) in NUMBERS {
        assert!(rt; says(field, *lo, *hi, want));
    }
}

const RECORDS: &[(&[u8], &[&[&[u8]]])] = &[
    (b"a\nb,c\n", &[&[b"a"], &[b"b", b"c"]]),
    (b"a,\"b,c\"\nd,e\n", &[&[b"a", b"b,c"], &[b"d", b"e"]]),
    (
        b"a,b\r\n\"c\"\"d\",\re",
        &[&[b"a", b"b"], &[b"c\"d", b""], &[b"e"]],
    ),
    (b"\n\"a\nb\",c\n\nd", &[&[b"a\nb", b"c"], &[b"d"]]),
    (b"\n\"\"\n,", &[&[b""], &[b"", b""]]),
    // A quote within a field is a byte of it, and so is what would be a byte order mark at the start of the file.
    (
        b"\xEF\xBB\xBF\"a\"\n\xEF\xBB\xBF\"b\n",
        &[&[b"a"], &[b"\xEF\xBB\xBF\"b"]],
    ),
    (
        b"a\n\xEF\xBB\xBF\"b,c\n",
        &[&[b"a"], &[b"\xEF\xBB\xBF\"b", b"c"]],
    ),
];

/// Has the record these fields?
fn has_fields(record: &ByteRecord, fields: &[&[u8]]) -> bool {
    let mut same = record.len() == fields.len();
    for (i, field) in fields.iter().enumerate() {
        same = same && record.get(i) == Some(*field);
    }
    same
}

/// Are these the records of the text?
fn are_records(
    rows: &mut Rows<'_>,
    record: &mut ByteRecord,
    records: &[&[&[u8]]],
) -> Result<bool, NoMemory> {
    for fields in records {
        if !rows.next(record)? || !has_fields(record, fields) {
            return Ok(false);
        }
    }
    Ok(!rows.next(record)? && !rows.next(record)?)
}

#[test]
fn records_have_their_fields_with_quotes_or_without(rt: HostRuntime) -> Result<(), Fail> {
    let mut record = ByteRecord::new(rt.alloc());
    for (text, records) in RECORDS {
        let mut rows = Rows::new(rt.alloc(), text)?;
        assert!(rt; are_records(&mut rows, &mut record, records)?);
    }
    Ok(())
}

/// The first two fields of records.
const FIRST_TWO: &[&[&[u8]]] = &[&[b"a", b"b"], &[b"d"], &[b"e", b"f"]];

#[test]
fn no_more_fields_are_kept_than_there_is_room_for(rt: HostRuntime) -> Result<(), Fail> {
    let mut rows = Rows::new(rt.alloc(), b"a,b,c\nd\n\"e\",f,g\n")?;
    let mut record = ByteRecord::new(rt.alloc());
    for fields in FIRST_TWO {
        assert!(rt; rows.next_within(2, &mut record)?);
        assert!(rt; has_fields(&record, fields));
    }
    assert!(rt; !rows.next_within(2, &mut record)?);
    Ok(())
}
