//! Tests of what fields, places and lists are, and of what files and streams in memory hold.
use ln_base::decimal::{integer, unsigned};
use ln_base::{
    Files, MemConsole, MemFiles, NoMemory, Port, ReadStop, Reading, Seq, line_col, put_all,
    read_whole,
};
use std::alloc::Global;
use std::test::Fail;

/// Fields, and what they say: a number, one outside of the range, or none.
const FIELDS: &[(&str, Reading)] = &[
    ("0", Reading::Value(0)),
    ("-0", Reading::Value(0)),
    ("007", Reading::Value(7)),
    ("-12", Reading::Value(-12)),
    (
        "9223372036854775807",
        Reading::Value(9_223_372_036_854_775_807),
    ),
    ("-9223372036854775808", Reading::Outside),
    (
        "99999999999999999999999999999999999999999",
        Reading::Outside,
    ),
    ("", Reading::NotANumber),
    ("-", Reading::NotANumber),
    ("+5", Reading::NotANumber),
    (" 1", Reading::NotANumber),
];

/// Is this what the field says?
fn says(field: &str, want: &Reading) -> bool {
    match integer(field.as_bytes()) {
        Reading::Value(z) => matches!(want, Reading::Value(n) if *n == z),
        Reading::Outside => matches!(want, Reading::Outside),
        Reading::NotANumber => matches!(want, Reading::NotANumber),
    }
}

#[test]
fn fields_say_numbers(rt: HostRuntime) {
    for (field, want) in FIELDS {
        assert!(rt; says(field, want));
    }
    let near = unsigned(b"0340282366920938463463374607431768211454") == u128::MAX - 1;
    assert!(rt; near && unsigned(b"340282366920938463463374607431768211456") == u128::MAX);
}

/// Is the byte at this place of the text in this line and column?
fn is_placed(text: &[u8], at: u32, line: u32, col: u32) -> bool {
    if text.len() > 99 || at as usize > text.len() {
        return false;
    }
    let found = line_col(text, at);
    found.0 == line && found.1 == col
}

#[test]
fn places_count_from_one(rt: HostRuntime) {
    let text = b"site a { }\nsite b\n\n";
    let first = is_placed(text, 0, 1, 1) && is_placed(text, 9, 1, 10);
    assert!(rt; first && is_placed(text, 11, 2, 1) && is_placed(text, 19, 4, 1));
}

/// A list to which these two were pushed.
fn pair(alloc: Global, first: u8, second: u8) -> Result<Seq<u8>, NoMemory> {
    let mut list = Seq::new(alloc);
    list.push(first)?;
    list.push(second)?;
    Ok(list)
}

/// Has the list these two items, and no third?
fn holds_pair(list: &Seq<u8>, pair: &[u8]) -> bool {
    list.as_slice() == pair && list.get(1).is_some() && list.get(2).is_none()
}

#[test]
fn lists_hold_what_was_pushed(rt: HostRuntime) -> Result<(), Fail> {
    let list = pair(rt.alloc(), 4, 9)?;
    let is_two = list.len() == 2 && !list.is_empty();
    let list = Seq::from_vec(list.into_vec());
    assert!(rt; is_two && holds_pair(&list, b"\x04\x09"));
    Ok(())
}

fn file(alloc: Global, name: &str, bytes: &[u8]) -> Result<(String, Vec<u8>), NoMemory> {
    Ok((
        String::from_str(alloc, name)?,
        Vec::from_slice(alloc, bytes)?,
    ))
}

/// Files of these names and bytes.
fn held(alloc: Global, all: &[(&str, &[u8])]) -> Result<Vec<(String, Vec<u8>)>, NoMemory> {
    let mut files = Vec::new(alloc);
    for (name, bytes) in all {
        files.push(file(alloc, name, bytes)?)?;
    }
    Ok(files)
}

/// Files of these names and bytes, whose calls listed in `fails` will fail.
fn shelf(alloc: Global, all: &[(&str, &[u8])], fails: &[u64]) -> Result<MemFiles, NoMemory> {
    let fails = Vec::from_slice(alloc, fails)?;
    Ok(MemFiles::new(held(alloc, all)?, fails))
}

/// Two files named "a" and one named "b".
const SHORT: &[(&str, &[u8])] = &[("b", b"xy"), ("a", b"abc"), ("a", b"later")];

/// Are these the bytes of the file?
fn reads(alloc: Global, files: &mut MemFiles, name: &str, limit: usize, want: &[u8]) -> bool {
    match read_whole(alloc, files, name, limit) {
        Ok(bytes) => bytes.as_slice() == want,
        Err(_) => false,
    }
}

/// Has the file more bytes than the limit?
pub fn is_too_long<F: Files>(alloc: Global, files: &mut F, name: &str, limit: usize) -> bool {
    match read_whole(alloc, files, name, limit) {
        Ok(_) => false,
        Err(stop) => matches!(stop, ReadStop::TooLong),
    }
}

/// Is the file not there, or is there a fault?
pub fn is_fault<F: Files>(alloc: Global, files: &mut F, name: &str) -> bool {
    match read_whole(alloc, files, name, 9) {
        Ok(_) => false,
        Err(stop) => matches!(stop, ReadStop::Fault),
    }
}

/// Is "a" read with limit 3, is it too long for limit 2, and isn't "c" there?
fn has_three_bytes(alloc: Global, files: &mut MemFiles) -> bool {
    reads(alloc, files, "a", 3, b"abc")
        && is_too_long(alloc, files, "a", 2)
        && is_fault(alloc, files, "c")
}

#[test]
fn three_bytes_are_read_with_limit_three(rt: HostRuntime) -> Result<(), Fail> {
    let mut files = shelf(rt.alloc(), SHORT, &[])?;
    assert!(rt; has_three_bytes(rt.alloc(), &mut files));
    Ok(())
}

/// Is "b" read only at the second time?
fn fails_once(alloc: Global, files: &mut MemFiles) -> bool {
    is_fault(alloc, files, "b") && reads(alloc, files, "b", 9, b"xy")
}

#[test]
fn a_listed_call_fails(rt: HostRuntime) -> Result<(), Fail> {
    let mut files = shelf(rt.alloc(), SHORT, &[2])?;
    assert!(rt; fails_once(rt.alloc(), &mut files));
    Ok(())
}

/// 200,000 bytes.
fn many_bytes(alloc: Global) -> Result<Vec<u8>, NoMemory> {
    let mut bytes = Vec::new(alloc);
    for i in 0..200_000u32 {
        bytes.push((i % 251) as u8)?;
    }
    Ok(bytes)
}

/// The calls that read the second file whole, and then one that isn't there: the file and the place of each.
const CALLS: &[(Option<usize>, u64)] = &[
    (Some(1), 0),
    (Some(1), 65_536),
    (Some(1), 131_072),
    (Some(1), 196_608),
    (Some(1), 200_000),
    (None, 0),
];

/// Were the files asked by these calls, and no others?
fn asked_at(files: &MemFiles, calls: &[(Option<usize>, u64)]) -> bool {
    let mut rest = calls;
    for call in files.asked() {
        let [(file, at), more @ ..] = rest else {
            return false;
        };
        if call.file != *file || call.at != *at {
            return false;
        }
        rest = more;
    }
    rest.is_empty()
}

/// Is the large file read whole, and isn't another there?
fn is_large_read(alloc: Global, files: &mut MemFiles, bytes: &[u8]) -> bool {
    reads(alloc, files, "large", 67_108_864, bytes)
        && is_fault(alloc, files, "none")
        && asked_at(files, CALLS)
}

#[test]
fn a_large_file_is_read_whole_by_calls_that_are_listed(rt: HostRuntime) -> Result<(), Fail> {
    let bytes = many_bytes(rt.alloc())?;
    let mut files = shelf(rt.alloc(), &[("small", b""), ("large", &bytes)], &[])?;
    assert!(rt; is_large_read(rt.alloc(), &mut files, &bytes));
    Ok(())
}

/// Is a text written whole as is wanted, and does the port hold these bytes then?
fn is_put(con: &mut MemConsole, port: Port, text: &[u8], whole: bool, held: &[u8]) -> bool {
    put_all(con, port, text).is_ok() == whole && con.bytes(port) == held
}

/// Do ports with room for three bytes, whose second call fails, take what they have room for?
fn takes_by_room(con: &mut MemConsole) -> bool {
    is_put(con, Port::Err, b"no", false, b"n")
        && is_put(con, Port::Out, b"orient", false, b"ori")
        && is_put(con, Port::Err, b"o", true, b"no")
}

#[test]
fn a_port_takes_what_it_has_room_for(rt: HostRuntime) -> Result<(), Fail> {
    let fails = Vec::from_slice(rt.alloc(), &[2])?;
    let mut con = MemConsole::new(rt.alloc(), 3, 1, fails)?;
    assert!(rt; takes_by_room(&mut con));
    Ok(())
}
