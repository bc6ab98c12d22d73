//! Tests of what no clause says of files, streams and words: which bytes they are.
mod fakes;

use self::fakes::{Habit, Line, Paper, Shelf, byte_at};
use crate::base::{is_fault, is_too_long};
use ln_base::{Console, Files, Port, put_all, read_whole};
use ln_disk::{DiskFiles, StdConsole, words_of};
use std::alloc::Global;
use std::test::Fail;
use std::{fs, process, rt};

const QUICK: Habit = Habit {
    most: 1_000_000,
    fails: 0,
    interrupted: false,
};

/// A shelf of files of this length, with this habit.
fn shelf(len: usize, most: usize, fails: usize, interrupted: bool) -> Shelf {
    let habit = Habit {
        most,
        fails,
        interrupted,
    };
    Shelf { len, habit }
}

/// Are these the bytes of that file from the place on?
fn are_of(name: &str, at: usize, bytes: &[u8]) -> bool {
    for (i, byte) in bytes.iter().enumerate() {
        if *byte != byte_at(name.as_bytes(), at.saturating_add(i)) {
            return false;
        }
    }
    true
}

/// Is the file read whole, and has it this many bytes?
fn is_whole<F: Files>(alloc: Global, files: &mut F, name: &str, len: usize) -> bool {
    match read_whole(alloc, files, name, len) {
        Ok(whole) => whole.len() == len && are_of(name, 0, &whole),
        Err(_) => false,
    }
}

const LONG_READS: &[(usize, bool)] = &[
    (0, false),
    (0, true),
    (4_000, true),
    (65_530, false),
    (1_000_000, true),
];

/// Is a file of 200,000 bytes read whole with that limit and not with less, and is another not there?
fn is_long<F: Files>(alloc: Global, files: &mut F) -> bool {
    is_whole(alloc, files, "rows.csv", 200_000)
        && is_too_long(alloc, files, "rows.csv", 199_999)
        && is_fault(alloc, files, "none")
}

#[test]
fn a_long_file_is_read_whole_however_short_its_reads(rt: HostRuntime) {
    for (most, interrupted) in LONG_READS {
        let shelf = shelf(200_000, *most, 0, *interrupted);
        let mut files = DiskFiles::new(&shelf);
        assert!(rt; is_long(rt.alloc(), &mut files));
    }
}

/// Are from `least` to `most` bytes read of the file at a place of it, and are they its bytes?
fn is_read_at<F: Files>(
    files: &mut F,
    name: &str,
    at: usize,
    buf: &mut [u8],
    least: usize,
    most: usize,
) -> bool {
    match files.read_at(name, at as u64, buf) {
        Ok(n) => least <= n && n <= most && are_of(name, at, &buf[..n]),
        Err(_) => false,
    }
}

const PLACES: &[usize] = &[
    0, 1, 4_095, 4_096, 4_097, 8_192, 65_536, 70_000, 199_998, 0, 200_000, 300_000,
];

/// Is a file of 200,000 bytes read from each place on, and nothing from its end on?
fn is_read_anywhere<F: Files>(files: &mut F) -> bool {
    let mut buf = [0u8; 9];
    for at in PLACES {
        let (least, most) = if *at < 200_000 { (1, 9) } else { (0, 0) };
        if !is_read_at(files, "a", *at, &mut buf, least, most) {
            return false;
        }
    }
    true
}

const SHORT_READS: &[usize] = &[0, 1, 63, 4_000, 4_095, 4_096];

#[test]
fn a_file_is_read_from_any_place(rt: HostRuntime) {
    for most in SHORT_READS {
        let shelf = shelf(200_000, *most, 0, true);
        let mut files = DiskFiles::new(&shelf);
        assert!(rt; is_read_anywhere(&mut files));
    }
}

/// Are the six bytes of this file read whole, and its last four from a place on?
fn is_orient<F: Files>(alloc: Global, files: &mut F, name: &str) -> bool {
    let whole = match read_whole(alloc, files, name, 6) {
        Ok(whole) => whole.as_slice() == b"orient".as_slice(),
        Err(_) => false,
    };
    let mut end = [0u8; 4];
    let part = files.read_at(name, 2, &mut end);
    whole && part.is_ok_and(|n| n == 4) && end.as_slice() == b"ient".as_slice()
}

/// Is the file read until it is removed, and not then?
fn is_read_until_removed<R: rt::Files>(alloc: Global, rt: &R, name: &str) -> bool {
    let mut files = DiskFiles::new(rt);
    let well = is_orient(alloc, &mut files, name);
    let gone = fs::remove_file(rt, name).is_ok();
    well && gone && is_fault(alloc, &mut files, name)
}

#[test]
fn a_file_on_the_disk_is_read(rt: HostRuntime) -> Result<(), Fail> {
    let id = process::id(rt.process());
    let name = format!(in rt.alloc(); "/tmp/ln_disk_{id}.txt")?;
    fs::write(&rt, name.as_str(), b"orient")?;
    assert!(rt; is_read_until_removed(rt.alloc(), &rt, name.as_str()));
    Ok(())
}

/// Is the file of this name read, and then one of another from a place that fits the file that is open?
fn is_by_name<F: Files>(files: &mut F, name: &str) -> bool {
    let mut half = [0u8; 300];
    is_read_at(files, name, 0, &mut half, 300, 300)
        && is_read_at(files, "z", 300, &mut half, 300, 300)
}

#[test]
fn a_name_of_any_length_is_the_name_of_its_file(rt: HostRuntime) -> Result<(), Fail> {
    let shelf = shelf(600, 1_000_000, 0, false);
    let mut files = DiskFiles::new(&shelf);
    let mut name = String::new(rt.alloc());
    for i in 0..255u32 {
        name.push(char::from((97 + i % 23) as u8))?;
        assert!(rt; is_by_name(&mut files, name.as_str()));
    }
    Ok(())
}

const THREE: &[u64] = &[0, 100, 200];

/// How many of three successive reads are well.
fn well_read<F: Files>(files: &mut F, buf: &mut [u8]) -> usize {
    let mut well = 0usize;
    for at in THREE {
        if files.read_at("a", *at, buf).is_ok() {
            well = well.saturating_add(1);
        }
    }
    well
}

/// Does the read after this many that are well fail?
fn fails_behind<F: Files>(files: &mut F, well: usize) -> bool {
    let mut buf = [0u8; 100];
    // successive reads go through one file, whose read of the number that its habit names fails
    files.read_at("a", 8_100, &mut buf).is_err() && well_read(files, &mut buf) == well
}

#[test]
fn a_read_that_fails_is_a_fault(rt: HostRuntime) {
    for well in 0..3usize {
        let shelf = shelf(9_000, 4_094, well + 1, false);
        let mut files = DiskFiles::new(&shelf);
        assert!(rt; fails_behind(&mut files, well));
    }
}

/// A text of that many bytes.
fn text(alloc: Global, len: usize) -> Result<Vec<u8>, Fail> {
    let mut bytes = Vec::with_capacity(alloc, len)?;
    for i in 0..len {
        bytes.push((i % 253) as u8)?;
    }
    Ok(bytes)
}

/// Is a text written whole to this stream?
fn is_put(out: &mut Paper, err: &mut Paper, port: Port, bytes: &[u8]) -> bool {
    let mut con = StdConsole::new(out, err);
    put_all(&mut con, port, bytes).is_ok()
}

/// Is a text written whole, first to one stream and then to the other?
fn goes_out(alloc: Global, bytes: &[u8], most: usize, interrupted: bool) -> bool {
    let habit = Habit {
        most,
        interrupted,
        ..QUICK
    };
    let mut out = Paper::new(alloc, habit, 0);
    let mut err = Paper::new(alloc, habit, 0);
    let first = is_put(&mut out, &mut err, Port::Out, bytes);
    let alone = out.held.as_slice() == bytes && err.held.is_empty() && out.flushes > 0;
    let second = is_put(&mut out, &mut err, Port::Err, bytes);
    let both = out.held.len() == bytes.len() && err.held.as_slice() == bytes;
    first && alone && second && both
}

/// Is a text written whole by short writes, by longer ones, and at once?
fn goes_out_anyhow(alloc: Global, bytes: &[u8]) -> bool {
    goes_out(alloc, bytes, 1, true)
        && goes_out(alloc, bytes, 7, false)
        && goes_out(alloc, bytes, 1_000_000, true)
}

const LENGTHS: &[usize] = &[1, 5, 6, 4_097, 65_537, 100_000];

#[test]
fn texts_of_any_length_go_out_on_their_port(rt: HostRuntime) -> Result<(), Fail> {
    for len in LENGTHS {
        let bytes = text(rt.alloc(), *len)?;
        assert!(rt; goes_out_anyhow(rt.alloc(), &bytes));
    }
    Ok(())
}

/// Is a text of 40 bytes a fault where the first write fails, and written whole where a later one does?
fn is_put_again(alloc: Global, bytes: &[u8], fails: usize) -> bool {
    let habit = Habit {
        most: 3,
        fails,
        ..QUICK
    };
    let mut out = Paper::new(alloc, habit, 0);
    let mut err = Paper::new(alloc, QUICK, 0);
    // what is before the write that fails is returned, and the rest is written again
    let put = is_put(&mut out, &mut err, Port::Out, bytes);
    put == (fails > 1) && out.held.len() == if fails > 1 { 40 } else { 0 }
}

#[test]
fn a_write_that_fails_is_a_fault(rt: HostRuntime) -> Result<(), Fail> {
    let bytes = text(rt.alloc(), 40)?;
    for fails in 1..=14 {
        assert!(rt; is_put_again(rt.alloc(), &bytes, fails));
    }
    Ok(())
}

/// How many bytes one write takes; none at a fault.
fn put_once(out: &mut Paper, err: &mut Paper, port: Port, bytes: &[u8]) -> Option<usize> {
    let mut con = StdConsole::new(out, err);
    con.put(port, bytes).ok()
}

/// Is it the flush of this number alone that fails, and is each text written before it?
fn is_flush_fault(alloc: Global, bad_flush: usize) -> bool {
    let mut out = Paper::new(alloc, QUICK, 0);
    let mut err = Paper::new(alloc, QUICK, bad_flush);
    let first = put_once(&mut out, &mut err, Port::Err, b"orient").is_some();
    let second = put_once(&mut out, &mut err, Port::Err, b"orient").is_some();
    let both = err.held.len() == 12 && out.held.is_empty();
    first == (bad_flush > 1) && second == (bad_flush == 1) && both
}

#[test]
fn a_flush_that_fails_is_a_fault(rt: HostRuntime) {
    for bad_flush in 1..=2 {
        assert!(rt; is_flush_fault(rt.alloc(), bad_flush));
    }
}

#[test]
fn a_writer_that_takes_nothing_has_a_fault(rt: HostRuntime) {
    let alloc = rt.alloc();
    let mut out = Paper::new(alloc, Habit { most: 0, ..QUICK }, 0);
    let mut err = Paper::new(alloc, QUICK, 0);
    let fault = put_once(&mut out, &mut err, Port::Out, b"0").is_none();
    assert!(rt; fault && put_once(&mut out, &mut err, Port::Out, b"") == Some(0));
}

/// Are these the words, in this order?
fn are_words(found: &[String], words: &[&[u8]]) -> bool {
    let mut rest = words;
    for word in found {
        let [want, more @ ..] = rest else {
            return false;
        };
        if word.as_bytes() != *want {
            return false;
        }
        rest = more;
    }
    rest.is_empty()
}

/// Are these the words after the program's name?
fn has_words(alloc: Global, line: &[&[u8]], words: &[&[u8]]) -> bool {
    match words_of(&(Line { words: line }, alloc)) {
        Ok(found) => are_words(&found, words),
        Err(_) => false,
    }
}

const NOT_TEXT: &[&[u8]] = &[b"lnc", b"check", b"p\xff.ln", b"q"];

/// Are all five words found, the long one last, none where there are none, and none where one isn't text?
fn are_found(alloc: Global, long: &[u8]) -> bool {
    let five: [&[u8]; 6] = [b"lnc", b"audit", b"p.ln", b"", b"caf\xc3\xa9.csv", long];
    has_words(alloc, &five, &five[1..])
        && has_words(alloc, &five[..1], &[])
        && has_words(alloc, &[], &[])
        && has_words(alloc, NOT_TEXT, &[])
}

#[test]
fn the_words_are_all_that_stand_behind_the_name(rt: HostRuntime) -> Result<(), Fail> {
    let long = text(rt.alloc(), 120)?;
    assert!(rt; are_found(rt.alloc(), &long));
    Ok(())
}
