//! Runs of many records: each has its line, the streams are written a few times in all and not once a line, and each row is run once.
//! No clause of the program speaks of the second and the third.
use crate::support::{HEAD, answered, shelf};
use crate::verdicts::runs;
use ln_base::{MemConsole, NoMemory, Port};
use ln_top::Status;
use ln_trial_programs::sample::{ORIENT, compiled};
use std::alloc::Global;
use std::test::Fail;
use std::time::{CpuClock, Duration};

const RUN: &str = "run s.ln orient r.csv";

const GRADED: &str = "graded s.ln orient r.csv";

const PRODUCT: &str = "product s.ln orient orient r.csv";

const RECORD: &str = "1,0,0,2,1,0,3,0,1\n";

// The room of a port, and the most bytes that one write takes.
const ROOM: usize = 1 << 20;

// The status of the words over this many records, or none where Out isn't the line as often; write number `put` fails.
fn said_of(
    alloc: Global,
    words: &str,
    line: &str,
    count: usize,
    put: u64,
) -> Result<Option<Status>, NoMemory> {
    let mut records = String::from_str(alloc, HEAD)?;
    records.push_str(&RECORD.repeat(alloc, count)?)?;
    let mut files = shelf(alloc, ORIENT, &records, &[])?;
    let mut con = MemConsole::new(alloc, ROOM, ROOM, Vec::from_slice(alloc, &[put])?)?;
    let was = answered(alloc, words, &mut files, &mut con, Vec::new(alloc))?;
    let lines = line.repeat(alloc, count)?;
    let out = con.bytes(Port::Out);
    let whole = was != Status::Done || out.len() == lines.len();
    if whole && lines.as_bytes().starts_with(out) {
        Ok(Some(was))
    } else {
        Ok(None)
    }
}

// Are the lines of this many records written in exactly this many writes?
fn are_written_in(
    alloc: Global,
    words: &str,
    line: &str,
    count: usize,
    writes: u64,
) -> Result<bool, NoMemory> {
    let last = said_of(alloc, words, line, count, writes)?;
    let past = said_of(alloc, words, line, count, writes.saturating_add(1))?;
    Ok(last == Some(Status::Write) && past == Some(Status::Done))
}

// Commands with the line of a record, how many records there are, and how many writes: one for each 65,536 bytes.
const WRITTEN: &[(&str, &str, usize, u64)] = &[
    (RUN, "+ F\n", 1000, 1),
    (RUN, "+ F\n", 20_000, 2),
    (GRADED, "+ F\n", 20_000, 2),
    (PRODUCT, "+ F,F\n", 20_000, 2),
];

fn all_are_written(alloc: Global) -> Result<bool, NoMemory> {
    for (words, line, count, writes) in WRITTEN {
        if !are_written_in(alloc, words, line, *count, *writes)? {
            return Ok(false);
        }
    }
    Ok(true)
}

#[test]
fn lines_are_gathered_and_written_together(rt: HostRuntime) -> Result<(), Fail> {
    assert!(rt; all_are_written(rt.alloc())?);
    Ok(())
}

#[test]
fn a_hundred_thousand_records_have_their_lines(rt: HostRuntime) -> Result<(), Fail> {
    assert!(rt; said_of(rt.alloc(), RUN, "+ F\n", 100_000, 0)? == Some(Status::Done));
    Ok(())
}

// The row of two numbers that are 0 goes through all 81 stages, which takes far longer than its text.
const DEEP: &str = "site num { t: -1 .. 1; }
predicate deep(a: num, b: num) { sign a.t^8*b.t^8; }
";

const DEEP_RUN: &str = "run s.ln deep r.csv";

const DEEP_RECORD: &str = "1,0,2,0\n";

const DEEP_ROWS: usize = 4000;

// Does a run of the deep row, this many times, write its lines?
fn is_run(alloc: Global, count: usize) -> Result<bool, NoMemory> {
    let mut records = String::from_str(alloc, "a,a.t,b,b.t\n")?;
    records.push_str(&DEEP_RECORD.repeat(alloc, count)?)?;
    let mut files = shelf(alloc, DEEP, &records, &[])?;
    let mut con = MemConsole::new(alloc, ROOM, ROOM, Vec::new(alloc))?;
    let was = answered(alloc, DEEP_RUN, &mut files, &mut con, Vec::new(alloc))?;
    let lines = "+ 80\n".repeat(alloc, count)?;
    Ok(was == Status::Done && con.bytes(Port::Out) == lines.as_bytes())
}

// Has the deep row, by the library, a verdict of 82 calls, the filter's among them, this many times? The source is compiled here too.
fn is_decided(alloc: Global, count: usize) -> Result<bool, NoMemory> {
    let Some(c) = compiled(alloc, DEEP)? else {
        return Ok(false);
    };
    match runs(alloc, &c, DEEP_RECORD, count)? {
        Some((_, calls)) => Ok(calls == u64::try_from(count).unwrap_or(0).saturating_mul(82)),
        None => Ok(false),
    }
}

// The processor's time for the run of the rows, and that for their verdicts by the library; none where one of them is wrong.
fn times(rt: &impl CpuClock, alloc: Global) -> Result<Option<(Duration, Duration)>, Fail> {
    let began = rt.thread_cpu_time()?;
    let run = is_run(alloc, DEEP_ROWS)?;
    let middle = rt.thread_cpu_time()?;
    let decided = is_decided(alloc, DEEP_ROWS)?;
    let ended = rt.thread_cpu_time()?;
    if run && decided {
        Ok(Some((middle.saturating_sub(began), ended.saturating_sub(middle))))
    } else {
        Ok(None)
    }
}

// Does the best time of a run so far come below 7/5 of the library's best, from the third of 20 turns on? It is about the same, and would be near
// twice.
fn is_run_once(rt: &impl CpuClock, alloc: Global) -> Result<bool, Fail> {
    let mut best = (Duration::MAX, Duration::MAX);
    for turn in 0..20 {
        match times(rt, alloc)? {
            Some((run, alone)) => best = (best.0.min(run), best.1.min(alone)),
            None => return Ok(false),
        }
        if turn >= 2 && best.0.saturating_mul(5) < best.1.saturating_mul(7) {
            return Ok(true);
        }
    }
    Ok(false)
}

#[test]
fn each_row_is_run_once(rt: HostRuntime) -> Result<(), Fail> {
    let alloc = rt.alloc();
    assert!(rt; is_run_once(&rt, alloc)?);
    Ok(())
}
