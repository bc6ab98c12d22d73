//! Tests of what the program writes for words, sources and rows, over files and streams in memory: streams that fail, and which files are read.
//! examples/checks/commands_table.py has the cases of words, sources and rows, which run on the program itself.
use crate::spheres::CIRCLE;
use crate::support::{Case, Faults, HEAD, are_answered, is_answered, is_said, shelf};
use ln_base::limits::MOST_SOURCE;
use ln_base::{MemConsole, MemFiles, NoMemory};
use ln_top::Status;
use ln_trial_programs::sample::{ORIENT, SQUARES};
use std::alloc::Global;
use std::test::Fail;

const EQUAL: &str = "p,p.x,p.y,q,q.x,q.y,r,r.x,r.y
1,1,0,2,0,0,3,0,0
1,5,5,2,5,5,3,5,5
2,5,5,1,5,5,3,5,5
";

// A variable that is always 0.
const NOUGHT: &str = "site num { t: 0 .. 0; }
predicate w(a: num) { sign a.t; }
";

// A listing of it, version 2.
const NOUGHT_RANGES: &str = "listing 2
predicate w
nofilter
block 0
input 0 0 0
end
block 1 0^1
push 1 1 1
end
order 0 : 0 1
done
";

const CHECK: &str = "check s.ln";

const RUN: &str = "run s.ln orient r.csv";

const VERIFY: &str = "verify s.ln r.csv";

const LIST: &str = "list s.ln";

const EMIT: &str = "emit s.ln";

const CHECK_ABSENT: &str = "check t.ln";

const EACH: &[Case<'static>] = &[
    (LIST, "", "", Status::Done, "listing 2\n", ""),
    (RUN, ORIENT, EQUAL, Status::Done, "+ 3\n+ 4\n- 4\n", ""),
    (VERIFY, NOUGHT, NOUGHT_RANGES, Status::Done, "valid\n", ""),
];

#[test]
fn each_command_has_its_lines(rt: HostRuntime) -> Result<(), Fail> {
    assert!(rt; are_answered(rt.alloc(), EACH)?);
    Ok(())
}

// Words over a source and rows, the room of a stream, the writes that fail, and what is then on Out and on Err.
const CUT: &[(&str, &str, &str, usize, &[u64], &str, &str)] = &[
    (RUN, ORIENT, EQUAL, 4096, &[1], "", ""),
    (RUN, ORIENT, EQUAL, 4096, &[2], "+ 3\n+ 4", ""),
    (RUN, ORIENT, EQUAL, 6, &[], "+ 3\n+ ", ""),
    (CHECK, ORIENT, EQUAL, 4096, &[1], "", ""),
    (CHECK, ORIENT, EQUAL, 4096, &[2], "orient ", ""),
    (CHECK, ORIENT, EQUAL, 9, &[], "orient si", ""),
    (CHECK, "#", HEAD, 4096, &[1], "", ""),
    ("", ORIENT, EQUAL, 5, &[], "", "error"),
    (CHECK_ABSENT, ORIENT, EQUAL, 7, &[], "", "error r"),
    (VERIFY, NOUGHT, NOUGHT_RANGES, 3, &[], "val", ""),
    (LIST, SQUARES, "", 5, &[], "listi", ""),
    (EMIT, ORIENT, "", 8, &[], "#include", ""),
];

// Do the streams hold a prefix, where a write fails?
fn are_cut(alloc: Global) -> Result<bool, NoMemory> {
    for (words, source, rows, room, puts, out, err) in CUT {
        let case = (*words, *source, *rows, Status::Write, *out, *err);
        let faults = Faults {
            reads: &[],
            puts,
            room: *room,
        };
        if !is_answered(alloc, &case, faults, Vec::new(alloc))? {
            return Ok(false);
        }
    }
    Ok(true)
}

#[test]
fn a_fault_of_writing_leaves_the_first_bytes(rt: HostRuntime) -> Result<(), Fail> {
    assert!(rt; are_cut(rt.alloc())?);
    Ok(())
}

#[test]
fn a_stream_of_three_bytes_takes_the_first_three_of_a_line(rt: HostRuntime) -> Result<(), Fail> {
    let alloc = rt.alloc();
    let mut files = shelf(alloc, ORIENT, "", &[])?;
    let con = MemConsole::new(alloc, 3, 100, Vec::new(alloc))?;
    let case = (CHECK, ORIENT, "", Status::Write, "ori", "");
    assert!(rt; is_said(alloc, &case, &mut files, con, Vec::new(alloc))?);
    Ok(())
}

// Was the file with this number asked for?
fn asks(files: &MemFiles, file: usize) -> bool {
    files.asked().iter().any(|call| call.file == Some(file))
}

// Words over a source, how they end without a byte on Out, and how many files they ask for, the source first.
type Stop<'a> = (&'a str, &'a str, Status, &'a str, usize);

fn stops(alloc: Global, stop: &Stop<'_>) -> Result<bool, NoMemory> {
    let (words, source, status, err, asked) = *stop;
    let mut files = shelf(alloc, source, HEAD, &[])?;
    let con = MemConsole::new(alloc, 4096, 7, Vec::new(alloc))?;
    let case = (words, source, HEAD, status, "", err);
    let said = is_said(alloc, &case, &mut files, con, Vec::new(alloc))?;
    Ok(said && asks(&files, 0) == (asked > 0) && asks(&files, 1) == (asked > 1))
}

const STOPS: &[Stop<'static>] = &[
    ("run s.ln", ORIENT, Status::Usage, "error usage\n", 0),
    ("list s.ln s", SQUARES, Status::Usage, "error usage\n", 0),
    (
        "emit s.ln orient",
        ORIENT,
        Status::Usage,
        "error usage\n",
        0,
    ),
    (LIST, "#", Status::Refused, "error lexical 1:1\n", 1),
    (EMIT, "#", Status::Refused, "error lexical 1:1\n", 1),
    (RUN, "site a { }", Status::Refused, "error syntax 1:10\n", 1),
    (RUN, CIRCLE, Status::NoPredicate, "error predicate\n", 1),
    (CHECK_ABSENT, ORIENT, Status::Read, "error read\n", 0),
    (RUN, ORIENT, Status::Done, "", 2),
];

// The same of a source over its limit, and of those of the table.
fn all_stop(alloc: Global) -> Result<bool, NoMemory> {
    for stop in STOPS {
        if !stops(alloc, stop)? {
            return Ok(false);
        }
    }
    let long = " ".repeat(alloc, MOST_SOURCE + 1)?;
    let stop = (RUN, long.as_str(), Status::TooLong, "error long\n", 1);
    stops(alloc, &stop)
}

#[test]
fn a_step_that_stops_asks_for_no_further_file(rt: HostRuntime) -> Result<(), Fail> {
    assert!(rt; all_stop(rt.alloc())?);
    Ok(())
}
