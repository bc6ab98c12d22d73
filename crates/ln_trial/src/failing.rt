//! Streams and files that fail at each of their calls: what is written is a prefix of what is required.
ghost use Rattle.std.specs.Prelude.{◌≤◌};

use crate::support::{AROUND_SIGNS, Case, Faults, Kind, answered, boxes, is_answered, shelf};
use crate::watchers::LEFT;
use ln_base::{MemConsole, NoMemory, Port};
use ln_top::Status;
use ln_trial_programs::sample::ORIENT;
use std::alloc::Global;
use std::test::Fail;

const ONE: &str = "p,p.x,p.y,q,q.x,q.y,r,r.x,r.y\n1,0,0,2,1,0,3,0,1\n";

const CHECK: &str = "check s.ln";

const RUN: &str = "run s.ln orient r.csv";

const CHECKED: &str = "orient sites 3 stages 30\n";

// What words with watchers come to where write number k fails, and how many bytes are on Out; none where the streams hold anything but a prefix.
// A write takes this many bytes.
fn cut_at(
    alloc: Global,
    case: &Case<'_>,
    kinds: &[Kind],
    width: usize,
    k: u64,
) -> Result<Option<(Status, usize)>, NoMemory>
    requires { 1 ≤ width }
{
    let (words, source, rows, _, out, err) = *case;
    let mut con = MemConsole::new(alloc, 4096, width, Vec::from_slice(alloc, &[k])?)?;
    let mut files = shelf(alloc, source, rows, &[])?;
    let was = answered(alloc, words, &mut files, &mut con, boxes(alloc, kinds)?)?;
    let (on_out, on_err) = (con.bytes(Port::Out), con.bytes(Port::Err));
    if out.as_bytes().starts_with(on_out) && err.as_bytes().starts_with(on_err) {
        Ok(Some((was, on_out.len())))
    } else {
        Ok(None)
    }
}

const CHECK_ONE: Case<'static> = (CHECK, ORIENT, ONE, Status::Done, CHECKED, "");

// Does `check` leave the bytes before each write that fails, and all where none does? A stream takes one byte at each write.
fn are_cut(alloc: Global) -> Result<bool, NoMemory> {
    for k in 1..27u8 {
        let status = if k < 26 { Status::Write } else { Status::Done };
        let before = usize::from(k).saturating_sub(1);
        if cut_at(alloc, &CHECK_ONE, &[], 1, u64::from(k))? != Some((status, before)) {
            return Ok(false);
        }
    }
    Ok(true)
}

#[test]
fn a_put_that_fails_leaves_what_was_put_before(rt: HostRuntime) -> Result<(), Fail> {
    assert!(rt; are_cut(rt.alloc())?);
    Ok(())
}

// Returns the number of the first write that `run` doesn't come to; 0 where a failed one isn't reported.
fn first_unused(alloc: Global) -> Result<u64, NoMemory> {
    for k in 1..100 {
        match cut_at(alloc, &LEFT, AROUND_SIGNS, 7, k)? {
            Some((Status::Write, _)) => (),
            Some((Status::Done, _)) => return Ok(k),
            _ => return Ok(0),
        }
    }
    Ok(0)
}

#[test]
fn each_failing_put_of_a_run_leaves_first_bytes_on_both_ports(rt: HostRuntime) -> Result<(), Fail> {
    assert!(rt; first_unused(rt.alloc())? > 5);
    Ok(())
}

// Is a failure reported of each of this many reads, and are the words carried out where a later one would fail?
fn are_reads_told(alloc: Global, words: &str, reads: u64, out: &str) -> Result<bool, NoMemory> {
    for k in 1..=reads.saturating_add(1) {
        let case = if k <= reads {
            (words, ORIENT, ONE, Status::Read, "", "error read\n")
        } else {
            (words, ORIENT, ONE, Status::Done, out, "")
        };
        let faults = Faults {
            reads: &[k],
            puts: &[],
            room: 4096,
        };
        if !is_answered(alloc, &case, faults, Vec::new(alloc))? {
            return Ok(false);
        }
    }
    Ok(true)
}

#[test]
fn each_failing_read_is_told(rt: HostRuntime) -> Result<(), Fail> {
    assert!(rt; are_reads_told(rt.alloc(), RUN, 4, "+ F\n")?);
    assert!(rt; are_reads_told(rt.alloc(), CHECK, 2, CHECKED)?);
    Ok(())
}
