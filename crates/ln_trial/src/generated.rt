//! Tests of what `gen` writes for rows that it makes, by the watchers that main hands in, where a write fails, and of its numbers.
use crate::support::{Faults, Kind, boxes, is_answered, texts};
use ln_base::NoMemory;
use ln_top::{Command, Status, check_words};
use std::alloc::Global;
use std::test::Fail;

const ONE: &str = "site zero { t: 0 .. 0; } predicate one(a: zero) { sign a.t; }";

// Is this the seed and the count of the words?
fn tells(alloc: Global, words: &str, numbers: Option<(u64, u64)>) -> Result<bool, NoMemory> {
    let words = texts(alloc, words)?;
    Ok(match check_words(&words) {
        Some(Command::Gen(seed, count)) => numbers == Some((seed, count)),
        _ => numbers.is_none(),
    })
}

#[test]
fn a_seed_and_a_count_are_told_of_the_words(rt: HostRuntime) -> Result<(), Fail> {
    let alloc = rt.alloc();
    let largest = Some((999_999_999_999_999_999, 1_000_000));
    assert!(rt; tells(alloc, "gen s.ln one 999999999999999999 001000000", largest)?);
    assert!(rt; tells(alloc, "gen s.ln one 7 5 1", None)?);
    Ok(())
}

// The write that fails, and the bytes that it leaves on Out.
const CUT: &[(u64, &str)] = &[(1, ""), (2, "first 1"), (5, "first 1 2 3\nsigns +")];

// Are those bytes left, with three watchers as the program has them?
fn are_cut(alloc: Global) -> Result<bool, NoMemory> {
    for (put, out) in CUT {
        let faults = Faults {
            reads: &[],
            puts: &[*put],
            room: 4096,
        };
        let case = ("gen s.ln one 7 5", ONE, "", Status::Write, *out, "");
        let watchers = boxes(alloc, &[Kind::Signs, Kind::Deciders, Kind::FirstThree])?;
        if !is_answered(alloc, &case, faults, watchers)? {
            return Ok(false);
        }
    }
    Ok(true)
}

#[test]
fn a_failed_put_leaves_the_first_bytes(rt: HostRuntime) -> Result<(), Fail> {
    assert!(rt; are_cut(rt.alloc())?);
    Ok(())
}
