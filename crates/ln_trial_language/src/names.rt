//! The first fault of names and limits, and the numbers of a source.
ghost use Rattle.std.specs.Prelude.{◌≤◌, length};
ghost use Rattle.ln_base.specs.Limits.{most_tokens};

use ln_base::limits::MOST_SOURCE;
use ln_lex::{Token, tokens};
use ln_names::{Fault, LimitWhat, NamesStop, check_names};
use ln_parse::parse;
use ln_syntax::{RawItem, read_items, syntax_fault};
use ln_tree::Table;
use std::alloc::Global;

/// A limit and the byte at which its fault begins; none is no fault.
type Want = Option<(LimitWhat, u32)>;

/// Whether the first fault of these items is as is wanted.
fn is_fault(alloc: Global, source: &[u8], ts: &[Token], its: &[RawItem], want: Want) -> bool {
    match check_names(alloc, source, ts, its) {
        Ok(_) => want.is_none(),
        Err(NamesStop::Found(found)) => match found.fault {
            Fault::Limit(what) => want == Some((what, found.at.start)),
            Fault::Named(_) => false,
        },
        Err(NamesStop::NoMemory(_)) => false,
    }
}

/// Whether the tokens are those of a file, whose first fault is as is wanted.
fn is_fault_of(alloc: Global, source: &[u8], ts: &[Token], want: Want) -> bool
    requires { length ts.now ≤ most_tokens }
{
    if syntax_fault(ts).is_some() {
        return false;
    }
    match read_items(alloc, ts) {
        Ok(its) => is_fault(alloc, source, ts, &its, want),
        Err(_) => false,
    }
}

/// Whether the first fault of a source is as is wanted.
fn is_first(alloc: Global, source: &str, want: Want) -> bool {
    if source.len() > MOST_SOURCE {
        return false;
    }
    match tokens(alloc, source.as_bytes()) {
        Ok(found) => is_fault_of(alloc, source.as_bytes(), found.as_slice(), want),
        Err(_) => false,
    }
}

const FILES: &[(&str, Want)] = &[
    ("param a: 1 .. 2;", None),
    ("param a: 2 .. 1;", Some((LimitWhat::RangeEnd, 14))),
    ("param abcdefghijklmnopqrstuvwxyzabcdef: 0 .. 1;", None),
    (
        "param abcdefghijklmnopqrstuvwxyzabcdefg: 0 .. 1;",
        Some((LimitWhat::NameLength, 6)),
    ),
];

#[test]
fn names_of_33_letters_and_ranges_out_of_order_are_refused(rt: HostRuntime) {
    for (source, want) in FILES {
        assert!(rt; is_first(rt.alloc(), source, *want));
    }
}

/// Is the range of the table's one param from `lo` to `hi`?
fn is_range(table: &Table, lo: i64, hi: i64) -> bool {
    match table.params.as_slice() {
        [param] => param.lo == lo && param.hi == hi,
        _ => false,
    }
}

/// Is the range of the source's one param from `lo` to `hi`?
fn has_range(alloc: Global, source: &str, lo: i64, hi: i64) -> bool {
    if source.len() > MOST_SOURCE {
        return false;
    }
    match parse(alloc, source.as_bytes()) {
        Ok(table) => is_range(&table, lo, hi),
        Err(_) => false,
    }
}

#[test]
fn numbers_have_leading_zeros(rt: HostRuntime) {
    assert!(rt; has_range(rt.alloc(), "param p: -012 .. 007;", -12, 7));
}
