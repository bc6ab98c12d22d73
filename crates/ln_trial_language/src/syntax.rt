//! The items of sources, and the places of their faults.
ghost use Rattle.std.specs.Prelude.{◌≤◌, length};
ghost use Rattle.ln_base.specs.Limits.{most_tokens};

use ln_base::limits::MOST_SOURCE;
use ln_base::{NoMemory, Span};
use ln_lex::{Token, tokens};
use ln_syntax::{RawArg, RawCoord, RawItem, RawLet, nesting_fault, read_items, syntax_fault};
use std::alloc::Global;
use std::test::Fail;

const SOURCE: &str = "site a { x: -1 .. 2; } param p: 0 .. 3; \
    predicate f(q: a, r: param) { let z = q.x + r; sign -z; }";

fn is_at(at: Span, start: u32, end: u32) -> bool {
    at.start == start && at.end == end
}

fn is_coord_of_source(coords: &[RawCoord]) -> bool {
    match coords {
        [c] => is_at(c.name, 9, 10) && c.range.low.negative && !c.range.high.negative,
        _ => false,
    }
}

fn are_args_of_source(args: &[RawArg]) -> bool {
    match args {
        [q, r] => !q.is_param && r.is_param && is_at(q.kind, 55, 56) && is_at(r.kind, 61, 66),
        _ => false,
    }
}

fn is_let_of_source(lets: &[RawLet]) -> bool {
    match lets {
        [l] => is_at(l.name, 74, 75) && l.value.from == 33 && l.value.to == 38,
        _ => false,
    }
}

fn is_of_source(item: &RawItem) -> bool {
    match item {
        RawItem::Site(name, coords) => is_at(*name, 5, 6) && is_coord_of_source(coords),
        RawItem::Param(name, range) => {
            is_at(*name, 29, 30) && is_at(range.low.at, 32, 33) && is_at(range.high.at, 37, 38)
        }
        RawItem::Pred(name, args, lets, root) => {
            is_at(*name, 50, 51)
                && are_args_of_source(args)
                && is_let_of_source(lets)
                && root.from == 40
                && root.to == 42
        }
    }
}

/// Whether these three items are those of `SOURCE`.
fn are_of_source(items: &[RawItem]) -> bool {
    for item in items {
        if !is_of_source(item) {
            return false;
        }
    }
    items.len() == 3
}

/// Whether the tokens are those of a file whose three items are those of `SOURCE`.
fn have_items_of_source(alloc: Global, ts: &[Token]) -> bool
    requires { length ts.now ≤ most_tokens }
{
    if syntax_fault(ts).is_some() {
        return false;
    }
    match read_items(alloc, ts) {
        Ok(items) => are_of_source(&items),
        Err(_) => false,
    }
}

/// Whether the source is a file whose three items are those of `SOURCE`.
fn has_items_of_source(alloc: Global, source: &str) -> bool {
    if source.len() > MOST_SOURCE {
        return false;
    }
    match tokens(alloc, source.as_bytes()) {
        Ok(found) => have_items_of_source(alloc, found.as_slice()),
        Err(_) => false,
    }
}

#[test]
fn items_of_a_source(rt: HostRuntime) {
    assert!(rt; has_items_of_source(rt.alloc(), SOURCE));
}

/// Whether the token of a fault begins at this byte; the end of the source, where it is past the last token.
fn is_byte(found: Option<usize>, ts: &[Token], source: &str, want: Option<usize>) -> bool {
    match found {
        None => want.is_none(),
        Some(at) => match ts.get(at) {
            Some(t) => want == Some(t.span.start as usize),
            None => want == Some(source.len()),
        },
    }
}

/// Returns whether the nesting fault and the syntax fault are at these bytes.
fn has_faults(alloc: Global, source: &str, nesting: Option<usize>, syntax: Option<usize>) -> bool {
    if source.len() > MOST_SOURCE {
        return false;
    }
    let Ok(found) = tokens(alloc, source.as_bytes()) else {
        return false;
    };
    let ts = found.as_slice();
    is_byte(nesting_fault(ts), ts, source, nesting) && is_byte(syntax_fault(ts), ts, source, syntax)
}

const FILES: &[&str] = &[
    "",
    " // no item",
    "site a { x: -1 .. 1; y: 0 .. -0; } param c: 0 .. 5;
        predicate f(p: a, c: param) { let d = -p.x^2 * c - (3 + p.y); sign d + d * d; }",
];

#[test]
fn files_have_no_fault(rt: HostRuntime) {
    for source in FILES {
        assert!(rt; has_faults(rt.alloc(), source, None, None));
    }
}

/// The beginning of a file, and what no file goes on with there: nothing, where the source ends too early.
const FRONTS: &[(&str, &str)] = &[
    ("site a { ", "}"),
    ("site a", ""),
    ("site a { x: 0 .. 1 ", "}"),
    ("predicate f(p: a) { sign p.x^", "-1; }"),
    ("predicate f(p: a) { sign p.x^2", "^2; }"),
    ("predicate f(p: a) { sign p.x", ""),
    ("param c: 0 .. 5; ", "c"),
    ("site a { x ", "0 .. 1; }"),
    ("site a { x: 0 .. 1; // ..\n", ""),
    ("param c: 0 ", "5;"),
    ("param c: - ", "- 5 .. 5;"),
    ("param c: 0 .. 5 ", "predicate"),
    ("predicate f(", ") { sign 1; }"),
    ("predicate f(p: ", "0) { sign 1; }"),
    ("predicate f(p: a", "; q: a) { sign 1; }"),
    ("predicate f(p: a) { ", "}"),
    ("predicate f(p: a) { let d ", "0; sign d; }"),
    ("predicate f(p: a) { let d = 0; ", "}"),
    ("predicate f(p: a) { sign p.x ", "}"),
    ("predicate f(p: a) { sign p.x; ", "sign"),
    ("predicate f(p: a) { sign ", "+ p.x; }"),
    ("predicate f(p: a) { sign p.x + ", "; }"),
    ("predicate f(p: a) { sign p.x * ", "; }"),
    ("predicate f(p: a) { sign -", "; }"),
    ("predicate f(p: a) { sign p.x^", "p.x; }"),
    ("predicate f(p: a) { sign 0", ".x; }"),
    ("predicate f(p: a) { sign p.", "0; }"),
    ("predicate f(p: a) { sign (p.x", "; }"),
    ("predicate f(p: a) { sign (p.x)", "); }"),
];

/// Is the source of these two parts no file, and does its fault stand where the second begins?
fn is_fault_behind(alloc: Global, front: &str, rest: &str) -> bool {
    match repeated(alloc, front, rest, 1, "") {
        Ok(source) => has_faults(alloc, source.as_str(), None, Some(front.len())),
        Err(_) => false,
    }
}

#[test]
fn a_fault_of_each_rule_stands_at_its_token(rt: HostRuntime) {
    for (front, rest) in FRONTS {
        assert!(rt; is_fault_behind(rt.alloc(), front, rest), "{front}");
    }
}

/// A text, another one n times, and a last one.
fn repeated(
    alloc: Global,
    before: &str,
    part: &str,
    times: u32,
    behind: &str,
) -> Result<String, NoMemory> {
    let mut source = String::from_str(alloc, before)?;
    for _ in 0..times {
        source.push_str(part)?;
    }
    source.push_str(behind)?;
    Ok(source)
}

const SIGN: &str = "predicate f(c: param) { sign ";

/// A part of an expression, and how often it occurs in it.
const LONG: &[(&str, u32)] = &[("-", 65_000), ("c+", 32_000), ("(c)*", 16_000)];

#[test]
fn long_sources_are_files(rt: HostRuntime) -> Result<(), Fail> {
    let alloc = rt.alloc();
    for (part, times) in LONG {
        let source = repeated(alloc, SIGN, part, *times, "c; }")?;
        assert!(rt; has_faults(alloc, source.as_str(), None, None));
    }
    Ok(())
}

/// The text before this many parentheses, and the bytes of the two faults.
const NESTED: &[(&str, u32, Option<usize>, usize)] = &[
    (SIGN, 64, None, 29 + 64),
    (SIGN, 65, Some(29 + 64), 29 + 65),
    (")))", 64, None, 0),
    (")))", 65, Some(3 + 64), 0),
];

#[test]
fn deep_sources_are_refused(rt: HostRuntime) -> Result<(), Fail> {
    let alloc = rt.alloc();
    for (before, times, nesting, syntax) in NESTED {
        let source = repeated(alloc, before, "(", *times, "")?;
        assert!(rt; has_faults(alloc, source.as_str(), *nesting, Some(*syntax)));
    }
    Ok(())
}
