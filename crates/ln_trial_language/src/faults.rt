//! Sources that are refused: what is wrong, and at which token.
use ln_base::{NoMemory, Span};
use ln_names::Fault;
use ln_parse::{LimitWhat, NameWhat, ParseStop, parse};
use std::alloc::Global;
use std::test::Fail;

/// Faults, and sources with the token of each between brackets.
const AT_A_TOKEN: &[(Fault, &[&str])] = &[
    (
        Fault::Limit(LimitWhat::NameLength),
        &["site [abcdefghijklmnopqrstuvwxyz_012345] { x: 0 .. 1; }"],
    ),
    (
        Fault::Limit(LimitWhat::Literal),
        &[
            "param c: 0 .. 1; predicate f(c: param) { sign c*[170141183460469231731687303715884105728]; }",
        ],
    ),
    (
        Fault::Limit(LimitWhat::RangeEnd),
        &[
            "param c: -[9223372036854775808] .. 0;",
            "param c: 5 .. [4];",
        ],
    ),
    (
        Fault::Limit(LimitWhat::Exponent),
        &["param c: 0 .. 1; predicate f(c: param) { sign c^[17]; }"],
    ),
    (
        Fault::Limit(LimitWhat::SiteArgs),
        &["site a { x: 0 .. 1; } predicate f(p: a, q: a, r: a, s: a, t: a, u: [a]) { sign p.x; }"],
    ),
    (
        Fault::Limit(LimitWhat::ParamArgs),
        &[
            "param a: 0 .. 1; param b: 0 .. 1; param c: 0 .. 1; param d: 0 .. 1; param e: 0 .. 1;
        param f: 0 .. 1; param g: 0 .. 1; param h: 0 .. 1; param i: 0 .. 1;
        predicate j(a: param, b: param, c: param, d: param, e: param, f: param, g: param, h: param, i: [param]) { sign a; }",
        ],
    ),
    (
        Fault::Named(NameWhat::Twice),
        &[
            "param c: 0 .. 1; site [c] { x: 0 .. 1; }",
            "site a { x: 0 .. 1; y: 0 .. 1; [x]: 0 .. 1; }",
            "site a { x: 0 .. 1; } predicate f(p: a, [p]: a) { sign p.x; }",
            "site a { x: 0 .. 1; } predicate f(p: a) { let [p] = 1; sign p.x; }",
        ],
    ),
    (
        Fault::Named(NameWhat::Unknown),
        &[
            "site a { x: 0 .. 1; } predicate f(p: [f]) { sign p.x; }",
            "site a { x: 0 .. 1; } predicate f(a: [param]) { sign a; }",
            "site a { x: 0 .. 1; } predicate f(p: a) { let d = [e]; let e = 1; sign d; }",
            "param c: 0 .. 1; predicate f(c: param) { sign [c].x; }",
            "site a { x: 0 .. 1; } predicate f(p: a) { sign p.[y]; }",
        ],
    ),
];

/// Sources with one more than the limit allows: a head; what comes before each of the counted, its letter, which a number follows, how many there
/// may be, and what follows them; the tail; the limit.
const ONE_TOO_MANY: &[(&str, &str, &str, u32, &str, &str, LimitWhat)] = &[
    (
        "",
        "site ",
        "n",
        16,
        " { x: 0 .. 1; } ",
        "",
        LimitWhat::Sites,
    ),
    ("", "param ", "n", 16, ": 0 .. 1; ", "", LimitWhat::Params),
    (
        "param c: 0 .. 1; ",
        "predicate ",
        "n",
        16,
        "(c: param) { sign c; } ",
        "",
        LimitWhat::Predicates,
    ),
    (
        "site a { ",
        "",
        "n",
        32,
        ": 0 .. 1; ",
        "}",
        LimitWhat::Coords,
    ),
    (
        "param c: 0 .. 1; predicate f(c: param) { ",
        "let ",
        "n",
        64,
        " = c; ",
        "sign c; }",
        LimitWhat::Lets,
    ),
    // The sum's first operand and 1,023 times a sign and a number are 2,047 nodes, one more sign is the 2,048th.
    (
        "param c: 0 .. 1; predicate f(c: param) { sign c",
        "+",
        "",
        1023,
        "",
        "; }",
        LimitWhat::Nodes,
    ),
];

/// Sources with a fault of tokens, nesting or syntax, which comes before all others, and the fault.
const FIRST: &[(&str, ParseStop)] = &[
    ("site # {", ParseStop::Lexical(Span { start: 5, end: 6 })),
    ("site a b", ParseStop::Syntax(Span { start: 7, end: 8 })),
    ("site a \n", ParseStop::Syntax(Span { start: 8, end: 8 })),
    (
        "param c: 2 .. 1; /",
        ParseStop::Lexical(Span { start: 17, end: 18 }),
    ),
    (
        "param c: 2 .. 1; c",
        ParseStop::Syntax(Span { start: 17, end: 18 }),
    ),
];

/// The span of a token of `len` bytes from byte `start` on.
fn span_of(start: usize, len: usize) -> Span {
    if start > 1 << 20 || len > 1 << 20 {
        return Span { start: 0, end: 0 };
    }
    Span {
        start: start as u32,
        end: (start + len) as u32,
    }
}

/// A fault at a span, as `parse` returns it.
fn stop(fault: Fault, at: Span) -> ParseStop {
    match fault {
        Fault::Limit(what) => ParseStop::Limit(what, at),
        Fault::Named(what) => ParseStop::Name(what, at),
    }
}

/// Is the source refused with this result?
fn is_refused(alloc: Global, source: &str, want: ParseStop) -> bool {
    if source.len() > 1 << 20 {
        return false;
    }
    match parse(alloc, source.as_bytes()) {
        Ok(_) => false,
        Err(stop) => stop == want,
    }
}

/// Adds three texts.
fn add(to: &mut String, first: &str, second: &str, third: &str) -> Result<(), NoMemory> {
    to.push_str(first)?;
    to.push_str(second)?;
    to.push_str(third)?;
    Ok(())
}

/// Is the source refused with this fault at the token, where these three go on with it?
fn is_refused_at(
    alloc: Global,
    source: &mut String,
    token: &str,
    behind: &str,
    tail: &str,
    fault: Fault,
) -> bool {
    let at = span_of(source.len(), token.len());
    let whole = add(source, token, behind, tail).is_ok();
    whole && is_refused(alloc, source.as_str(), stop(fault, at))
}

/// The letter and the number, as one name.
fn named(alloc: Global, letter: &str, n: u32) -> Result<String, NoMemory> {
    let name = format!(in alloc; "{letter}{n}")?;
    Ok(name)
}

/// The head, and this many of the counted.
fn most_of(
    alloc: Global,
    head: &str,
    before: &str,
    letter: &str,
    most: u32,
    behind: &str,
) -> Result<String, NoMemory> {
    let mut front = String::from_str(alloc, head)?;
    for n in 0..most {
        add(&mut front, before, &named(alloc, letter, n)?, behind)?;
    }
    front.push_str(before)?;
    Ok(front)
}

/// Is the source, without the brackets, refused with this fault at the token between them?
fn is_marked(alloc: Global, marked: &str, fault: Fault) -> Result<bool, NoMemory> {
    let Some((front, rest)) = marked.split_once('[') else {
        return Ok(false);
    };
    let Some((token, rest)) = rest.split_once(']') else {
        return Ok(false);
    };
    let mut source = String::from_str(alloc, front)?;
    Ok(is_refused_at(alloc, &mut source, token, rest, "", fault))
}

#[test]
fn each_fault_of_names_and_limits_stands_at_its_token(rt: HostRuntime) -> Result<(), Fail> {
    for (fault, sources) in AT_A_TOKEN {
        for source in *sources {
            assert!(rt; is_marked(rt.alloc(), source, *fault)?, "{source}");
        }
    }
    Ok(())
}

#[test]
fn one_more_than_a_limit_allows_is_refused(rt: HostRuntime) -> Result<(), Fail> {
    for (head, before, letter, most, behind, tail, what) in ONE_TOO_MANY {
        let mut front = most_of(rt.alloc(), head, before, letter, *most, behind)?;
        let token = named(rt.alloc(), letter, *most)?;
        let fault = Fault::Limit(*what);
        assert!(rt; is_refused_at(rt.alloc(), &mut front, &token, behind, tail, fault));
    }
    Ok(())
}

/// One more than 65,536 semicolons, and than 64 open parentheses.
const ONE_MORE: &[(&str, u32, LimitWhat)] = &[
    (";", 65_536, LimitWhat::Tokens),
    ("(", 64, LimitWhat::Nesting),
];

/// Is a source of one more than `most` of these tokens refused at the last?
fn is_one_too_many(alloc: Global, token: &str, most: u32, what: LimitWhat) -> bool {
    let at = span_of(most as usize, 1);
    match token.repeat(alloc, most as usize + 1) {
        Ok(source) => is_refused(alloc, source.as_str(), ParseStop::Limit(what, at)),
        Err(_) => false,
    }
}

#[test]
fn faults_of_tokens_nesting_and_syntax_come_first(rt: HostRuntime) {
    for (source, want) in FIRST {
        assert!(rt; is_refused(rt.alloc(), source, *want));
    }
    for (token, most, what) in ONE_MORE {
        assert!(rt; is_one_too_many(rt.alloc(), token, *most, *what));
    }
}
