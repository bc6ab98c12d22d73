//! Files of the C subset, read and called: their signs, the lines at which they have no meaning, and what is counted.
use crate::csyn::SAMPLE;
use ln_cmean::{CAnswer, CFault, CScratch, call};
use ln_csyn::{CFile, read_c};
use std::alloc::Global;
use std::process::Abort;
use std::test::Fail;

// Functions that a body can call; the body begins on line 9.
const HEAD: &str = "#include <stdint.h>
static int one(const int64_t *v) { return ((int)1); }
static int none(const int64_t *v) {
  int n = ((int)2);
}
static int place(const int64_t *v) { return (((int)1)
  == ((int)x[0])); }
int g(const int64_t *x, const int64_t *v) {
";

const TAIL: &str = "
}
static int later(const int64_t *v) { return ((int)1); }
";

const VALUES: [i64; 4] = [-9223372036854775808, 9223372036854775807, -7, 40000];

fn read(rt: &impl Abort, alloc: Global, text: &[u8]) -> Result<CFile, Fail> {
    assert!(rt; text.len() <= 1 << 20);
    Ok(read_c(alloc, text)?)
}

fn put_body(out: &mut Vec<u8>, body: &str) -> Result<(), Fail> {
    out.extend_from_slice(HEAD.as_bytes())?;
    out.extend_from_slice(body.as_bytes())?;
    out.extend_from_slice(TAIL.as_bytes())?;
    Ok(())
}

/// The file whose function g has this body.
fn file_of(rt: &impl Abort, alloc: Global, body: &str) -> Result<CFile, Fail> {
    let mut text = Vec::new(alloc);
    put_body(&mut text, body)?;
    read(rt, alloc, text.as_slice())
}

/// Returns what its function g returns.
fn called(rt: &impl Abort, alloc: Global, body: &str) -> Result<Result<CAnswer, CFault>, Fail> {
    let file = file_of(rt, alloc, body)?;
    let mut s = CScratch::new(alloc, &file)?;
    Ok(call(&file, "g", &[1, 2], &VALUES, &mut s))
}

/// Whether this is the sign, or the line.
fn tells(alloc: Global, was: Result<CAnswer, CFault>, want: &str) -> Result<bool, Fail> {
    let text = match was {
        Ok(answer) => format!(in alloc; "{}", answer.sign)?,
        Err(CFault::Undefined(line)) => format!(in alloc; "line {line}")?,
        Err(_) => String::new(alloc),
    };
    Ok(text.as_str() == want)
}

/// Each body of the function `g`, with its sign or the line at which it has no meaning before it, gives that.
fn all_give(rt: &impl Abort, alloc: Global, bodies: &[&str]) -> Result<(), Fail> {
    for row in bodies {
        let (want, body) = row.split_once(": ").unwrap_or(("", row));
        assert!(rt; tells(alloc, called(rt, alloc, body)?, want)?, "{body}");
    }
    Ok(())
}

/// A call of a function of `SAMPLE`: its name, the indices, the values, and what it returns.
type Call = (
    &'static str,
    [i64; 2],
    &'static [i64],
    Result<CAnswer, CFault>,
);

const RIGHT: CAnswer = CAnswer {
    sign: 1,
    wide: 0,
    calls: 1,
};

const LEFT: CAnswer = CAnswer {
    sign: -1,
    wide: 0,
    calls: 0,
};

const CALLS: &[Call] = &[
    ("g", [1, 2], &[5], Ok(RIGHT)),
    ("g", [2, 1], &[5], Ok(LEFT)),
    (
        "g",
        [1, 2],
        &[4611686018427387904],
        Err(CFault::Undefined(3)),
    ),
    ("g", [1, 2], &[], Err(CFault::Undefined(3))),
    ("f", [1, 2], &[5], Err(CFault::NoFunction)),
];

/// Returns whether the call returns what it should, and returns it again with the same scratch.
fn answers(alloc: Global, file: &CFile, wanted: &Call) -> Result<bool, Fail> {
    let mut s = CScratch::new(alloc, file)?;
    let first = call(file, wanted.0, &wanted.1, wanted.2, &mut s);
    let again = call(file, wanted.0, &wanted.1, wanted.2, &mut s);
    Ok(first == wanted.3 && again == wanted.3)
}

#[test]
fn a_file_of_two_functions_is_called(rt: HostRuntime) -> Result<(), Fail> {
    let file = read(&rt, rt.alloc(), SAMPLE.as_bytes())?;
    for wanted in CALLS {
        assert!(rt; answers(rt.alloc(), &file, wanted)?, "{}", wanted.0);
    }
    Ok(())
}

const NARROW: &[&str] = &[
    // An `int` at both ends, and past them.
    "32767: return ((int)32767);",
    "-32767: return (-((int)32767));",
    "line 9: return ((int)32768);",
    "line 9: return ((int)v[3]);",
    "line 9: return (((int)32767) + ((int)1));",
    "line 9: return ((-((int)32767)) - ((int)1));",
    // An `int64_t`.
    "1: return ((((int64_t)v[1]) - ((int64_t)1)) > ((int64_t)0));",
    "line 10: int64_t a = ((int64_t)v[1]);\nint64_t b = (((int64_t)a) + ((int64_t)1));",
    "line 9: return ((((int64_t)v[0]) - ((int64_t)1)) < ((int64_t)0));",
    "line 9: return ((((int64_t)v[1]) * ((int64_t)2)) > ((int64_t)0));",
    "line 9: return ((-((int64_t)v[0])) > ((int64_t)0));",
];

// p is 2^126.
const WIDE: &[&str] = &[
    "1: __int128 p = (((__int128)v[0]) * ((__int128)v[0]));
return (((((__int128)p) - ((__int128)1)) + ((__int128)p)) > ((__int128)0));",
    "line 10: __int128 p = (((__int128)v[0]) * ((__int128)v[0]));
return ((((__int128)p) + ((__int128)p)) > ((__int128)0));",
    "line 11: __int128 p = (((__int128)v[0]) * ((__int128)v[0]));
__int128 q = ((-((__int128)p)) - ((__int128)p));
__int128 r = (((__int128)q) - ((__int128)1));",
    "line 11: __int128 p = (((__int128)v[0]) * ((__int128)v[0]));
__int128 q = ((-((__int128)p)) - ((__int128)p));
__int128 r = (-((__int128)q));",
    "line 10: __int128 p = (((__int128)v[0]) * ((__int128)v[0]));
__int128 q = (((__int128)p) * ((__int128)2));",
    "1: __int128 p = ((__int128)v[1]);\nreturn ((((int64_t)p) + ((int64_t)0)) == ((int64_t)v[1]));",
];

#[test]
fn numbers_stay_within_their_type(rt: HostRuntime) -> Result<(), Fail> {
    all_give(&rt, rt.alloc(), NARROW)?;
    all_give(&rt, rt.alloc(), WIDE)
}

const OPERATIONS: &[&str] = &[
    // `/` truncates towards zero; its divisor has to be one of its type.
    "1: return ((((int64_t)v[2]) / ((int64_t)2)) == (-((int64_t)3)));",
    "line 9: return (((int)1) / ((int)40000));",
    // Comparisons.
    "1: return (((int)1) != ((int)2));",
    "0: return (((int)2) < ((int)2));",
    // Types that differ.
    "line 9: return ((((int64_t)1) + ((int)1)) > ((int64_t)0));",
    "line 9: int a = ((int64_t)1);",
    "line 9: if (((int64_t)1)) { }\nreturn ((int)1);",
    "line 9: return ((int64_t)1);",
];

#[test]
fn operands_have_one_type(rt: HostRuntime) -> Result<(), Fail> {
    all_give(&rt, rt.alloc(), OPERATIONS)
}

const NAMES: &[&str] = &[
    // A name before its declaration, within it, after its braces; the innermost of two.
    "line 9: int a = ((int)b);\nint b = ((int)1);",
    "line 11: int a = ((int)1);\n{\nint a = ((int)a); }",
    "line 10: { int a = ((int)1); }\nreturn ((int)a);",
    "2: int a = ((int)1); { int a = ((int)2); return ((int)a); }",
    "1: int a = ((int)1); { int a = ((int)2); } return ((int)a);",
    "line 9: return ((int)v);",
    // Places past the end, and `x` where the function hasn't it.
    "-7: return ((int)v[2]);",
    "line 9: return ((int)v[4]);",
    "2: return ((int)x[1]);",
    "line 9: return ((int)x[2]);",
    "line 6: return ((int)place(v));",
    // Functions that are unknown, later, have two parameters, or don't return.
    "1: return ((int)one(v));",
    "line 9: return ((int)two(v));",
    "line 9: return ((int)later(v));",
    "line 9: return ((int)g(v));",
    "line 5: return ((int)none(v));",
    // The left operand comes first, and types last.
    "line 5: return (((int)none(v)) + ((int)place(v)));",
    "line 6: return (((int)place(v)) + ((int)none(v)));",
    "line 5: return (((int64_t)one(v)) + ((int)none(v)));",
    // The innermost statement; braces that aren't entered; no `return`.
    "line 10: if (((int)1)) {\nint a = ((int)40000);\n}",
    "3: if (((int)0)) {\nint a = ((int)40000);\n}\nreturn ((int)3);",
    "line 11: { int a = ((int)1);\n}",
];

#[test]
fn names_calls_and_places_have_a_number_or_none(rt: HostRuntime) -> Result<(), Fail> {
    all_give(&rt, rt.alloc(), NAMES)
}

/// Bodies with the sign 1: how many operations are wide, and how many calls there are.
const COUNTED: &[(&str, u32, u32)] = &[
    (
        "return ((((__int128)1) + (-((__int128)2))) < (((__int128)6) / ((__int128)3)));",
        3,
        0,
    ),
    (
        "return (((((int64_t)1) + ((int64_t)2)) * ((int64_t)3)) > (-((int64_t)1)));",
        0,
        0,
    ),
    (
        "int a = (((int)one(v)) + ((int)one(v))); return (((int)a) - ((int)one(v)));",
        0,
        3,
    ),
];

#[test]
fn wide_operations_and_calls_are_counted(rt: HostRuntime) -> Result<(), Fail> {
    for (body, wide, calls) in COUNTED {
        let want = CAnswer {
            sign: 1,
            wide: *wide,
            calls: *calls,
        };
        assert!(rt; called(&rt, rt.alloc(), body)? == Ok(want), "{body}");
    }
    Ok(())
}
