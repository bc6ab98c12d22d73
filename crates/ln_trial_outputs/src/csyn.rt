//! Texts that are files of the C subset, and texts that are none; a sample is read, written and read again.
use ln_csyn::{CForm, CFun, CStmt, CStop, read_c, write_c};
use std::alloc::Global;
use std::process::Abort;
use std::test::Fail;

pub const SAMPLE: &str = "#include <stdint.h>
static int f(const int64_t *v) {
  int64_t t = (((int64_t)v[0]) * ((int64_t)2));
  if ((((int64_t)t) > ((int64_t)0))) { return ((int)1); }
  return ((int)0);
}
int g(const int64_t *x, const int64_t *v) {
  if ((((int64_t)x[0]) < ((int64_t)x[1]))) { return ((int)f(v)); }
  return (-((int)1));
}
";

const WRITTEN: &str = "#include <stdint.h>

static int f(const int64_t *v) {
  int64_t t = (((int64_t)v[0]) * ((int64_t)2));
  if ((((int64_t)t) > ((int64_t)0))) {
    return ((int)1);
  }
  return ((int)0);
}

int g(const int64_t *x, const int64_t *v) {
  if ((((int64_t)x[0]) < ((int64_t)x[1]))) {
    return ((int)f(v));
  }
  return (-((int)1));
}
";

/// The texts before and after a text of a table.
type Frame = (&'static str, &'static str);

const WHOLE: Frame = ("", "");

const FILE: Frame = ("#include <stdint.h>\n", "");

const BODY: Frame = ("#include <stdint.h>\nint g(const int64_t*v){", "}");

const VALUE: Frame = ("#include <stdint.h>\nint g(const int64_t*v){return", ";}");

const VALUE_OF_TWO: Frame = (
    "#include <stdint.h>\nint g(const int64_t*x,const int64_t*v){return",
    ";}",
);

/// Whether the bytes are a file.
fn is_text(rt: &impl Abort, alloc: Global, text: &[u8]) -> Result<bool, Fail> {
    assert!(rt; text.len() < 1 << 32);
    match read_c(alloc, text) {
        Ok(_) => Ok(true),
        Err(CStop::NotSubset) => Ok(false),
        Err(stop) => Err(Fail::from(stop)),
    }
}

fn put_framed(out: &mut Vec<u8>, frame: Frame, text: &str) -> Result<(), Fail> {
    out.extend_from_slice(frame.0.as_bytes())?;
    out.extend_from_slice(text.as_bytes())?;
    out.extend_from_slice(frame.1.as_bytes())?;
    Ok(())
}

/// Whether the text in its frame is a file.
fn is_file(rt: &impl Abort, alloc: Global, frame: Frame, text: &str) -> Result<bool, Fail> {
    let mut all = Vec::new(alloc);
    put_framed(&mut all, frame, text)?;
    is_text(rt, alloc, all.as_slice())
}

/// The statements begin on lines 3, 4 and 5.
fn begin_on_lines(body: &[CStmt]) -> bool {
    match body {
        [a, b, c] => a.line == 3 && b.line == 4 && c.line == 5,
        _ => false,
    }
}

/// The first statement is an `if`, and what it guards is one statement on line 8.
fn guards_line_8(body: &[CStmt]) -> bool {
    match body {
        [
            CStmt {
                form: CForm::If(_, inner),
                ..
            },
            ..
        ] => match inner.as_slice() {
            [only] => only.line == 8,
            _ => false,
        },
        _ => false,
    }
}

fn is_sample(funs: &[CFun]) -> bool {
    match funs {
        [f, g] => {
            f.own
                && !f.indexed
                && f.end == 6
                && begin_on_lines(f.body.as_slice())
                && !g.own
                && g.indexed
                && g.end == 10
                && guards_line_8(g.body.as_slice())
        }
        _ => false,
    }
}

/// Whether the text of the sample's file is the one that is wanted.
fn is_written(rt: &impl Abort, alloc: Global, text: &str) -> Result<bool, Fail> {
    assert!(rt; text.len() < 1 << 32);
    let file = read_c(alloc, text.as_bytes())?;
    let text = write_c(alloc, &file)?;
    Ok(text.as_slice() == WRITTEN.as_bytes())
}

#[test]
fn the_sample_is_read(rt: HostRuntime) -> Result<(), Fail> {
    let file = read_c(rt.alloc(), SAMPLE.as_bytes())?;
    assert!(rt; is_sample(file.funs.as_slice()));
    Ok(())
}

#[test]
fn the_sample_is_written_and_read_again(rt: HostRuntime) -> Result<(), Fail> {
    assert!(rt; is_written(&rt, rt.alloc(), SAMPLE)?);
    assert!(rt; is_written(&rt, rt.alloc(), WRITTEN)?);
    Ok(())
}

const NO_WHOLES: &[&str] = &[
    "",
    "#include <stdint.h>",
    "#include <stdint.h>\r\n",
    " #include <stdint.h>\n",
    "#include  <stdint.h>\n",
    "int g(const int64_t*v){}",
    "int g() { }",
];

const FUNCTIONS: &[&str] = &[
    "int g(const int64_t *v) { }",
    "int g(const int64_t*v){}static int h(const int64_t*v){}",
    "int g(const int64_t*x,const int64_t*v){}",
    "\r\n\tint\rg\t(const\nint64_t*v){}\r",
    // Names that are none of the parameters', and differ.
    "int vx(const int64_t*v){}",
    "int g(const int64_t*v){}int G(const int64_t*v){}int g_(const int64_t*v){}",
    "int abcdefghijklmnopqrstuvwxyzabcdefghijklmnopqrstuvwxyz9(const int64_t*v){}",
];

const NO_FUNCTIONS: &[&str] = &[
    "int g() { }",
    "int g(const int64_t*v,const int64_t*x){}",
    "int g(const int64_t*x){}",
    "int g(int64_t*v){}",
    "int g(const int64_t*v)",
    "int g(const int64_t*v){",
    "int g(const int64_t*v){}}",
    "int g(const int64_t*v){};",
    "int64_t g(const int64_t*v){}",
    "staticint g(const int64_t*v){}",
    "int static g(const int64_t*v){}",
    "int\x0Bg(const int64_t*v){}",
    "int\x0Cg(const int64_t*v){}",
    "int g(const int64_t*v){\0}",
    "int g(const int64_t*v){}\u{e9}",
    "int g(const int64_t*v){/**/}",
    "int g(const int64_t*v){}// g\n",
    // Names of parameters, a name that comes twice, or is declared in a body before its function or after it.
    "int v(const int64_t*v){}",
    "int x(const int64_t*v){}",
    "int g(const int64_t*v){}int g(const int64_t*x,const int64_t*v){}",
    "int g(const int64_t*v){int h=((int)1);}int h(const int64_t*v){}",
    "int g(const int64_t*v){}int h(const int64_t*v){{int g=((int)1);}}",
    "int 9g(const int64_t*v){}",
];

const RESERVED: &str =
    "auto break case char const continue default do double else enum extern float for goto if \
    inline int long register restrict return short signed sizeof static struct switch \
    typedef union unsigned void volatile while _Bool _Complex _Imaginary int64_t __int128 \
    site param predicate let sign";

/// Places where a name is allowed, and no reserved word.
const NAMES: &[Frame] = &[
    ("#include <stdint.h>\nint ", "(const int64_t*v){}"),
    (
        "#include <stdint.h>\nint g(const int64_t*v){int ",
        "=((int)1);}",
    ),
    (
        "#include <stdint.h>\nint g(const int64_t*v){return((int)",
        ");}",
    ),
];

/// The same with a letter or a digit more.
const LONGER_NAMES: &[Frame] = &[
    ("#include <stdint.h>\nint ", "_(const int64_t*v){}"),
    ("#include <stdint.h>\nint _", "(const int64_t*v){}"),
    (
        "#include <stdint.h>\nint g(const int64_t*v){return((int)",
        "9);}",
    ),
];

#[test]
fn words_that_are_no_names(rt: HostRuntime) -> Result<(), Fail> {
    for word in RESERVED.split_ascii_whitespace() {
        for frame in NAMES {
            assert!(rt; !is_file(&rt, rt.alloc(), *frame, word)?, "{word}");
        }
        for frame in LONGER_NAMES {
            assert!(rt; is_file(&rt, rt.alloc(), *frame, word)?, "{word}");
        }
    }
    Ok(())
}

const STATEMENTS: &[&str] = &[
    "int a=((int)1);",
    "int64_t a=((int)1);__int128 b=((int)1);",
    "return((int)1);return((int)1);",
    "if(((int)1)){}return((int)1);",
    "{{}{}}{}",
    "int a=((int)1);{int a=((int)2);}if(((int)1)){int a=((int)3);}",
];

const NO_STATEMENTS: &[&str] = &[
    "long a=((int)1);",
    "inta=((int)1);",
    "int a;",
    "a=((int)1);",
    "int a=((int)1)",
    ";",
    "return;",
    "returnn((int)1);",
    "if((int)1){}",
    "if(((int)1))return((int)1);",
    "if(((int)1)){}else{}",
    "{}}",
    "int v=((int)1);",
    "{int x=((int)1);}",
    "int g=((int)1);",
    "int a=((int)1);int a=((int)2);",
    "int a=((int)1);{}int64_t a=((int)2);",
    "{int a=((int)1);int a=((int)2);}",
    "if(((int)1)){int a=((int)1);int b=((int)2);int a=((int)2);}",
];

const EXPRESSIONS: &[&str] = &[
    "((int)1)",
    "(-((__int128)1))",
    "((int)(-((int64_t)1)))",
    "((int)a1)",
    "((int)v)",
    "((int)x)",
    "((int)0)",
    "((int)9223372036854775807)",
    "((int)v[0])",
    "((int)x [ 9223372036854775807 ])",
    "(((int)1)+((int)2))",
    "(((int)1)-((int)2))",
    "(((int)1)*((int)2))",
    "(((int)1)<((int)2))",
    "(((int)1)>((int)2))",
    "(((int)1)==((int)2))",
    "(((int)1)!=((int)2))",
    "(((int)1)/((__int128)2))",
];

const NO_EXPRESSIONS: &[&str] = &[
    "1",
    "((int)-1)",
    "(((int)1))",
    "((long)1)",
    "((int)1a)",
    "((int)1 2)",
    "((int)00)",
    "((int)01)",
    "((int)9223372036854775808)",
    "((int)18446744073709551617)",
    "((int)340282366920938463463374607431768211457)",
    "((int)v[9223372036854775808])",
    "((int)v[00])",
    "((int)v[a])",
    "((int)a[0])",
    "(((int)1)<=((int)2))",
    "(((int)1)= =((int)2))",
    "(((int)1)=((int)2))",
    "(((int)1)!((int)2))",
    "(((int)1)%((int)2))",
    "(((int)1)+((int)2)+((int)3))",
    "(((int)1)/((int)0))",
    "(((int)1)/((int)a))",
    "(((int)1)/(-((int)1)))",
    "(((int)1)/((int)((int)2)))",
    "(-((int)((((int)1)/((int)0))*((int)2))))",
];

const CALLS: &[&str] = &["((int)g(v))", "((int)v(v))", "(-(((int)1)*((int)h(v))))"];

const NO_CALLS: &[&str] = &["((int)g(x))", "((int)g())", "((int)g(v,v))"];

/// Frames and texts, and whether each of these is a file in its frame, or none is. Only functions of two parameters have calls.
const TABLES: &[(Frame, &[&str], bool)] = &[
    (WHOLE, &["#include <stdint.h>\n"], true),
    (WHOLE, NO_WHOLES, false),
    (FILE, FUNCTIONS, true),
    (FILE, NO_FUNCTIONS, false),
    (BODY, STATEMENTS, true),
    (BODY, NO_STATEMENTS, false),
    (VALUE, EXPRESSIONS, true),
    (VALUE, NO_EXPRESSIONS, false),
    (VALUE, CALLS, false),
    (VALUE_OF_TWO, CALLS, true),
    (VALUE_OF_TWO, NO_CALLS, false),
];

#[test]
fn texts_of_each_rule_and_texts_of_none(rt: HostRuntime) -> Result<(), Fail> {
    for (frame, texts, want) in TABLES {
        for text in *texts {
            assert!(rt; is_file(&rt, rt.alloc(), *frame, text)? == *want, "{text}");
        }
    }
    Ok(())
}

/// A body: its beginning, what is repeated, how often it may be, the middle, what closes each, and the back.
type Nest = (
    &'static str,
    &'static str,
    usize,
    &'static str,
    &'static str,
    &'static str,
);

const NESTS: &[Nest] = &[
    ("return", "(-", 14, "((int)1)", ")", ";"),
    ("return", "((int)", 14, "((int)1)", ")", ";"),
    ("if(", "(-", 13, "((int)1)", ")", "){}"),
    ("int a=", "(((int)1)+", 14, "((int)1)", ")", ";"),
    ("", "{", 63, "", "}", ""),
    ("", "if(((int)1)){", 63, "", "}", ""),
];

fn put_times(out: &mut Vec<u8>, text: &str, times: usize) -> Result<(), Fail> {
    for _ in 0..times {
        out.extend_from_slice(text.as_bytes())?;
    }
    Ok(())
}

fn put_nest(out: &mut Vec<u8>, nest: &Nest, times: usize) -> Result<(), Fail> {
    put_times(out, BODY.0, 1)?;
    put_times(out, nest.0, 1)?;
    put_times(out, nest.1, times)?;
    put_times(out, nest.3, 1)?;
    put_times(out, nest.4, times)?;
    put_times(out, nest.5, 1)?;
    put_times(out, BODY.1, 1)
}

/// Whether the body is a file's when what is repeated is there this many times.
fn is_nested(rt: &impl Abort, alloc: Global, nest: &Nest, times: usize) -> Result<bool, Fail> {
    let mut all = Vec::new(alloc);
    put_nest(&mut all, nest, times)?;
    is_text(rt, alloc, all.as_slice())
}

#[test]
fn sixteen_parentheses_and_sixty_four_braces(rt: HostRuntime) -> Result<(), Fail> {
    for nest in NESTS {
        assert!(rt; is_nested(&rt, rt.alloc(), nest, nest.2)?);
        assert!(rt; !is_nested(&rt, rt.alloc(), nest, nest.2 + 1)?);
    }
    Ok(())
}

const DEEP: &[Nest] = &[
    ("return", "(", 200_000, "", "", ""),
    ("return", "{", 200_000, "", "", ""),
    ("return", "a", 200_000, "", "", ""),
    ("return", "1", 200_000, "", "", ""),
];

// Reading recurses no deeper than the limits.
#[test]
fn two_hundred_thousand_parentheses(rt: HostRuntime) -> Result<(), Fail> {
    for nest in DEEP {
        assert!(rt; !is_nested(&rt, rt.alloc(), nest, nest.2)?);
    }
    Ok(())
}
