//! Words, numbers and operators by their text.
ghost use Rattle.std.specs.Prelude.{◌≡◌, ◌-◌, ◌&&◌, ◌==◌, ◌<◌, map};
ghost use Rattle.ln_csyn.specs.Words.{among, reserved, is_c_name, is_numeral, number_of, type_of, op_of};
ghost use Rattle.ln_csyn.specs.Spelling.{op_text, op_among};

use crate::tree::{COp, CType};
use ln_base::decimal::unsigned;
use ln_base::word::{digit, digits, is_name};

// Whether the text is one of these words.
fn stands_among(text: &[u8], words: &[&[u8]]) -> bool
    ensures { result ≡ among (map (λ w. w.now) words.now) text.now }
{
    'words: for word in words {
        if text == *word {
            return true;
        }
    }
    false
}

// The 37 keywords of C99, and the two types that are none of them.
const RESERVED: &[&[u8]] = &[
    b"auto",
    b"break",
    b"case",
    b"char",
    b"const",
    b"continue",
    b"default",
    b"do",
    b"double",
    b"else",
    b"enum",
    b"extern",
    b"float",
    b"for",
    b"goto",
    b"if",
    b"inline",
    b"int",
    b"long",
    b"register",
    b"restrict",
    b"return",
    b"short",
    b"signed",
    b"sizeof",
    b"static",
    b"struct",
    b"switch",
    b"typedef",
    b"union",
    b"unsigned",
    b"void",
    b"volatile",
    b"while",
    b"_Bool",
    b"_Complex",
    b"_Imaginary",
    b"int64_t",
    b"__int128",
];

fn is_reserved(text: &[u8]) -> bool
    ensures { result ≡ among reserved text.now }
{
    stands_among(text, RESERVED)
}

/// A NAME.
pub fn c_name(text: &[u8]) -> bool
    ensures { result ≡ is_c_name text.now }
{
    is_name(text) && !is_reserved(text)
}

// Digits without a leading zero, or a zero alone.
fn numeral(text: &[u8]) -> bool
    ensures { result ≡ is_numeral text.now }
{
    match text {
        [] => false,
        [d] => digit(*d),
        [d, rest @ ..] => digit(*d) && *d != b'0' && digits(rest),
    }
}

/// The number of a text, if it is a NUMBER.
pub fn number(text: &[u8]) -> Option<u64>
    ensures { result ≡ number_of text.now }
{
    if !numeral(text) {
        return None;
    }
    let n = unsigned(text);
    if n <= 9_223_372_036_854_775_807 {
        Some(n as u64)
    } else {
        None
    }
}

/// The type of a text, if it is one.
pub fn type_word(text: &[u8]) -> Option<CType>
    ensures { result ≡ type_of text.now }
{
    if text == b"int".as_slice() {
        Some(CType::Int)
    } else if text == b"int64_t".as_slice() {
        Some(CType::Int64)
    } else if text == b"__int128".as_slice() {
        Some(CType::Int128)
    } else {
        None
    }
}

/// The text of an operation.
pub(crate) fn op_word(op: COp) -> &'static [u8]
    ensures { result.now ≡ op_text op }
{
    match op {
        COp::Add => b"+",
        COp::Sub => b"-",
        COp::Mul => b"*",
        COp::Div => b"/",
        COp::Less => b"<",
        COp::More => b">",
        COp::Same => b"==",
        COp::Differ => b"!=",
    }
}

// The one of these operations that has this text.
fn op_among(text: &[u8], ops: &[COp]) -> Option<COp>
    ensures { result ≡ op_among text.now ops.now }
{
    'ops: for op in ops {
        if text == op_word(*op) {
            return Some(*op);
        }
    }
    None
}

/// The operation of a text, if it is one.
pub fn operation(text: &[u8]) -> Option<COp>
    ensures { result ≡ op_of text.now }
{
    let ops = [
        COp::Add,
        COp::Sub,
        COp::Mul,
        COp::Div,
        COp::Less,
        COp::More,
        COp::Same,
        COp::Differ,
    ];
    op_among(text, &ops)
}
