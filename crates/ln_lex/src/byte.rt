//! Classes of bytes, and how far they run.
ghost use Rattle.std.specs.Prelude.{◌≡◌, ◌≤◌, drop, length};
ghost use Rattle.ln_lex.specs.Tokens.{begins_blank, begins_twice, in_class, sign_of};
ghost use Rattle.ln_base.specs.Runs.{run_len};

use crate::token::Kind;
use ln_base::word::{digit, letter};

/// A class of bytes that run on: what goes on with a name, digits, and what a comment may hold after its slashes.
#[derive(Clone, Copy)]
pub enum Class {
    InName,
    Digits,
    InComment,
}

// Whether the byte is of the class.
fn holds(class: Class, b: u8) -> bool
    ensures { result ≡ in_class class b }
{
    match class {
        Class::InName => letter(b) || digit(b),
        Class::Digits => digit(b),
        Class::InComment => b < 128 && b != b'\n',
    }
}

/// The sign of one byte.
pub fn sign(b: u8) -> Option<Kind>
    ensures { result ≡ sign_of b }
{
    match b {
        b'{' => Some(Kind::BraceL),
        b'}' => Some(Kind::BraceR),
        b'(' => Some(Kind::ParL),
        b')' => Some(Kind::ParR),
        b':' => Some(Kind::Colon),
        b';' => Some(Kind::Semi),
        b',' => Some(Kind::Comma),
        b'.' => Some(Kind::Dot),
        b'+' => Some(Kind::Plus),
        b'-' => Some(Kind::Minus),
        b'*' => Some(Kind::Star),
        b'^' => Some(Kind::Caret),
        b'=' => Some(Kind::Equals),
        _ => None,
    }
}

/// Whether the first byte is a blank: space, tab, line feed or carriage return.
pub fn blank_at(bytes: &[u8]) -> bool
    ensures { result ≡ begins_blank bytes.now }
{
    match bytes {
        [] => false,
        [b, ..] => *b == b' ' || *b == b'\t' || *b == b'\n' || *b == b'\r',
    }
}

/// Whether the first two bytes are both this byte.
pub fn twice_at(bytes: &[u8], b: u8) -> bool
    ensures { result ≡ begins_twice b bytes.now }
{
    match bytes {
        [c, d, ..] => *c == b && *d == b,
        _ => false,
    }
}

/// The bytes from a place on.
pub fn after(bytes: &[u8], at: usize) -> &[u8]
    requires { at ≤ length bytes.now }
    ensures { result.now ≡ drop at bytes.now }
{
    &bytes[at..]
}

/// How many bytes at the beginning are of the class.
pub fn run(bytes: &[u8], class: Class) -> usize
    ensures len { result ≡ run_len (in_class class) bytes.now }
    ensures within { result ≤ length bytes.now }
{
    for (i, b) in bytes.iter().enumerate() {
        if !holds(class, *b) {
            return i;
        }
    }
    bytes.len()
}
