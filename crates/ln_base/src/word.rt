//! Letters, digits and names, as the source language has them.
ghost use Rattle.std.specs.Prelude.{◌≡◌};
ghost use Rattle.ln_base.specs.Words.{every, is_digit, is_keyword, is_letter, is_name, is_name_byte, is_word};

/// A decimal digit.
pub fn digit(b: u8) -> bool
    ensures { result ≡ is_digit b }
{
    b'0' <= b && b <= b'9'
}

/// What begins a name: an ASCII letter or `_`.
pub fn letter(b: u8) -> bool
    ensures { result ≡ is_letter b }
{
    (b'a' <= b && b <= b'z') || (b'A' <= b && b <= b'Z') || b == b'_'
}

/// Returns whether a byte may follow the first letter of a name.
pub fn name_byte(b: u8) -> bool
    ensures { result ≡ is_name_byte b }
{
    letter(b) || digit(b)
}

// Nothing but bytes of names.
fn name_bytes(bytes: &[u8]) -> bool
    ensures { result ≡ every is_name_byte bytes.now }
{
    'bytes: for b in bytes {
        if !name_byte(*b) {
            return false;
        }
    }
    true
}

/// Nothing but digits.
pub fn digits(bytes: &[u8]) -> bool
    ensures { result ≡ every is_digit bytes.now }
{
    'bytes: for b in bytes {
        if !digit(*b) {
            return false;
        }
    }
    true
}

// A letter, then letters and digits.
fn is_word(text: &[u8]) -> bool
    ensures { result ≡ is_word text.now }
{
    match text {
        [] => false,
        [b, rest @ ..] => letter(*b) && name_bytes(rest),
    }
}

// One of the words of the source language that are no names.
fn is_keyword(text: &[u8]) -> bool
    ensures { result ≡ is_keyword text.now }
{
    text == b"site".as_slice()
        || text == b"param".as_slice()
        || text == b"predicate".as_slice()
        || text == b"let".as_slice()
        || text == b"sign".as_slice()
}

/// A NAME: a letter, then letters and digits, and none of the words `site`, `param`, `predicate`, `let` and `sign`.
pub fn is_name(text: &[u8]) -> bool
    ensures { result ≡ is_name text.now }
{
    is_word(text) && !is_keyword(text)
}
