//! Finds the tokens in bytes, each with the line that it begins on.
ghost use Rattle.std.specs.Prelude.{◌≡◌, ◌<◌, ◌≤◌, ◌^◌, ◌-◌, ◌+◌, [], length, take, drop};
ghost use Rattle.ln_base.specs.Words.{is_digit, is_name_byte};
ghost use Rattle.ln_csyn.specs.Seen.{tokens_of};
ghost use Rattle.ln_csyn.specs.Text.{is_blank, is_sign, is_double, sign_len, first_len, behind, tokens_by, tokens_from};
ghost use Rattle.ln_base.specs.Runs.{run_len};

use crate::tokens::Tokens;
use ln_base::word::{digit, letter, name_byte};

fn blank(b: u8) -> bool
    ensures { result ≡ is_blank b }
{
    b == b' ' || b == b'\t' || b == b'\n' || b == b'\r'
}

fn sign(b: u8) -> bool
    ensures { result ≡ is_sign b }
{
    match b {
        b'('
        | b')'
        | b'*'
        | b'+'
        | b','
        | b'-'
        | b'/'
        | b';'
        | b'<'
        | b'='
        | b'>'
        | b'['
        | b']'
        | b'{'
        | b'}' => true,
        _ => false,
    }
}

fn double(b: u8) -> bool
    ensures { result ≡ is_double b }
{
    b == b'=' || b == b'!'
}

fn name_run(bytes: &[u8]) -> usize
    ensures len { result ≡ run_len is_name_byte bytes.now }
    ensures within { result ≤ length bytes.now }
{
    for (i, b) in bytes.iter().enumerate() {
        if !name_byte(*b) {
            return i;
        }
    }
    bytes.len()
}

fn digit_run(bytes: &[u8]) -> usize
    ensures len { result ≡ run_len is_digit bytes.now }
    ensures within { result ≤ length bytes.now }
{
    for (i, b) in bytes.iter().enumerate() {
        if !digit(*b) {
            return i;
        }
    }
    bytes.len()
}

fn sign_len(b: u8, rest: &[u8]) -> usize
    ensures len { result ≡ sign_len b rest.now }
    ensures within { result ≤ 1 + length rest.now }
{
    let pair = match rest {
        [c, ..] => double(b) && *c == b'=',
        [] => false,
    };
    if pair {
        2
    } else if sign(b) {
        1
    } else {
        0
    }
}

// How many bytes the first token has; 0 where there is none.
fn first_len(bytes: &[u8]) -> usize
    requires { length bytes.now < 2 ^ 32 }
    ensures len { result ≡ first_len bytes.now }
    ensures within { result ≤ length bytes.now }
{
    match bytes {
        [] => 0,
        [b, rest @ ..] => {
            if letter(*b) {
                1 + name_run(rest)
            } else if digit(*b) {
                1 + digit_run(rest)
            } else {
                sign_len(*b, rest)
            }
        }
    }
}

// The line after a byte.
fn behind(b: u8, line: u32) -> u32
    requires { line < 2 ^ 32 - 1 }
    ensures { result ≡ behind b line }
{
    if b == b'\n' { line + 1 } else { line }
}

/// The bytes from a place on.
pub fn after(bytes: &[u8], at: usize) -> &[u8]
    requires { at ≤ length bytes.now }
    ensures { result.now ≡ drop at bytes.now }
{
    &bytes[at..]
}

/// The first n bytes.
pub fn front(bytes: &[u8], n: usize) -> &[u8]
    requires { n ≤ length bytes.now }
    ensures { result.now ≡ take n bytes.now }
{
    &bytes[..n]
}

// The tokens of bytes that begin with no blank.
fn tokens_by<'a>(bytes: &'a [u8], line: u32) -> Tokens<'a>
    requires some { 0 < length bytes.now }
    requires few { line + length bytes.now < 2 ^ 32 }
    ensures { tokens_of result ≡ tokens_by (first_len bytes.now) line bytes.now }
{
    let len = first_len(bytes);
    Tokens { bytes, len, line }
}

// No tokens.
fn no_tokens<'a>(bytes: &'a [u8], line: u32) -> Tokens<'a>
    requires few { line + length bytes.now < 2 ^ 32 }
    ensures { tokens_of result ≡ [] }
{
    Tokens {
        bytes: after(bytes, bytes.len()),
        len: 0,
        line,
    }
}

/// Returns the tokens of the bytes, which begin on this line.
pub fn tokens_from<'a>(bytes: &'a [u8], line: u32) -> Tokens<'a>
    requires { line + length bytes.now < 2 ^ 32 }
    ensures { tokens_of result ≡ tokens_from line bytes.now }
{
    let mut at = 0usize;
    let mut now = line;
    'blanks: loop {
        if at == bytes.len() {
            return no_tokens(after(bytes, at), now);
        }
        let b = bytes[at];
        if !blank(b) {
            return tokens_by(after(bytes, at), now);
        }
        now = behind(b, now);
        at += 1;
    }
}
