//! Rows whose fields are plain numbers, right from the bytes: no quotes, at most 18 digits, no faults.
ghost use Rattle.std.specs.Prelude.{◌≡◌, ◌≤◌, ◌<◌, ◌+◌, ◌^◌, ◌∷◌, length, IfSome};
ghost use Rattle.ln_rows.specs.Left.{first_of};
ghost use Rattle.ln_rows.specs.Plain.{HasDigits, HasSigned, HasNumber, HasValue, IsPlainRow, PastEnd, PastFeed, signed_of};
ghost use Rattle.ln_rows.specs.Record.{columns};

use crate::numbers::within;
use ln_code::Row;
use ln_tree::VarInfo;
use ln_tree::layout::starts_site;

// A number of this many digits always fits.
const DIGITS: usize = 18;

// Returns what is after this byte, where it is the first.
fn behind(text: &[u8], c: u8) -> Option<&[u8]>
    ensures { IfSome result (λ rest. text.now ≡ c ∷ rest.now) }
{
    if !text.is_empty() && text[0] == c {
        Some(&text[1..])
    } else {
        None
    }
}

// The number of the digits that a text begins with, at most 18 of them, and what is after them.
fn digits(text: &[u8]) -> (u64, &[u8])
    ensures digits { HasDigits text.now result.0 result.1.now }
    ensures small { result.0 < 10 ^ 18 }
{
    let most = text.len().min(DIGITS);
    let mut n = 0u64;
    let mut at = 0usize;
    'digits: while at < most && text[at].is_ascii_digit() {
        n = n * 10 + u64::from(text[at] - b'0');
        at += 1;
    }
    (n, &text[at..])
}

fn signed(negative: bool, n: u64) -> i64
    requires { n < 10 ^ 18 }
    ensures { result ≡ signed_of negative n }
{
    if negative { -(n as i64) } else { n as i64 }
}

// The number from lo to hi whose digits a text begins with, and what is after them.
fn found(negative: bool, text: &[u8], lo: i64, hi: i64) -> Option<(i64, &[u8])>
    ensures { IfSome result (λ r. HasSigned negative text.now lo hi r.0 r.1.now) }
{
    let (n, rest) = digits(text);
    if rest.len() == text.len() {
        return None;
    }
    match within(signed(negative, n), lo, hi) {
        Ok(z) => Some((z, rest)),
        Err(_) => None,
    }
}

// The number from lo to hi that a text begins with, and what is after it.
fn number(text: &[u8], lo: i64, hi: i64) -> Option<(i64, &[u8])>
    ensures { IfSome result (λ r. HasNumber text.now lo hi r.0 r.1.now) }
{
    match behind(text, b'-') {
        Some(more) => found(true, more, lo, hi),
        None => found(false, text, lo, hi),
    }
}

// Returns what is after a line feed or a return, where that is the first byte.
fn line_end(text: &[u8]) -> Option<&[u8]>
    ensures { IfSome result (λ rest. PastFeed text.now rest.now) }
{
    match behind(text, b'\n') {
        Some(rest) => Some(rest),
        None => behind(text, b'\r'),
    }
}

/// Returns what is after the end of a record.
pub(crate) fn past_end(text: &[u8]) -> Option<&[u8]>
    ensures { IfSome result (λ rest. PastEnd text.now rest.now) }
{
    if text.is_empty() {
        return Some(text);
    }
    line_end(text)
}

// The number from lo to hi that a text begins with, and what is after it and a comma, or after it and the end of the record.
fn value(text: &[u8], lo: i64, hi: i64, last: bool) -> Option<(i64, &[u8])>
    ensures { IfSome result (λ r. HasValue text.now lo hi last r.0 r.1.now) }
{
    let (z, rest) = number(text, lo, hi)?;
    let past = if last {
        past_end(rest)
    } else {
        behind(rest, b',')
    };
    match past {
        Some(more) => Some((z, more)),
        None => None,
    }
}

// The same for the range of a variable.
fn value_of<'a>(text: &'a [u8], i: &VarInfo, last: bool) -> Option<(i64, &'a [u8])>
    ensures { IfSome result (λ r. HasValue text.now i.now.lo i.now.hi last r.0 r.1.now) }
{
    let lo = i.lo;
    let hi = i.hi;
    value(text, lo, hi, last)
}

/// Returns what is after the line ends that a text begins with.
pub(crate) fn past_ends(text: &[u8]) -> &[u8]
    ensures { first_of text.now ≡ first_of result.now }
{
    let mut rest = text;
    'ends: loop {
        match line_end(rest) {
            Some(more) => rest = more,
            None => return rest,
        }
    }
}

/// Returns the row of the first record of a text, where its fields are plain numbers in range, and the rest of the text after it.
pub(crate) fn plain_row<'a>(vars: &[VarInfo], text: &'a [u8], into: &mut Row) -> Option<&'a [u8]>
    requires few_vars { length vars.now ≤ 168 }
    requires few_sites { length (columns vars.now) ≤ length vars.now + 5 }
    ensures { IfSome result (λ rest. IsPlainRow vars.now text.now rest.now into.new) }
{
    if vars.is_empty() {
        return None;
    }
    let mut rest = text;
    let mut site = 0usize;
    'vars: for (v, i) in vars.iter().enumerate() {
        let last = v + 1 == vars.len();
        if starts_site(i) {
            let (z, behind) = value(rest, 0, i64::MAX, false)?;
            let (y, more) = value_of(behind, i, last)?;
            into.index[site] = z;
            into.values[v] = y;
            site += 1;
            rest = more;
        } else {
            let (y, more) = value_of(rest, i, last)?;
            into.values[v] = y;
            rest = more;
        }
    }
    Some(rest)
}
