//! What tokens begin with.
ghost use Rattle.std.specs.Prelude.{◌≡◌, ◌==◌, ◌<◌, max, take, drop, length, Option, option_map};
ghost use Rattle.ln_csyn.specs.Seen.{tokens_of};
ghost use Rattle.ln_csyn.specs.Text.{tokens_from};
ghost use Rattle.ln_csyn.specs.Reading.{begins, eat, type_at, op_at, name_at, number_at, line_at};

use crate::scan::{after, front, tokens_from};
use crate::tokens::Tokens;
use crate::tree::{COp, CType};
use crate::word::{c_name, number, operation, type_word};

// The text of the first token.
fn text<'a>(tokens: Tokens<'a>) -> &'a [u8]
    ensures { result.now ≡ take tokens.entry.len tokens.entry.bytes.now }
{
    front(tokens.bytes, tokens.len)
}

// The tokens after the first one.
fn later<'a>(tokens: Tokens<'a>) -> Tokens<'a>
    requires { 0 < length tokens.bytes.now }
    ensures { tokens_of result ≡ tokens_from tokens.entry.line (drop (max 1 tokens.entry.len) tokens.entry.bytes.now) }
{
    tokens_from(after(tokens.bytes, tokens.len.max(1)), tokens.line)
}

/// Returns what is after a token with this text.
pub fn eat<'a>(tokens: Tokens<'a>, word: &[u8]) -> Option<Tokens<'a>>
    ensures { option_map tokens_of result ≡ eat word.now (tokens_of tokens.entry) }
{
    if is_end(tokens) {
        return None;
    }
    if text(tokens) == word {
        Some(later(tokens))
    } else {
        None
    }
}

/// Returns the type at the beginning, and what is after it.
pub fn type_at<'a>(tokens: Tokens<'a>) -> Option<(CType, Tokens<'a>)>
    ensures { option_map (λ y. (y.0, tokens_of y.1)) result ≡ type_at (tokens_of tokens.entry) }
{
    if is_end(tokens) {
        return None;
    }
    let kind = type_word(text(tokens))?;
    Some((kind, later(tokens)))
}

/// Returns the operation at the beginning, and what is after it.
pub fn op_at<'a>(tokens: Tokens<'a>) -> Option<(COp, Tokens<'a>)>
    ensures { option_map (λ y. (y.0, tokens_of y.1)) result ≡ op_at (tokens_of tokens.entry) }
{
    if is_end(tokens) {
        return None;
    }
    let op = operation(text(tokens))?;
    Some((op, later(tokens)))
}

/// Returns the NUMBER at the beginning, and what is after it.
pub fn number_at<'a>(tokens: Tokens<'a>) -> Option<(u64, Tokens<'a>)>
    ensures { option_map (λ y. (y.0, tokens_of y.1)) result ≡ number_at (tokens_of tokens.entry) }
{
    if is_end(tokens) {
        return None;
    }
    let n = number(text(tokens))?;
    Some((n, later(tokens)))
}

/// Returns the NAME at the beginning, and what is after it.
pub fn name_at<'a>(tokens: Tokens<'a>) -> Option<(&'a [u8], Tokens<'a>)>
    ensures { option_map (λ y. (y.0.now, tokens_of y.1)) result ≡ name_at (tokens_of tokens.entry) }
{
    if is_end(tokens) {
        return None;
    }
    let name = text(tokens);
    if c_name(name) {
        Some((name, later(tokens)))
    } else {
        None
    }
}

/// Returns the line of the first token.
pub fn line_at(tokens: Tokens<'_>) -> u32
    ensures { result ≡ line_at (tokens_of tokens.entry) }
{
    if is_end(tokens) { 0 } else { tokens.line }
}

/// Returns whether the first token has this text.
pub fn begins(tokens: Tokens<'_>, word: &[u8]) -> bool
    ensures { result ≡ begins word.now (tokens_of tokens.entry) }
{
    if is_end(tokens) {
        return false;
    }
    text(tokens) == word
}

/// Returns whether there is no token.
pub fn is_end(tokens: Tokens<'_>) -> bool
    ensures { result ≡ (length tokens.entry.bytes.now == 0) }
{
    tokens.bytes.len() == 0
}
