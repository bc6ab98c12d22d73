//! Splits the bytes of a source into tokens, or returns the byte at which the first fault is.
ghost use Rattle.std.specs.Prelude.{◌≡◌, ℕ, ◌+◌, ◌<◌, ◌≤◌, ◌^◌, false, if◌then◌else◌, bytes_eq};
ghost use Rattle.std.specs.Prelude.{List, All, IfErr, IfNone, IfOk, IfSome, drop, length};
ghost use Rattle.ln_base.specs.Limits.{most_source, most_tokens};
ghost use Rattle.ln_lex.specs.Answers.{IsAnswered};
ghost use Rattle.ln_lex.specs.Tokens.{BeginsNone, IsFirst, IsLexFault, IsLexLimit, IsSlice, Lexed, RiseFrom};
ghost use Rattle.ln_lex.specs.Tokens.{Skips, StopsLexing, begins_blank, begins_comment, comment_len, word_kind};
ghost use Rattle.ln_lex.specs.declared.scan.LexStop.TheVariants.{NoMemory as OutOfMemory};
ghost use Rattle.ln_lex.specs.declared.token.Token.{Token as Tok};

use crate::byte::{Class, after, blank_at, run, sign, twice_at};
use crate::token::{Kind, Token};
use ln_base::limits::MOST_TOKENS;
use ln_base::word::{digit, letter};
use ln_base::{NoMemory, Seq, Span};
use std::alloc::Global;

/// Why a source has no list of tokens: at this byte begins neither blank, comment nor token; at this byte begins one
/// token too many; or out of memory.
#[derive(Clone, Copy)]
pub enum LexStop {
    Lexical(u32),
    Limit(u32),
    NoMemory(NoMemory),
}

impl From<NoMemory> for LexStop {
    ghost use Rattle.ln_base.specs.Outside.{refused};

    ghost from_gives = { λ _ e. e ≡ OutOfMemory refused };

    fn from(e: NoMemory) -> Self {
        LexStop::NoMemory(e)
    }
}

/// The tokens of a source, in one pass. The first fault in order of the text decides.
pub fn tokens(alloc: Global, bytes: &[u8]) -> Result<Seq<Token>, LexStop>
    requires { length bytes.now ≤ most_source }
    ensures ok { IfOk result (λ ts. Lexed bytes.now ts) }
    ensures few { IfOk result (λ ts. length ts ≤ most_tokens) }
    ensures slices { IfOk result (λ ts. All (IsSlice bytes.now) ts) }
    ensures rising { IfOk result (λ ts. RiseFrom 0 ts) }
    ensures err { IfErr result (λ e. StopsLexing bytes.now e) }
{
    let mut tokens = Seq::new(alloc);
    let mut at = 0usize;
    'tokens: loop {
        let start = at + gap(after(bytes, at));
        if start == bytes.len() {
            return Ok(tokens);
        }
        let Some((kind, n)) = first(after(bytes, start)) else {
            return Err(LexStop::Lexical(start as u32));
        };
        if tokens.len() == MOST_TOKENS {
            return Err(LexStop::Limit(start as u32));
        }
        let span = Span {
            start: start as u32,
            end: (start + n) as u32,
        };
        tokens.push(Token { kind, span })?;
        at = start + n;
    }
}

// How many bytes at the beginning are blanks and comments.
fn gap(bytes: &[u8]) -> usize
    requires { length bytes.now < 2 ^ 32 }
    ensures within { result ≤ length bytes.now }
    ensures skips { Skips bytes.now result }
    ensures no_blank { begins_blank (drop result bytes.now) ≡ false }
    ensures no_comment { begins_comment (drop result bytes.now) ≡ false }
{
    let mut at = 0usize;
    'gaps: loop {
        let rest = after(bytes, at);
        if blank_at(rest) {
            at += 1;
        } else if twice_at(rest, b'/') {
            at += comment(rest);
        } else {
            return at;
        }
    }
}

// How many bytes the comment at the beginning has.
fn comment(bytes: &[u8]) -> usize
    requires small { length bytes.now < 2 ^ 32 }
    requires two { 2 ≤ length bytes.now }
    ensures len { result ≡ comment_len bytes.now }
    ensures within { result ≤ length bytes.now }
{
    2 + run(after(bytes, 2), Class::InComment)
}

// The token at the beginning and its length; none where no token begins there.
fn first(bytes: &[u8]) -> Option<(Kind, usize)>
    requires { length bytes.now < 2 ^ 32 }
    ensures some { IfSome result (λ x. IsFirst bytes.now x.1 x.0) }
    ensures none { IfNone result (BeginsNone bytes.now) }
{
    if bytes.is_empty() {
        return None;
    }
    let b = bytes[0];
    let rest = after(bytes, 1);
    if letter(b) {
        let n = 1 + run(rest, Class::InName);
        Some((word(&bytes[..n]), n))
    } else if digit(b) {
        Some((Kind::Number, 1 + run(rest, Class::Digits)))
    } else if twice_at(bytes, b'.') {
        Some((Kind::Dots, 2))
    } else {
        match sign(b) {
            Some(kind) => Some((kind, 1)),
            None => None,
        }
    }
}

// The kind of a keyword where the text is that keyword, or else the other.
fn or_keyword(text: &[u8], keyword: &[u8], kind: Kind, other: Kind) -> Kind
    ensures { result ≡ (if bytes_eq text.now keyword.now then kind else other) }
{
    if text == keyword { kind } else { other }
}

// What a word is: a keyword, or else a name.
fn word(text: &[u8]) -> Kind
    ensures { result ≡ word_kind text.now }
{
    let kind = or_keyword(text, b"sign", Kind::Sign, Kind::Name);
    let kind = or_keyword(text, b"let", Kind::Let, kind);
    let kind = or_keyword(text, b"predicate", Kind::Predicate, kind);
    let kind = or_keyword(text, b"param", Kind::Param, kind);
    or_keyword(text, b"site", Kind::Site, kind)
}

/// No bytes have two results. Two lists of tokens are one; two faults, or two places of a token too many, are at one
/// place; and of a list of at most 65,536 tokens, a fault and a token too many, no two hold together.
pub fn one_answer()
    ensures one_list { (bytes : List ℕ) (ts us : List Tok) → Lexed bytes ts → Lexed bytes us → ts ≡ us }
    ensures one_fault { (bytes : List ℕ) (i j : ℕ) → IsLexFault bytes i → IsLexFault bytes j → i ≡ j }
    ensures one_limit { (bytes : List ℕ) (i j : ℕ) → IsLexLimit bytes i → IsLexLimit bytes j → i ≡ j }
    ensures list_or_fault { (bytes : List ℕ) (ts : List Tok) (i : ℕ) → Lexed bytes ts → IsLexFault bytes i → ⊥ }
    ensures list_or_limit { (bytes : List ℕ) (ts : List Tok) (i : ℕ) → Lexed bytes ts → length ts ≤ most_tokens → IsLexLimit bytes i → ⊥ }
    ensures fault_or_limit { (bytes : List ℕ) (i j : ℕ) → IsLexFault bytes i → IsLexLimit bytes j → ⊥ }
{}

/// A law: all bytes are tokens, or have a byte that begins none, or a token too many.
///
/// On it rests that every source has a table or a first fault.
pub fn all_are_answered()
    ensures { (bytes : List ℕ) → IsAnswered bytes }
{}
