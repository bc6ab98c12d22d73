//! One line of a trace, from its words.
ghost use Rattle.std.specs.Prelude.{◌≡◌, ◌<◌, ◌≤◌, ◌^◌, ◌∷◌, [], ℕ, IfOk, IsTrue, MatchOption, decimal, ◌↔◌};
ghost use Rattle.ln_base.specs.Lines.{words, words_from};
ghost use Rattle.ln_base.specs.declared.sign.Sign.{Sign as AnySign};
ghost use Rattle.ln_trace.specs.declared.state.Kind.TheVariants as kind;
ghost use Rattle.ln_trace.specs.Reading.{HasArgs, IsRead, NoArgs, Refuses};
ghost use Rattle.ln_trace.specs.Text.{sign_word};

use crate::kinds::{after, kind};
use crate::line::TraceLine;
use crate::state::{Kind, State};
use ln_base::items::items_to_colon;
use ln_base::numeral::{field, signed_field};
use ln_base::scan::{ended, next_word, word};
use ln_base::{NoMemory, Sign};
use std::alloc::Global;

// Whether a record may have this number: they count from 1.
fn counts(n: u128) -> bool
    ensures { IsTrue result ↔ (1 ≤ n) }
{
    n >= 1
}

// The number of a record, which is the one word from the place on.
fn record_number(bytes: &[u8], at: usize) -> Option<u32>
    ensures { MatchOption result ((n : ℕ) → 1 ≤ n → n < 2 ^ 32 → words_from at bytes.now ≡ decimal n ∷ [] → ⊥)
        (λ n. (1 ≤ n) × (n < 2 ^ 32) × (words_from at bytes.now ≡ decimal n ∷ [])) }
{
    let Some((n, next)) = field(bytes, at, 4294967295) else {
        return None;
    };
    if !counts(n) {
        return None;
    }
    if ended(bytes, next) {
        Some(n as u32)
    } else {
        None
    }
}

fn refused(bytes: &[u8], at: usize) -> Option<TraceLine>
    ensures { MatchOption result (NoArgs kind.Refused (words_from at bytes.now))
        (λ l. HasArgs kind.Refused (words_from at bytes.now) l) }
{
    let Some(n) = record_number(bytes, at) else {
        return None;
    };
    Some(TraceLine::Refused(n))
}

fn row(bytes: &[u8], at: usize) -> Option<TraceLine>
    ensures { MatchOption result (NoArgs kind.Row (words_from at bytes.now)) (λ l. HasArgs kind.Row (words_from at bytes.now) l) }
{
    let Some(n) = record_number(bytes, at) else {
        return None;
    };
    Some(TraceLine::Row(n))
}

fn at_line(alloc: Global, bytes: &[u8], at: usize) -> Result<Option<TraceLine>, NoMemory>
    ensures { IfOk result (λ o. MatchOption o (NoArgs kind.At (words_from at bytes.now))
        (λ l. HasArgs kind.At (words_from at bytes.now) l)) }
{
    let Some((exps, next)) = items_to_colon(alloc, bytes, at)? else {
        return Ok(None);
    };
    let Some((value, end)) = signed_field(bytes, next) else {
        return Ok(None);
    };
    if !ended(bytes, end) {
        return Ok(None);
    }
    Ok(Some(TraceLine::At(exps, value)))
}

// The sign that the word is.
fn sign_of(w: &[u8]) -> Option<Sign>
    ensures { MatchOption result ((t : AnySign) → w.now ≡ sign_word t → ⊥) (λ t. w.now ≡ sign_word t) }
{
    if w == b"+".as_slice() {
        Some(Sign::Plus)
    } else if w == b"-".as_slice() {
        Some(Sign::Minus)
    } else if w == b"0".as_slice() {
        Some(Sign::Zero)
    } else {
        None
    }
}

fn sign(bytes: &[u8], at: usize) -> Option<TraceLine>
    ensures { MatchOption result (NoArgs kind.Sign (words_from at bytes.now)) (λ l. HasArgs kind.Sign (words_from at bytes.now) l) }
{
    let Some((w, next)) = next_word(bytes, at) else {
        return None;
    };
    let Some(t) = sign_of(w) else {
        return None;
    };
    if ended(bytes, next) {
        Some(TraceLine::Sign(t))
    } else {
        None
    }
}

fn of_kind(
    alloc: Global,
    kind: Kind,
    bytes: &[u8],
    at: usize,
) -> Result<Option<TraceLine>, NoMemory>
    ensures { IfOk result (λ o. MatchOption o (NoArgs kind (words_from at bytes.now)) (λ l. HasArgs kind (words_from at bytes.now) l)) }
{
    match kind {
        Kind::Refused => Ok(refused(bytes, at)),
        Kind::Row => Ok(row(bytes, at)),
        Kind::At => at_line(alloc, bytes, at),
        Kind::Sign => Ok(sign(bytes, at)),
    }
}

/// The line that the bytes are, without their line feed, where the lines so far end in this state, and the next state. It takes
/// memory for the exponents of this line alone.
pub fn line(
    alloc: Global,
    state: State,
    bytes: &[u8],
) -> Result<Option<(TraceLine, State)>, NoMemory>
    ensures { IfOk result (λ o. MatchOption o (Refuses state (words bytes.now)) (λ x. IsRead state (words bytes.now) x.0 x.1)) }
{
    let (w, at) = word(bytes, 0);
    let Some(k) = kind(state, w) else {
        return Ok(None);
    };
    let Some(l) = of_kind(alloc, k, bytes, at)? else {
        return Ok(None);
    };
    Ok(Some((l, after(k))))
}
