//! The words after the first word of a line.
ghost use Rattle.std.specs.Prelude.{◌≡◌, ◌<◌, ◌≤◌, ◌^◌, ◌∷◌, [], ℕ, ℤ, IfSome, IfNone, decimal, unsigned_abs};
ghost use Rattle.ln_code.specs.declared.op.Triple.{Triple as AnyTriple};
ghost use Rattle.ln_base.specs.Lines.{words_from};
ghost use Rattle.ln_cert.specs.Text.{IsBound, IsRange, IsTriple, certificate, range_words, triple_words};

use crate::operation::takes_off;
use crate::part::Verb;
use ln_base::numeral::{field, signed_field};
use ln_base::scan::ended;
use ln_code::Triple;

// The one number from the place on.
fn one(bytes: &[u8], at: usize, most: u128) -> Option<u128>
    ensures some { IfSome result (λ n. (n ≤ most) × (words_from at bytes.now ≡ decimal n ∷ [])) }
    ensures none { IfNone result ((n : ℕ) → n ≤ most → words_from at bytes.now ≡ decimal n ∷ [] → ⊥) }
{
    let Some((n, next)) = field(bytes, at, most) else {
        return None;
    };
    if ended(bytes, next) { Some(n) } else { None }
}

// The triple from the place on.
fn triple_at(bytes: &[u8], at: usize) -> Option<Triple>
    ensures some { IfSome result (λ t. (t.k ≤ 255) × (t.h < 2 ^ 64) × (t.e < 2 ^ 64) × (words_from at bytes.now ≡ triple_words t)) }
    ensures none { IfNone result ((t : AnyTriple) → t.k ≤ 255 → t.h < 2 ^ 64 → t.e < 2 ^ 64 →
        words_from at bytes.now ≡ triple_words t → ⊥) }
{
    let Some((k, at_h)) = field(bytes, at, 255) else {
        return None;
    };
    let Some((h, at_e)) = field(bytes, at_h, 18446744073709551615) else {
        return None;
    };
    let Some(e) = one(bytes, at_e, 18446744073709551615) else {
        return None;
    };
    Some(Triple {
        k: k as u8,
        h: h as u64,
        e: e as u64,
    })
}

// The two ends from the place on.
fn ends_at(bytes: &[u8], at: usize) -> Option<(i128, i128)>
    ensures some { IfSome result (λ x. (unsigned_abs x.0 < 2 ^ 127) × (unsigned_abs x.1 < 2 ^ 127)
        × (words_from at bytes.now ≡ range_words x.0 x.1)) }
    ensures none { IfNone result ((l u : ℤ) → unsigned_abs l < 2 ^ 127 → unsigned_abs u < 2 ^ 127 →
        words_from at bytes.now ≡ range_words l u → ⊥) }
{
    let Some((low, at_high)) = signed_field(bytes, at) else {
        return None;
    };
    let Some((high, at_end)) = signed_field(bytes, at_high) else {
        return None;
    };
    if ended(bytes, at_end) {
        Some((low, high))
    } else {
        None
    }
}

/// The triple of an operation of a filter: it is the words from the place on, or nothing where the operation takes a value off.
pub fn triple(verb: Verb, bytes: &[u8], at: usize) -> Option<Triple>
    ensures some { IfSome result (λ t. IsTriple verb t × (words_from at bytes.now ≡ certificate verb (triple_words t))) }
    ensures none { IfNone result ((t : AnyTriple) → IsTriple verb t → words_from at bytes.now ≡ certificate verb (triple_words t) → ⊥) }
{
    if !takes_off(verb) {
        return triple_at(bytes, at);
    }
    if ended(bytes, at) {
        Some(Triple { k: 0, h: 0, e: 0 })
    } else {
        None
    }
}

/// The bound of an operation of version 1.
pub fn bound(verb: Verb, bytes: &[u8], at: usize) -> Option<u128>
    ensures some { IfSome result (λ b. IsBound verb b × (words_from at bytes.now ≡ certificate verb (decimal b ∷ []))) }
    ensures none { IfNone result ((b : ℕ) → IsBound verb b → words_from at bytes.now ≡ certificate verb (decimal b ∷ []) → ⊥) }
{
    if !takes_off(verb) {
        return one(bytes, at, 340282366920938463463374607431768211455);
    }
    if ended(bytes, at) { Some(0) } else { None }
}

/// The two ends of an operation of version 2.
pub fn ends(verb: Verb, bytes: &[u8], at: usize) -> Option<(i128, i128)>
    ensures some { IfSome result (λ x. IsRange verb x.0 x.1 × (words_from at bytes.now ≡ certificate verb (range_words x.0 x.1))) }
    ensures none { IfNone result ((l u : ℤ) → IsRange verb l u → words_from at bytes.now ≡ certificate verb (range_words l u) → ⊥) }
{
    if takes_off(verb) {
        if ended(bytes, at) { Some((0, 0)) } else { None }
    } else {
        ends_at(bytes, at)
    }
}
