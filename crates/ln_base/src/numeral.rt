//! Numbers that words are: decimal without a leading zero, `-` only before a number that isn't 0.
ghost use Rattle.std.specs.Prelude.{◌≡◌, ◌<◌, ◌≤◌, ◌+◌, ◌*◌, ◌^◌, ◌∷◌, ◌++◌, ℕ, ℤ, List, length};
ghost use Rattle.std.specs.Prelude.{IfSome, IfNone, decimal, unsigned_abs};
ghost use Rattle.std.specs.Fmt.{signed_decimal};
ghost use Rattle.std.specs.Str.Parse.{AllDigits, digits_value_after};
ghost use Rattle.ln_base.specs.Lines.{span_to, words_from};
ghost use Rattle.ln_base.specs.Exponents.{IsExponent, exponent_word};

use crate::limits::MOST_LITERAL;
use crate::scan::{after, between, find, next_word};

fn more(n: u128, digit: u8, most: u128) -> Option<u128>
    requires { digit ≤ 9 }
    ensures some { IfSome result (λ m. (m ≤ most) × (m ≡ n * 10 + digit)) }
    ensures none { IfNone result (most < n * 10 + digit) }
{
    let tens = n.checked_mul(10)?;
    let m = tens.checked_add(u128::from(digit))?;
    if m <= most { Some(m) } else { None }
}

fn digits(word: &[u8], most: u128) -> Option<u128>
    ensures some { IfSome result (λ n. (n ≤ most) × AllDigits 10 word.now × (n ≡ digits_value_after 10 0 word.now)) }
    ensures none { IfNone result (AllDigits 10 word.now → most < digits_value_after 10 0 word.now) }
{
    let mut n = 0u128;
    'digits: for (i, b) in word.iter().enumerate() {
        if *b < b'0' || b'9' < *b {
            return None;
        }
        let Some(next) = more(n, *b - b'0', most) else {
            return None;
        };
        n = next;
    }
    Some(n)
}

/// The number that the word is in decimal, at most `most`.
pub fn number(word: &[u8], most: u128) -> Option<u128>
    ensures some { IfSome result (λ n. (n ≤ most) × (word.now ≡ decimal n)) }
    ensures none { IfNone result ((n : ℕ) → n ≤ most → word.now ≡ decimal n → ⊥) }
{
    if word.len() == 0 {
        return None;
    }
    if word[0] == b'0' && word.len() > 1 {
        return None;
    }
    digits(word, most)
}

/// The signed number that the word is, within `2^127 - 1`.
pub fn integer(word: &[u8]) -> Option<i128>
    ensures some { IfSome result (λ z. (unsigned_abs z < 2 ^ 127) × (word.now ≡ signed_decimal z)) }
    ensures none { IfNone result ((z : ℤ) → unsigned_abs z < 2 ^ 127 → word.now ≡ signed_decimal z → ⊥) }
{
    if word.len() > 0 && word[0] == b'-' {
        let Some(n) = number(after(word, 1), MOST_LITERAL) else {
            return None;
        };
        if n == 0 { None } else { Some(-(n as i128)) }
    } else {
        let Some(n) = number(word, MOST_LITERAL) else {
            return None;
        };
        Some(n as i128)
    }
}

// What is before the first `^`, and what is after it.
fn halves(word: &[u8]) -> Option<(&[u8], &[u8])>
    ensures some { IfSome result (λ x. (word.now ≡ x.0.now ++ 94 ∷ x.1.now) × (span_to 94 x.0.now ≡ length x.0.now)) }
    ensures none { IfNone result (span_to 94 word.now ≡ length word.now) }
{
    let hat = find(word, 0, b'^');
    if hat == word.len() {
        return None;
    }
    Some((between(word, 0, hat), after(word, hat + 1)))
}

/// The variable and the exponent that the word is.
pub fn exponent(word: &[u8]) -> Option<(u8, u8)>
    ensures some { IfSome result (λ p. IsExponent p × (word.now ≡ exponent_word p)) }
    ensures none { IfNone result ((p : ℕ × ℕ) → IsExponent p → word.now ≡ exponent_word p → ⊥) }
{
    let Some((left, right)) = halves(word) else {
        return None;
    };
    let Some(v) = number(left, 167) else {
        return None;
    };
    let Some(e) = number(right, 127) else {
        return None;
    };
    if e == 0 {
        return None;
    }
    Some((v as u8, e as u8))
}

/// The number at a place, and the place of the next word.
pub fn field(bytes: &[u8], at: usize, most: u128) -> Option<(u128, usize)>
    ensures some { IfSome result (λ x. (x.0 ≤ most) × (words_from at bytes.now ≡ decimal x.0 ∷ words_from x.1 bytes.now)) }
    ensures none { IfNone result ((n : ℕ) (ws : List (List ℕ)) → n ≤ most → words_from at bytes.now ≡ decimal n ∷ ws → ⊥) }
{
    let Some((w, next)) = next_word(bytes, at) else {
        return None;
    };
    let Some(n) = number(w, most) else {
        return None;
    };
    Some((n, next))
}

/// The signed number at a place, and the place of the next word.
pub fn signed_field(bytes: &[u8], at: usize) -> Option<(i128, usize)>
    ensures some { IfSome result (λ x. (unsigned_abs x.0 < 2 ^ 127)
        × (words_from at bytes.now ≡ signed_decimal x.0 ∷ words_from x.1 bytes.now)) }
    ensures none { IfNone result ((z : ℤ) (ws : List (List ℕ)) → unsigned_abs z < 2 ^ 127 →
        words_from at bytes.now ≡ signed_decimal z ∷ ws → ⊥) }
{
    let Some((w, next)) = next_word(bytes, at) else {
        return None;
    };
    let Some(z) = integer(w) else {
        return None;
    };
    Some((z, next))
}
