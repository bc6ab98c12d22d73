//! Calls, as the lines of a text: `NAME INDICES VALUES`.
ghost use Rattle.std.specs.Prelude.{◌≡◌, ◌<◌, ◌∷◌, [], ℕ, ℤ, List, All, IfOk, MatchOption, length};
ghost use Rattle.std.specs.Fmt.{signed_decimal};
ghost use Rattle.ln_base.specs.Lines.{words};
ghost use Rattle.ln_cmean.specs.Carrying.Calls.{IsCall, IsNoCall, IsWord, first, later, listed};

use ln_base::NoMemory;
use ln_base::numeral::integer;
use ln_base::scan::{after, between, ended, find, next_word, word};
use std::alloc::Global;

/// A call: the name of a function, its indices and its values.
#[derive(Drop)]
pub struct CallLine<'a> {
    pub name: &'a str,
    pub index: Vec<i64>,
    pub values: Vec<i64>,
}

/// Returns the first line of a text, without its line feed, and the text after the line feed.
pub fn next_line(text: &[u8]) -> (&[u8], &[u8])
    ensures line { result.0.now ≡ first text.now }
    ensures rest { result.1.now ≡ later text.now }
{
    let end = find(text, 0, b'\n');
    let line = between(text, 0, end);
    if end < text.len() {
        (line, after(text, end + 1))
    } else {
        (line, after(text, end))
    }
}

// Returns the integer of 64 bits that the word is.
fn number(word: &[u8]) -> Option<i64>
    ensures { MatchOption result ((z : ℤ) → IsWord z → word.now ≡ signed_decimal z → ⊥) (λ z. IsWord z × (word.now ≡ signed_decimal z)) }
{
    let z = integer(word)?;
    i64::try_from(z).ok()
}

// Returns the integers of a list with a comma between any two, in which there is at least one.
fn some_numbers(alloc: Global, list: &[u8]) -> Result<Option<Vec<i64>>, NoMemory>
    ensures { IfOk result (λ o. MatchOption o ((zs : List ℤ) → 0 < length zs → All IsWord zs → list.now ≡ listed zs → ⊥)
        (λ v. (list.now ≡ listed v.items) × All IsWord v.items)) }
{
    let mut found = Vec::new(alloc);
    let mut rest = list;
    'words: loop {
        let end = find(rest, 0, b',');
        let Some(z) = number(between(rest, 0, end)) else {
            return Ok(None);
        };
        found.push(z)?;
        if end == rest.len() {
            return Ok(Some(found));
        }
        rest = after(rest, end + 1);
    }
}

// Returns the integers of a list with a comma between any two; an empty word is the list without any.
fn numbers(alloc: Global, list: &[u8]) -> Result<Option<Vec<i64>>, NoMemory>
    ensures { IfOk result (λ o. MatchOption o ((zs : List ℤ) → All IsWord zs → list.now ≡ listed zs → ⊥)
        (λ v. (list.now ≡ listed v.items) × All IsWord v.items)) }
{
    if list.len() == 0 {
        return Ok(Some(Vec::new(alloc)));
    }
    some_numbers(alloc, list)
}

// Returns the three words of a line that has three.
fn three_words(line: &[u8]) -> Option<(&[u8], &[u8], &[u8])>
    ensures { MatchOption result ((a b c : List ℕ) → words line.now ≡ a ∷ (b ∷ (c ∷ [])) → ⊥)
        (λ x. words line.now ≡ x.0.now ∷ (x.1.now ∷ (x.2.now ∷ []))) }
{
    let (name, at) = word(line, 0);
    let (index, at) = next_word(line, at)?;
    let (values, at) = next_word(line, at)?;
    if ended(line, at) {
        Some((name, index, values))
    } else {
        None
    }
}

/// Returns the call that the line is, which has no line feed.
pub fn call_of(alloc: Global, line: &[u8]) -> Result<Option<CallLine<'_>>, NoMemory>
    ensures { IfOk result (λ o. MatchOption o (IsNoCall line.now) (λ a. IsCall line.now a.name.now a.index.items a.values.items)) }
{
    let Some((name, index, values)) = three_words(line) else {
        return Ok(None);
    };
    let Ok(name) = str::from_utf8(name) else {
        return Ok(None);
    };
    let Some(index) = numbers(alloc, index)? else {
        return Ok(None);
    };
    let Some(values) = numbers(alloc, values)? else {
        return Ok(None);
    };
    Ok(Some(CallLine {
        name,
        index,
        values,
    }))
}
