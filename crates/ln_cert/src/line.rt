//! Reads one line of a listing, from the state in which the lines before it end.
ghost use Rattle.std.specs.Prelude.{◌≡◌, true, IfOk, MatchOption};
ghost use Rattle.ln_cert.specs.declared.part.Kind.TheVariants as kind;
ghost use Rattle.ln_base.specs.Lines.{words, words_from};
ghost use Rattle.ln_cert.specs.Text.{of_block, of_filter};
ghost use Rattle.ln_cert.specs.Reading.{HasArgs, IsRead, NoArgs, Refuses, good};

use crate::args::{bound, ends, triple};
use crate::kinds::{after, kind};
use crate::operation::operation;
use crate::part::{Kind, Part, State, Verb};
use ln_base::items::{items, items_to_colon};
use ln_base::numeral::field;
use ln_base::scan::{ended, next_word, word};
use ln_base::word::is_name;
use ln_base::{NoMemory, Seq};
use std::alloc::Global;

fn copied(alloc: Global, bytes: &[u8]) -> Result<Seq<u8>, NoMemory>
    ensures { IfOk result (λ v. v ≡ bytes.now) }
{
    let own = bytes.to_vec(alloc)?;
    Ok(Seq::from_vec(own))
}

fn predicate(alloc: Global, bytes: &[u8], at: usize) -> Result<Option<Part>, NoMemory>
    ensures { IfOk result (λ o. MatchOption o (NoArgs kind.Predicate (words_from at bytes.now))
        (λ p. HasArgs kind.Predicate (words_from at bytes.now) p)) }
{
    let Some((w, next)) = next_word(bytes, at) else {
        return Ok(None);
    };
    if !ended(bytes, next) || !is_name(w) {
        return Ok(None);
    }
    let name = copied(alloc, w)?;
    Ok(Some(Part::Predicate(name)))
}

fn filter_op(verb: Verb, bytes: &[u8], at: usize) -> Option<Part>
    requires { of_filter verb ≡ true }
    ensures { MatchOption result (NoArgs (kind.FilterOp verb) (words_from at bytes.now))
        (λ p. HasArgs (kind.FilterOp verb) (words_from at bytes.now) p) }
{
    let Some((op, next)) = operation(verb, bytes, at) else {
        return None;
    };
    let Some(t) = triple(verb, bytes, next) else {
        return None;
    };
    Some(Part::FilterOp(op, t))
}

fn bound_op(verb: Verb, bytes: &[u8], at: usize) -> Option<Part>
    requires { of_block verb ≡ true }
    ensures { MatchOption result (NoArgs (kind.BlockOp verb) (words_from at bytes.now))
        (λ p. HasArgs (kind.BlockOp verb) (words_from at bytes.now) p) }
{
    let Some((op, next)) = operation(verb, bytes, at) else {
        return None;
    };
    let Some(b) = bound(verb, bytes, next) else {
        return None;
    };
    Some(Part::BlockOp(op, b))
}

fn range_op(verb: Verb, bytes: &[u8], at: usize) -> Option<Part>
    requires { of_block verb ≡ true }
    ensures { MatchOption result (NoArgs (kind.RangeOp verb) (words_from at bytes.now))
        (λ p. HasArgs (kind.RangeOp verb) (words_from at bytes.now) p) }
{
    let Some((op, next)) = operation(verb, bytes, at) else {
        return None;
    };
    let Some((low, high)) = ends(verb, bytes, next) else {
        return None;
    };
    Some(Part::RangeOp(op, low, high))
}

fn block(alloc: Global, bytes: &[u8], at: usize) -> Result<Option<Part>, NoMemory>
    ensures { IfOk result (λ o. MatchOption o (NoArgs kind.Block (words_from at bytes.now))
        (λ p. HasArgs kind.Block (words_from at bytes.now) p)) }
{
    let Some((n, next)) = field(bytes, at, 65535) else {
        return Ok(None);
    };
    let Some(exps) = items(alloc, bytes, next)? else {
        return Ok(None);
    };
    Ok(Some(Part::Block(n as u32, exps)))
}

fn order(alloc: Global, bytes: &[u8], at: usize) -> Result<Option<Part>, NoMemory>
    ensures { IfOk result (λ o. MatchOption o (NoArgs kind.Order (words_from at bytes.now))
        (λ p. HasArgs kind.Order (words_from at bytes.now) p)) }
{
    let Some((sites, next)) = items_to_colon(alloc, bytes, at)? else {
        return Ok(None);
    };
    if ended(bytes, next) {
        return Ok(None);
    }
    let Some(list) = items(alloc, bytes, next)? else {
        return Ok(None);
    };
    Ok(Some(Part::Order(sites, list)))
}

fn no_filter(bytes: &[u8], at: usize) -> Option<Part>
    ensures { MatchOption result (NoArgs kind.NoFilter (words_from at bytes.now)) (λ p. HasArgs kind.NoFilter (words_from at bytes.now) p) }
{
    if ended(bytes, at) {
        Some(Part::NoFilter)
    } else {
        None
    }
}

fn filter(bytes: &[u8], at: usize) -> Option<Part>
    ensures { MatchOption result (NoArgs kind.Filter (words_from at bytes.now)) (λ p. HasArgs kind.Filter (words_from at bytes.now) p) }
{
    if ended(bytes, at) {
        Some(Part::Filter)
    } else {
        None
    }
}

fn decide(bytes: &[u8], at: usize) -> Option<Part>
    ensures { MatchOption result (NoArgs kind.Decide (words_from at bytes.now)) (λ p. HasArgs kind.Decide (words_from at bytes.now) p) }
{
    if ended(bytes, at) {
        Some(Part::Decide)
    } else {
        None
    }
}

fn end(bytes: &[u8], at: usize) -> Option<Part>
    ensures { MatchOption result (NoArgs kind.End (words_from at bytes.now)) (λ p. HasArgs kind.End (words_from at bytes.now) p) }
{
    if ended(bytes, at) {
        Some(Part::End)
    } else {
        None
    }
}

fn done(bytes: &[u8], at: usize) -> Option<Part>
    ensures { MatchOption result (NoArgs kind.Done (words_from at bytes.now)) (λ p. HasArgs kind.Done (words_from at bytes.now) p) }
{
    if ended(bytes, at) {
        Some(Part::Done)
    } else {
        None
    }
}

/// The line of a kind whose arguments are the words from the place on.
pub fn part(alloc: Global, kind: Kind, bytes: &[u8], at: usize) -> Result<Option<Part>, NoMemory>
    requires { good kind ≡ true }
    ensures { IfOk result (λ o. MatchOption o (NoArgs kind (words_from at bytes.now)) (λ p. HasArgs kind (words_from at bytes.now) p)) }
{
    match kind {
        Kind::Predicate => predicate(alloc, bytes, at),
        Kind::NoFilter => Ok(no_filter(bytes, at)),
        Kind::Filter => Ok(filter(bytes, at)),
        Kind::FilterOp(verb) => Ok(filter_op(verb, bytes, at)),
        Kind::Decide => Ok(decide(bytes, at)),
        Kind::Block => block(alloc, bytes, at),
        Kind::BlockOp(verb) => Ok(bound_op(verb, bytes, at)),
        Kind::RangeOp(verb) => Ok(range_op(verb, bytes, at)),
        Kind::End => Ok(end(bytes, at)),
        Kind::Order => order(alloc, bytes, at),
        Kind::Done => Ok(done(bytes, at)),
    }
}

/// The line that the bytes are where the lines so far end in this state, and the next state.
pub fn line(
    alloc: Global,
    version: u8,
    state: State,
    bytes: &[u8],
) -> Result<Option<(Part, State)>, NoMemory>
    ensures { IfOk result (λ o. MatchOption o (Refuses version state (words bytes.now))
        (λ x. IsRead version state (words bytes.now) x.0 x.1)) }
{
    let (w, at) = word(bytes, 0);
    let Some(k) = kind(version, state, w) else {
        return Ok(None);
    };
    let Some(p) = part(alloc, k, bytes, at)? else {
        return Ok(None);
    };
    Ok(Some((p, after(k))))
}
