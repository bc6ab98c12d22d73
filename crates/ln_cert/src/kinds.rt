//! First words, by what the lines so far end in.
ghost use Rattle.std.specs.Prelude.{◌≡◌, ◌↔◌, IsTrue};
ghost use Rattle.ln_cert.specs.Text.{block_word, filter_word};
ghost use Rattle.ln_cert.specs.Reading.{after, block_kind, block_verbs, filter_verbs, found, kind_in};
ghost use Rattle.ln_cert.specs.declared.part.State.TheVariants.{Top, InFilter, InBlock};

use crate::part::{Kind, State, Verb};
use ln_base::lines::{either, only};
use ln_bound::Width;

/// The word of an operation in a filter, where all are 64 bits wide.
pub fn filter_word(verb: Verb) -> &'static [u8]
    ensures { result.now ≡ filter_word verb }
{
    match verb {
        Verb::Push => b"push",
        Verb::Input => b"input",
        Verb::Get => b"get",
        Verb::Set => b"set",
        Verb::Add(_) => b"add",
        Verb::Sub(_) => b"sub",
        Verb::Mul(_) => b"mul",
        Verb::Neg(_) => b"neg",
        Verb::Cut => b"cut",
    }
}

/// The word of an operation in a block.
pub fn block_word(verb: Verb) -> &'static [u8]
    ensures { result.now ≡ block_word verb }
{
    match verb {
        Verb::Push => b"push",
        Verb::Input => b"input",
        Verb::Get => b"get",
        Verb::Set => b"set",
        Verb::Add(Width::W64) => b"add64",
        Verb::Add(Width::W128) => b"add128",
        Verb::Sub(Width::W64) => b"sub64",
        Verb::Sub(Width::W128) => b"sub128",
        Verb::Mul(Width::W64) => b"mul64",
        Verb::Mul(Width::W128) => b"mul128",
        Verb::Neg(Width::W64) => b"neg64",
        Verb::Neg(Width::W128) => b"neg128",
        Verb::Cut => b"cut",
    }
}

fn found_in_filter(w: &[u8], verbs: &[Verb]) -> Option<Verb>
    ensures { result ≡ found filter_word w.now verbs.now }
{
    'verbs: for verb in verbs {
        if w == filter_word(*verb) {
            return Some(*verb);
        }
    }
    None
}

fn found_in_block(w: &[u8], verbs: &[Verb]) -> Option<Verb>
    ensures { result ≡ found block_word w.now verbs.now }
{
    'verbs: for verb in verbs {
        if w == block_word(*verb) {
            return Some(*verb);
        }
    }
    None
}

fn filter_verb(w: &[u8]) -> Option<Verb>
    ensures { result ≡ found filter_word w.now filter_verbs }
{
    let verbs = [
        Verb::Push,
        Verb::Input,
        Verb::Get,
        Verb::Set,
        Verb::Add(Width::W64),
        Verb::Sub(Width::W64),
        Verb::Mul(Width::W64),
        Verb::Neg(Width::W64),
        Verb::Cut,
    ];
    found_in_filter(w, &verbs)
}

fn block_verb(w: &[u8]) -> Option<Verb>
    ensures { result ≡ found block_word w.now block_verbs }
{
    let verbs = [
        Verb::Push,
        Verb::Input,
        Verb::Get,
        Verb::Set,
        Verb::Add(Width::W64),
        Verb::Add(Width::W128),
        Verb::Sub(Width::W64),
        Verb::Sub(Width::W128),
        Verb::Mul(Width::W64),
        Verb::Mul(Width::W128),
        Verb::Neg(Width::W64),
        Verb::Neg(Width::W128),
    ];
    found_in_block(w, &verbs)
}

fn block_kind(version: u8, verb: Verb) -> Kind
    ensures { result ≡ block_kind version verb }
{
    if version == 1 {
        Kind::BlockOp(verb)
    } else {
        Kind::RangeOp(verb)
    }
}

fn in_filter(version: u8, w: &[u8]) -> Option<Kind>
    ensures { result ≡ kind_in version InFilter w.now }
{
    if w == b"decide".as_slice() {
        return Some(Kind::Decide);
    }
    match filter_verb(w) {
        Some(verb) => Some(Kind::FilterOp(verb)),
        None => None,
    }
}

fn in_block(version: u8, w: &[u8]) -> Option<Kind>
    ensures { result ≡ kind_in version InBlock w.now }
{
    if w == b"end".as_slice() {
        return Some(Kind::End);
    }
    match block_verb(w) {
        Some(verb) => Some(block_kind(version, verb)),
        None => None,
    }
}

/// The kind of the line that begins with this word, where the lines so far end in this.
pub fn kind(version: u8, state: State, w: &[u8]) -> Option<Kind>
    ensures { result ≡ kind_in version state w.now }
{
    match state {
        State::Top => only(w, b"predicate", Kind::Predicate),
        State::Opened => either(w, b"nofilter", Kind::NoFilter, b"filter", Kind::Filter),
        State::InFilter => in_filter(version, w),
        State::Planned => only(w, b"block", Kind::Block),
        State::InBlock => in_block(version, w),
        State::Blocks => either(w, b"block", Kind::Block, b"order", Kind::Order),
        State::Orders => either(w, b"order", Kind::Order, b"done", Kind::Done),
    }
}

/// Returns what the lines end in after a line of this kind.
pub fn after(kind: Kind) -> State
    ensures { result ≡ after kind }
{
    match kind {
        Kind::Done => State::Top,
        Kind::Predicate => State::Opened,
        Kind::NoFilter | Kind::Decide => State::Planned,
        Kind::Filter | Kind::FilterOp(_) => State::InFilter,
        Kind::Block | Kind::BlockOp(_) | Kind::RangeOp(_) => State::InBlock,
        Kind::End => State::Blocks,
        Kind::Order => State::Orders,
    }
}

/// Whether the lines may end here.
pub fn is_end(state: State) -> bool
    ensures { IsTrue result ↔ (state ≡ Top) }
{
    match state {
        State::Top => true,
        State::Opened
        | State::InFilter
        | State::Planned
        | State::InBlock
        | State::Blocks
        | State::Orders => false,
    }
}
