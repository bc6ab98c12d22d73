//! Appending lines to a text.
ghost use Rattle.std.specs.Prelude.{◌≡◌, ◌∷◌, ◌++◌, [], IfOk, decimal, map};
ghost use Rattle.ln_cert.specs.declared.part.Part.TheVariants as part;
ghost use Rattle.ln_cert.specs.Text.{certificate, number_words, range_words, triple_words};
ghost use Rattle.ln_cert.specs.Writing.{Puts, PutsLine};

use crate::kinds::{block_word, filter_word};
use crate::operation::{takes_off, verb_of};
use crate::part::Verb;
use ln_base::NoMemory;
use ln_base::put::{put, put_exponents, put_number, put_signed, put_word};
use ln_code::{Op, Triple};

/// Appends places.
pub fn put_places(out: &mut Vec<u8>, places: &[u8]) -> Result<(), NoMemory>
    ensures { IfOk result (λ x. Puts out.old.items out.new.items (λ r. map decimal places.now ++ r)) }
{
    'places: for place in places {
        put_number(out, u128::from(*place))?;
    }
    Ok(())
}

/// Appends numbers of blocks.
pub fn put_numbers(out: &mut Vec<u8>, list: &[u32]) -> Result<(), NoMemory>
    ensures { IfOk result (λ x. Puts out.old.items out.new.items (λ r. map decimal list.now ++ r)) }
{
    'list: for n in list {
        put_number(out, u128::from(*n))?;
    }
    Ok(())
}

fn put_op_number(out: &mut Vec<u8>, op: Op) -> Result<(), NoMemory>
    ensures { IfOk result (λ x. Puts out.old.items out.new.items (λ r. number_words op ++ r)) }
{
    match op {
        Op::Push(c) => put_signed(out, c),
        Op::Input(n) | Op::Get(n) | Op::Set(n) | Op::Cut(n) => put_number(out, u128::from(n)),
        Op::Add(_) | Op::Sub(_) | Op::Mul(_) | Op::Neg(_) => Ok(()),
    }
}

fn put_triple(out: &mut Vec<u8>, t: Triple) -> Result<(), NoMemory>
    ensures { IfOk result (λ x. Puts out.old.items out.new.items (λ r. triple_words t ++ r)) }
{
    put_number(out, u128::from(t.k))?;
    put_number(out, u128::from(t.h))?;
    put_number(out, u128::from(t.e))
}

fn put_ends(out: &mut Vec<u8>, low: i128, high: i128) -> Result<(), NoMemory>
    ensures { IfOk result (λ x. Puts out.old.items out.new.items (λ r. range_words low high ++ r)) }
{
    put_signed(out, low)?;
    put_signed(out, high)?;
    Ok(())
}

fn put_certificate_triple(out: &mut Vec<u8>, verb: Verb, t: Triple) -> Result<(), NoMemory>
    ensures { IfOk result (λ x. Puts out.old.items out.new.items (λ r. certificate verb (triple_words t) ++ r)) }
{
    if takes_off(verb) {
        Ok(())
    } else {
        put_triple(out, t)
    }
}

fn put_certificate_ends(
    out: &mut Vec<u8>,
    verb: Verb,
    low: i128,
    high: i128,
) -> Result<(), NoMemory>
    ensures { IfOk result (λ x. Puts out.old.items out.new.items (λ r. certificate verb (range_words low high) ++ r)) }
{
    if takes_off(verb) {
        Ok(())
    } else {
        put_ends(out, low, high)
    }
}

/// Appends `predicate NAME`.
pub fn put_predicate(out: &mut Vec<u8>, name: &[u8]) -> Result<(), NoMemory>
    ensures { IfOk result (λ x. PutsLine out.old.items out.new.items (part.Predicate name.now)) }
{
    put(out, b"predicate".as_slice())?;
    put_word(out, name)?;
    out.push(b'\n')?;
    Ok(())
}

/// Appends a line of one word.
pub fn put_bare(out: &mut Vec<u8>, word: &[u8]) -> Result<(), NoMemory>
    ensures { IfOk result (λ x. out.new.items ≡ out.old.items ++ (word.now ++ 10 ∷ [])) }
{
    put(out, word)?;
    out.push(b'\n')?;
    Ok(())
}

/// Appends an operation of a filter.
pub fn put_filter_op(out: &mut Vec<u8>, op: Op, t: Triple) -> Result<(), NoMemory>
    ensures { IfOk result (λ x. PutsLine out.old.items out.new.items (part.FilterOp op t)) }
{
    let verb = verb_of(op);
    put(out, filter_word(verb))?;
    put_op_number(out, op)?;
    put_certificate_triple(out, verb, t)?;
    out.push(b'\n')?;
    Ok(())
}

/// Appends an operation of a block of version 2.
pub fn put_range_op(out: &mut Vec<u8>, op: Op, low: i128, high: i128) -> Result<(), NoMemory>
    ensures { IfOk result (λ x. PutsLine out.old.items out.new.items (part.RangeOp op low high)) }
{
    let verb = verb_of(op);
    put(out, block_word(verb))?;
    put_op_number(out, op)?;
    put_certificate_ends(out, verb, low, high)?;
    out.push(b'\n')?;
    Ok(())
}

/// Appends `block N` with exponents.
pub fn put_block(out: &mut Vec<u8>, n: u32, exps: &[(u8, u8)]) -> Result<(), NoMemory>
    ensures { IfOk result (λ x. PutsLine out.old.items out.new.items (part.Block n exps.now)) }
{
    put(out, b"block".as_slice())?;
    put_number(out, u128::from(n))?;
    put_exponents(out, exps)?;
    out.push(b'\n')?;
    Ok(())
}
