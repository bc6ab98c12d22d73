//! The C of a source in each style: its programs with their filters or without, each for every row, or for rows whose indices rise where that is enough.
ghost use Rattle.std.specs.Prelude.{◌≡◌, ◌≢◌, ◌<◌, ◌+◌, IfOk, length, map};
ghost use Rattle.ln_tree.specs.Table.{pred_of};
ghost use Rattle.ln_compile.specs.Accepted.{AreSound};
ghost use Rattle.ln_top.specs.OneOrder.{reduced};
ghost use Rattle.ln_top.specs.Texts.Written.{BeginsC, IsCOf, IsWrittenPart, OfNumber, promise_of};

use crate::unfiltered::entry_of;
use ln_base::NoMemory;
use ln_cemit::{Entry, begin_file, put_program_as};
use ln_code::Program;
use ln_compile::Checked;
use std::alloc::Global;

/// What is written of each program: the program with its filter, or without it for every row, or for rows whose indices rise where these decide
/// all others.
#[derive(Clone, Copy)]
pub enum Style {
    Filtered,
    EveryRow,
    OneOrder,
}

// The entry of predicate number i: which rows its function is for.
fn entry_in(source: &Checked, i: usize, style: Style) -> Entry
    requires { i < length source.now.table.preds }
    ensures { OfNumber (map pred_of source.now.table.preds) i (λ p. (promise_of style).entry p result) }
{
    match style {
        Style::Filtered => Entry::EveryRow,
        Style::EveryRow => Entry::EveryRow,
        Style::OneOrder => entry_of(source, i),
    }
}

// The program without its filter, and of one order of its sites where its function is for rows whose indices rise.
fn reduced(alloc: Global, whole: Program, entry: Entry) -> Result<Program, NoMemory>
    ensures { IfOk result (λ c. c ≡ reduced entry whole) }
{
    match entry {
        Entry::EveryRow => Ok(whole.without_filter()),
        Entry::Alternating => whole.in_one_order(alloc),
        Entry::Symmetric => whole.in_one_order(alloc),
    }
}

// What is written of the program of predicate number i.
fn program_in(
    alloc: Global,
    source: &Checked,
    i: usize,
    style: Style,
    entry: Entry,
) -> Result<Program, NoMemory>
    requires { i < length source.now.table.preds }
    ensures { IfOk result (λ c. OfNumber (map pred_of source.now.table.preds) i (λ p. IsWrittenPart style p entry c)) }
{
    let whole = source.program(alloc, i)?;
    // The contract of `blocks` states that the program follows the rules.
    let _blocks = whole.blocks();
    match style {
        Style::Filtered => Ok(whole),
        Style::EveryRow => Ok(whole.without_filter()),
        Style::OneOrder => reduced(alloc, whole, entry),
    }
}

// Appends the functions of predicate number i, after those of the predicates before it. The program is made here, and dropped.
fn put_written(
    alloc: Global,
    text: &mut Vec<u8>,
    source: &Checked,
    i: usize,
    style: Style,
) -> Result<(), NoMemory>
    requires { i < length source.now.table.preds }
    ensures { IfOk result (λ x. BeginsC style (map pred_of source.now.table.preds) i text.old.items
        → BeginsC style (map pred_of source.now.table.preds) (i + 1) text.new.items) }
{
    let entry = entry_in(source, i, style);
    let program = program_in(alloc, source, i, style, entry)?;
    let done = put_program_as(alloc, text, &program, entry);
    drop(program);
    done
}

/// C for the predicates of a source, of whose programs no two are there at once.
pub fn written(alloc: Global, source: &Checked, style: Style) -> Result<Vec<u8>, NoMemory>
    requires { style ≢ Style.Filtered → AreSound (map pred_of source.now.table.preds) }
    ensures { IfOk result (λ v. IsCOf (promise_of style) (map pred_of source.now.table.preds) v.items) }
{
    let mut text = begin_file(alloc)?;
    'each: for i in 0..source.table().preds.as_slice().len() {
        put_written(alloc, &mut text, source, i, style)?;
    }
    Ok(text)
}
