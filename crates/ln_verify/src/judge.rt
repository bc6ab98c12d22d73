//! The judge: a line at its place, and the loop over the lines.
ghost use Rattle.std.specs.Prelude.{◌≡◌, ◌↔◌, ◌<◌, All, IfOk, IsTrue, List, OnSome, length, slice_get};
ghost use Rattle.std.specs.Option.{option_copied};
ghost use Rattle.ln_verify.specs.Line.{Place};
ghost use Rattle.ln_cert.specs.declared.part.Entry.{Entry as AnyEntry};
ghost use Rattle.ln_verify.specs.Here.{Finished, HaveForm, IsAnswer, IsCase, IsHere, Leads, MayStand, PlaceStep, state_of, subject_of, subjects_of};
ghost use Rattle.ln_verify.specs.Versions.{version_of};
ghost use Rattle.ln_tree.specs.Names.{name_bytes};
ghost use Rattle.ln_cert.specs.Listing.{parts_of};

use crate::case::Case;
use crate::kinds::{block, block_op, decide, end, filter, filter_op, no_filter, order, range_op};
use crate::progress::Progress;
use crate::ranged::Ends;
use crate::stacks::empty;
use crate::version::Version;
use ln_base::lines::Source;
use ln_base::{NoMemory, Seq};
use ln_cert::{Entry, Part};
use std::alloc::Global;

// A line within the part of a predicate, but for the last.
fn within(
    alloc: Global,
    case: &Case<'_>,
    version: Version,
    state: &mut Progress,
    line: &Part,
) -> Result<bool, NoMemory>
    requires { IsCase case.now }
    ensures { IfOk result (λ ok. Leads (version_of version) (subject_of case.now) state.old line.now ok state.new) }
{
    match line {
        Part::Predicate(_name) => Ok(false),
        Part::NoFilter => Ok(no_filter(alloc, state)),
        Part::Filter => filter(alloc, state),
        Part::FilterOp(op, a) => filter_op(alloc, case, version, state, *op, *a),
        Part::Decide => decide(alloc, case, state),
        Part::Block(k, a) => block(alloc, case, state, *k, a.as_slice()),
        Part::BlockOp(op, b) => block_op(alloc, case, version, state, *op, *b),
        Part::RangeOp(op, low, high) => {
            let ends = Ends {
                low: *low,
                high: *high,
            };
            range_op(alloc, case, version, state, *op, ends)
        }
        Part::End => end(alloc, case, state),
        Part::Order(places, list) => {
            order(alloc, case, state, places.as_slice(), list.as_slice())
        }
        Part::Done => Ok(false),
    }
}

fn is_name(case: &Case<'_>, name: &[u8]) -> bool
    ensures { IsTrue result ↔ (name_bytes case.now.shape.now.name ≡ name.now) }
{
    case.shape.name.bytes() == name
}

fn case_at<'a, 'b>(cases: &'a [Case<'b>], at: usize) -> Option<&'a Case<'b>>
    ensures value { option_copied result ≡ slice_get cases.now at }
    ensures within { OnSome result (at < length cases.now) }
{
    cases.get(at)
}

// `done`.
fn done(case: &Case<'_>, state: &mut Progress) -> bool
    requires room { state.old.parts < 18446744073709551615 }
    requires case { IsCase case.now }
    ensures { Finished (subject_of case.now) state.old result state.new }
{
    if state.lists != case.orders.len() {
        return false;
    }
    state.parts += 1;
    true
}

// A line at its place.
fn line(
    alloc: Global,
    cases: &[Case<'_>],
    version: Version,
    state: &mut Progress,
    line: &Part,
) -> Result<bool, NoMemory>
    requires { All IsCase cases.now }
    ensures { IfOk result (λ ok. (here : Place) → MayStand (version_of version) (state_of here) line.now × IsHere (subjects_of cases.now) state.old here →
        PlaceStep (version_of version) (subjects_of cases.now) here line.now ok state.new) }
{
    let Some(case) = case_at(cases, state.parts) else {
        return Ok(false);
    };
    match line {
        Part::Predicate(name) => Ok(is_name(case, name.as_slice())),
        Part::Done => Ok(done(case, state)),
        _ => within(alloc, case, version, state, line),
    }
}

fn fresh_progress(alloc: Global) -> Result<Progress, NoMemory>
    ensures { IfOk result (λ d. d.parts ≡ 0) }
{
    let block_stack = empty(alloc)?;
    let filter_stack = empty(alloc)?;
    Ok(Progress {
        parts: 0,
        exps: Seq::new(alloc),
        block_stack,
        filter_stack,
        lists: 0,
    })
}

// Does each predicate have its part?
fn is_over(cases: &[Case<'_>], state: &Progress) -> bool
    ensures { IsTrue result ↔ (state.now.parts ≡ length cases.now) }
{
    state.parts == cases.len()
}

// The first of the lines that are left that fails, or none fails, where the reader is before the first part.
fn over<S: Source<Entry>>(
    alloc: Global,
    cases: &[Case<'_>],
    version: Version,
    source: &mut S,
    state: &mut Progress,
) -> Result<Option<u32>, NoMemory>
    requires cases { All IsCase cases.now }
    requires second { S.next source.old ≡ 2 }
    requires form { (es : List AnyEntry) → S.left source.old es → HaveForm (version_of version) (parts_of es) }
    requires none { state.old.parts ≡ 0 }
    ensures { IfOk result (λ o. (es : List AnyEntry) → S.left source.old es →
        IsAnswer (version_of version) (subjects_of cases.now) (parts_of es) o) }
{
    'lines: while let Some(taken) = source.take(alloc)? {
        let good = line(alloc, cases, version, state, &S::lent(&taken).part);
        drop(taken);
        if !good? {
            return Ok(Some(source.number() - 1));
        }
    }
    if is_over(cases, state) {
        return Ok(None);
    }
    Ok(Some(source.number()))
}

/// The first line that fails, or none fails, of the lines of a listing after the first one. Each is judged as it is taken.
/// They are of the form of listings, which says where each may stand; so the judge tests what a line says alone.
pub fn judge<S: Source<Entry>>(
    alloc: Global,
    cases: &[Case<'_>],
    version: Version,
    source: &mut S,
) -> Result<Option<u32>, NoMemory>
    requires cases { All IsCase cases.now }
    requires second { S.next source.old ≡ 2 }
    requires form { (es : List AnyEntry) → S.left source.old es → HaveForm (version_of version) (parts_of es) }
    ensures { IfOk result (λ o. (es : List AnyEntry) → S.left source.old es →
        IsAnswer (version_of version) (subjects_of cases.now) (parts_of es) o) }
{
    let mut state = fresh_progress(alloc)?;
    over(alloc, cases, version, source, &mut state)
}
