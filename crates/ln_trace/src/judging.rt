//! The judge: a line at its place, and the loop over the lines.
ghost use Rattle.std.specs.Prelude.{◌≡◌, ◌↔◌, [], ℕ, List, None, Ok, false, length, IfOk, IsTrue};
ghost use Rattle.ln_algebra.specs.Tree.{Tree};
ghost use Rattle.ln_trace.specs.declared.judged.Judged.{Judged as AnyJudged};
ghost use Rattle.ln_trace.specs.declared.judged.Judged.TheVariants.{Agreed};
ghost use Rattle.ln_trace.specs.declared.line.TraceLine.{TraceLine as AnyLine};
ghost use Rattle.ln_trace.specs.Here.{HasPoly, Holds, IsCase, Step, subject_of};
ghost use Rattle.ln_trace.specs.Judge.{IsAnswer};
ghost use Rattle.ln_trace.specs.Judged.{IsJudged, fault_of};
ghost use Rattle.ln_trace.specs.Signs.{AreRight, signs_in};
ghost use Rattle.ln_trace.specs.Unread.{AreLeft};

use crate::grounds::Grounds;
use crate::judged::Judged;
use crate::line::TraceLine;
use crate::lines::TraceLines;
use crate::progress::{Next, Progress, fresh_progress, is, taken};
use crate::rules::{at, refused, row, sign};
use crate::trace::Trace;
use ln_base::NoMemory;
use ln_base::lines::{Held, Source};
use ln_poly::{Binomials, Poly};
use ln_rows::Rows;
use ln_stage::Stages;
use ln_tree::Pred;
use std::alloc::Global;

// A line at its place.
fn line(
    alloc: Global,
    grounds: &Grounds,
    rows: &mut Rows<'_>,
    state: &mut Progress,
    line: &TraceLine,
) -> Result<bool, NoMemory>
    requires case { IsCase grounds.now.pred.now.shape grounds.now.poly.now grounds.now.stages.now }
    requires holds { Holds grounds.now.pred.now.shape grounds.now.stages.now state.old }
    ensures { IfOk result (λ ok. Step grounds.now.pred.now.shape grounds.now.poly.now grounds.now.stages.now rows.old state.old line.now ok rows.new
        state.new) }
{
    match line {
        TraceLine::Refused(n) => refused(grounds.pred, rows, state, *n),
        TraceLine::Row(n) => row(grounds.pred, rows, state, *n),
        TraceLine::At(a, z) => at(alloc, grounds, state, a.as_slice(), *z),
        TraceLine::Sign(t) => Ok(sign(grounds, state, *t)),
    }
}

// Is no row open, and does no record remain?
fn is_over(p: &Pred, rows: &mut Rows<'_>, state: &mut Progress) -> Result<bool, NoMemory>
    ensures over { IfOk result (λ ok. IsTrue ok ↔ ((state.old.inside ≡ false) × (rows.old ≡ []))) }
    ensures seen { state.new.seen ≡ state.old.seen }
{
    if state.inside {
        return Ok(false);
    }
    let next = taken(p, rows, &mut state.row)?;
    Ok(is(next, Next::Nothing))
}

// Returns what the lines that are left are judged, where none has stood.
fn over<S: Source<TraceLine>>(
    alloc: Global,
    grounds: &Grounds,
    rows: &mut Rows<'_>,
    source: &mut S,
    state: &mut Progress,
) -> Result<Judged, NoMemory>
    requires case { IsCase grounds.now.pred.now.shape grounds.now.poly.now grounds.now.stages.now }
    requires second { S.next source.old ≡ 2 }
    requires inside { state.old.inside ≡ false }
    requires none { state.old.seen ≡ 0 }
    ensures { IfOk result (λ j. (e : Tree) (ls : List AnyLine) → HasPoly grounds.now.pred.now.shape e grounds.now.poly.now → S.left source.old ls →
        IsJudged (subject_of grounds.now.pred.now.shape e) rows.old ls j) }
{
    'lines: while let Some(taken) = source.take(alloc)? {
        let good = line(alloc, grounds, rows, state, S::lent(&taken));
        drop(taken);
        if !good? {
            return Ok(Judged::Wrong(source.number() - 1));
        }
    }
    if !is_over(grounds.pred, rows, state)? {
        return Ok(Judged::Wrong(source.number()));
    }
    Ok(Judged::Agreed(state.seen))
}

// Returns what the lines are judged by the polynomial of a predicate and the stages of that.
fn judged<S: Source<TraceLine>>(
    alloc: Global,
    p: &Pred,
    f: &Poly,
    st: &Stages,
    rows: &mut Rows<'_>,
    source: &mut S,
) -> Result<Judged, NoMemory>
    requires case { IsCase p.now.shape f.now st.now }
    requires second { S.next source.old ≡ 2 }
    ensures { IfOk result (λ j. (e : Tree) (ls : List AnyLine) → HasPoly p.now.shape e f.now → S.left source.old ls →
        IsJudged (subject_of p.now.shape e) rows.old ls j) }
{
    let b = Binomials::new(alloc)?;
    let grounds = Grounds {
        pred: p,
        poly: f,
        stages: st,
        binomials: &b,
    };
    let mut state = fresh_progress();
    over(alloc, &grounds, rows, source, &mut state)
}

/// Judges the remaining lines of a trace by the polynomial of a predicate and the stages of that, over the remaining records: returns that they are
/// agreed, or the first line whose rule fails. Each line is judged as it is read, and none is kept. An agreed trace has the perturbed sign of each
/// record that is a row. After `NoMemory` lines and records may be lost.
pub fn judge_lines(
    alloc: Global,
    p: &Pred,
    f: &Poly,
    st: &Stages,
    rows: &mut Rows<'_>,
    lines: &mut TraceLines<'_>,
) -> Result<Judged, NoMemory>
    requires case { IsCase p.now.shape f.now st.now }
    requires second { lines.old.line ≡ 2 }
    ensures answer { IfOk result (λ j. (e : Tree) (ls : List AnyLine) → HasPoly p.now.shape e f.now → AreLeft lines.old ls →
        IsAnswer (subject_of p.now.shape e) rows.old ls (fault_of j)) }
    ensures count { IfOk result (λ j. (e : Tree) (ls : List AnyLine) (n : ℕ) → HasPoly p.now.shape e f.now → AreLeft lines.old ls →
        j ≡ Agreed n → n ≡ length rows.old) }
    ensures signs { IfOk result (λ j. (e : Tree) (ls : List AnyLine) (n : ℕ) → HasPoly p.now.shape e f.now → AreLeft lines.old ls →
        j ≡ Agreed n → AreRight (subject_of p.now.shape e) rows.old (signs_in ls)) }
{
    judged(alloc, p, f, st, rows, lines)
}

// The first line that fails, if there is one.
fn fault_of(found: Result<Judged, NoMemory>) -> Result<Option<u32>, NoMemory>
    ensures { IfOk result (λ o. (j : AnyJudged) × (found ≡ Ok j) × (o ≡ fault_of j)) }
{
    match found? {
        Judged::Agreed(_n) => Ok(None),
        Judged::Wrong(n) => Ok(Some(n)),
    }
}

/// The first line of a trace, from 1, whose rule fails by the polynomial of a predicate and the stages of that, over the remaining records; or
/// none, where the trace is agreed. An agreed trace has the perturbed sign of each record that is a row. After
/// `NoMemory` records may be lost.
pub fn judge(
    alloc: Global,
    p: &Pred,
    f: &Poly,
    st: &Stages,
    rows: &mut Rows<'_>,
    t: &Trace,
) -> Result<Option<u32>, NoMemory>
    requires { IsCase p.now.shape f.now st.now }
    ensures answer { IfOk result (λ o. (e : Tree) → HasPoly p.now.shape e f.now → IsAnswer (subject_of p.now.shape e) rows.old t.now o) }
    ensures signs { IfOk result (λ o. (e : Tree) → HasPoly p.now.shape e f.now → o ≡ None →
        AreRight (subject_of p.now.shape e) rows.old (signs_in t.now)) }
{
    let mut lines = Held::of(t.lines());
    fault_of(judged(alloc, p, f, st, rows, &mut lines))
}
