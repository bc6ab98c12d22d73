//! The work of `audit`: a trace is judged by the predicate's polynomial and the records of the rows file.
ghost use Rattle.std.specs.Prelude.{◌≡◌, ◌≤◌, ◌∷◌, ◌++◌, ℕ, List, IfOk, length, codes, decimal};
ghost use Rattle.ln_base.specs.Limits.{most_file};
ghost use Rattle.ln_tree.specs.Table.{pred_of};
ghost use Rattle.ln_top.specs.Judges.Audit.{AreJudged, AuditSaid, HasTrace, IsAuditOf, PutsOrStops, audit_signature};
ghost use Rattle.ln_top.specs.Frame.Carried.{CarriesOut, NoPart};
ghost use Rattle.ln_top.specs.Frame.Ready.{IsReadyFor, StandsFor};
ghost use Rattle.ln_rows.specs.Header.{names_of};
ghost use Rattle.ln_top.specs.Frame.Said.{OnConsole};
ghost use Rattle.ln_top.specs.Frame.Given.{Given};

use crate::frame::put::numbered;
use crate::frame::ready::{Ready, named, two_texts};
use crate::frame::status::{Early, End};
use crate::frame::stop::{Stop, Why, put_text, say};
use ln_base::{Console, NoMemory};
use ln_rows::Rows;
use ln_stage::Accepted;
use ln_trace::{Judged, TraceLines, TraceStop, judge_lines, trace_lines};
use ln_tree::Table;
use std::alloc::Global;

// Returns what is judged of the lines of a trace.
fn judged(
    alloc: Global,
    a: &Accepted<'_>,
    rows: &mut Rows<'_>,
    lines: &mut TraceLines<'_>,
) -> Result<Judged, NoMemory>
    requires { lines.old.line ≡ 2 }
    ensures { IfOk result (λ j. AreJudged (pred_of a.now.pred) rows.old lines.old j) }
{
    judge_lines(alloc, a.pred(), a.poly(), a.stages(), rows, lines)
}

// Returns what is judged of a trace: a form fault comes first.
fn audited(
    alloc: Global,
    a: &Accepted<'_>,
    rows: &mut Rows<'_>,
    trace: &[u8],
) -> Result<Judged, NoMemory>
    requires { length trace.now ≤ most_file }
    ensures { IfOk result (λ j. IsAuditOf (pred_of a.now.pred) rows.old trace.now j) }
{
    match trace_lines(alloc, trace) {
        Ok(mut lines) => judged(alloc, a, rows, &mut lines),
        Err(TraceStop::Form(at)) => Ok(Judged::Wrong(at)),
        Err(TraceStop::NoMemory(e)) => Err(e),
    }
}

// Writes what is judged of a trace.
fn put_judged<C: Console>(
    alloc: Global,
    con: &mut C,
    word: &[u8],
    n: u32,
    end: End,
) -> Result<End, Early>
    ensures { OnConsole C.faults C.shown con.old result con.new (PutsOrStops ((word.now ++ decimal n) ++ codes "\n") end) }
{
    let text = numbered(alloc, word, n)?;
    put_text(con, &text, end)
}

// The work on the records after the header.
fn audit_rows<C: Console>(
    alloc: Global,
    con: &mut C,
    a: &Accepted<'_>,
    rows: &mut Rows<'_>,
    trace: &[u8],
) -> Result<End, Early>
    requires { length trace.now ≤ most_file }
    ensures { (g : Given) (names : List (List ℕ)) → HasTrace g (pred_of a.now.pred) names (names ∷ rows.old) trace.now
        → OnConsole C.faults C.shown con.old result con.new (CarriesOut (AuditSaid g) NoPart ⊥ ⊥) }
{
    match audited(alloc, a, rows, trace) {
        Ok(Judged::Agreed(n)) => put_judged(alloc, con, b"agreed ", n, End::Done),
        Ok(Judged::Wrong(at)) => put_judged(alloc, con, b"wrong ", at, End::Invalid),
        Err(e) => Err(Early::Memory(e)),
    }
}

// The work on records, of which the first has to be the header.
fn audit_records<C: Console>(
    alloc: Global,
    con: &mut C,
    t: &Table,
    a: &Accepted<'_>,
    rows: &mut Rows<'_>,
    trace: &[u8],
) -> Result<End, Early>
    requires { length trace.now ≤ most_file }
    ensures { (g : Given) → HasTrace g (pred_of a.now.pred) (names_of t.now a.now.pred) rows.old trace.now
        → OnConsole C.faults C.shown con.old result con.new (CarriesOut (AuditSaid g) NoPart ⊥ ⊥) }
{
    match rows.header(t, a.pred()) {
        Ok(true) => audit_rows(alloc, con, a, rows, trace),
        Ok(false) => say(alloc, con, Stop::Tell(Why::Header)),
        Err(e) => Err(Early::Memory(e)),
    }
}

/// Writes `agreed N` or `wrong LINE`, or refuses the header.
pub fn work<C: Console>(alloc: Global, con: &mut C, ready: &Ready) -> Result<End, Early>
    requires { IsReadyFor audit_signature ready.now }
    ensures { (g : Given) → StandsFor ready.now g → OnConsole C.faults C.shown con.old result con.new (CarriesOut (AuditSaid g) NoPart ⊥ ⊥) }
{
    let (records, trace) = two_texts(ready);
    let mut rows = Rows::new(alloc, records)?;
    let table = ready.compiled.table();
    let ended = audit_records(alloc, con, table, &named(ready), &mut rows, trace);
    drop(rows);
    ended
}
