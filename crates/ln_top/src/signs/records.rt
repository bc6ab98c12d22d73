//! Work on the records of a rows file: one loop for every command that writes lines for each record. A command says what a record's lines are.
ghost use Rattle.std.specs.Prelude.{◌≡◌, ◌≤◌, ◌+◌, ◌++◌, [], ◌∷◌, ℕ, List, Option, IfOk, OnOk, OnErr, vec_len, vec_capacity};
ghost use Rattle.ln_tree.specs.declared.pred.Pred.{Pred as pred};
ghost use Rattle.ln_tree.specs.Table.{PredOf, pred_of};
ghost use Rattle.ln_code.specs.declared.verdict.Verdict.{Verdict as verdict};
ghost use Rattle.ln_rows.specs.Left.{records_in};
ghost use Rattle.ln_top.specs.Frame.Carried.{CarriesOut};
ghost use Rattle.ln_top.specs.Target.Factors.{IsInRangeOf, IsReadOf};
ghost use Rattle.ln_top.specs.Target.Line.{is_row};
ghost use Rattle.ln_top.specs.Frame.Lines.{Closes, Gathers, Takes};
ghost use Rattle.ln_top.specs.Signs.Rows.{RowStep, RowsPart, RowsSaid};
ghost use Rattle.ln_top.specs.Signs.Run.{HasRecords, end_of, piece_room, piece};
ghost use Rattle.ln_rows.specs.Header.{names_of};
ghost use Rattle.ln_top.specs.Frame.Said.{OnConsole};
ghost use Rattle.ln_top.specs.Frame.Given.{Given};
ghost use Rattle.ln_top.specs.Signs.Watching.{watching};
ghost use Rattle.ln_watch.specs.Panel.{last_lines, states_of};
ghost use Rattle.std.specs.Prelude.{◌<◌, ◌^◌, length};
ghost use Rattle.ln_base.specs.Limits.{most_file};

use crate::frame::put::{put_out, put_rest};
use crate::frame::status::{Early, End};
use crate::frame::stop::{Stop, Why, say};
use crate::signs::gather::{PIECE, end_of, put_piece};
use crate::signs::panel::Panel;
use crate::signs::watching::{Viewers, view};
use ln_base::{Console, NoMemory, Port};
use ln_code::{Row, Verdict};
use ln_rows::{RowStop, Rows};
use ln_tree::{Pred, Table};
use ln_watch::Watch;
use std::alloc::Global;

// The room that any line fits in that names no column, in bytes.
const ROOM: usize = 330;

/// A record as it was read: what came of it, and its row where it is one.
#[derive(Clone, Copy)]
pub(crate) struct Record<'a> {
    pub read: Result<(), RowStop>,
    pub row: &'a Row,
}

/// Writes the lines of a record. Contracts see the text before all lines, the predicate whose columns the records have, the names of the columns, and what
/// a record's lines are; that may depend on what the code doesn't hold, so it is said for the predicates that it knows. And they see which capacity the
/// text has to have: one that a piece and a line fit in has it.
pub(crate) trait RecordWriter {
    /// The memory that it works in.
    type Room: Drop;

    ghost begins: { Self → List ℕ };

    ghost over: { Self → pred };

    ghost columns: { Self → List (List ℕ) };

    ghost knows: { Self → List PredOf → Type 0 };

    ghost line: { Self → List PredOf → PredOf → List (List ℕ) → ℕ → List (List ℕ) → Option verdict → List ℕ → Type 0 };

    ghost fits: { Self → Self.Room → Type 0 };

    ghost space: { Self → ℕ → Type 0 };

    /// The text before the lines of the records.
    fn head(&self) -> &[u8]
        ensures { result.now ≡ begins self.now };

    /// The predicate whose columns the records have.
    fn pred(&self) -> &Pred
        ensures { result.now ≡ over self.now };

    /// The table that names the columns.
    fn table(&self) -> &Table
        ensures { columns self.now ≡ names_of result.now (over self.now) };

    /// Makes the memory that it works in. Each record has a line.
    fn make_room(&self, alloc: Global) -> Result<Self::Room, NoMemory>
        ensures fits { IfOk result (fits self.now) }
        ensures space { (n : ℕ) → piece_room ≤ n → space self.now n }
        ensures has { (ps : List PredOf) → knows self.now ps → (n : ℕ) (fields : List (List ℕ))
            → (shown : Option verdict) × (text : List ℕ) × line self.now ps (pred_of (over self.now)) (columns self.now) n fields shown text };

    /// Adds the lines of the record with this number that was read, and returns the verdict that watchers are shown, if any.
    fn add(
        &self,
        room: &mut Self::Room,
        number: u32,
        found: Record<'_>,
        text: &mut Vec<u8>,
    ) -> Result<Option<Verdict>, NoMemory>
        requires fits { fits self.now room.old }
        requires number { 1 ≤ number }
        requires range { OnOk found.read (IsInRangeOf (over self.now) found.row.now) }
        requires less { vec_len text.old < piece }
        requires space { space self.now (vec_capacity text.old) }
        ensures line { IfOk result (λ shown. (fields : List (List ℕ)) → IsReadOf (over self.now) fields found.entry.read found.entry.row.now
            → (ps : List PredOf) → knows self.now ps → (out : List ℕ)
            × line self.now ps (pred_of (over self.now)) (columns self.now) number fields shown out
            × (text.new.items ≡ text.old.items ++ out)) }
        ensures err { OnErr result (text.new.items ≡ text.old.items) }
        ensures fits { fits self.now room.new }
        ensures space { space self.now (vec_capacity text.new) };
}

// Was a record read as a row?
fn is_good(read: &Result<(), RowStop>) -> bool
    ensures { (p : pred) (fields : List (List ℕ)) (row : Row) → IsReadOf p fields read.now row → result ≡ is_row (pred_of p) fields }
{
    read.is_ok()
}

// Adds the line of a record that was read and shows its verdict, if any, to the watchers. Returns whether the record is a row.
fn take_record<C: Console, W: RecordWriter>(
    con: &mut C,
    writer: &W,
    room: &mut W::Room,
    found: Record<'_>,
    text: &mut Vec<u8>,
    viewers: &mut Viewers,
) -> Result<bool, Early>
    requires fits { W.fits writer.now room.old }
    requires range { OnOk found.read (IsInRangeOf (W.over writer.now) found.row.now) }
    requires less { vec_len text.old < piece }
    requires space { W.space writer.now (vec_capacity text.old) }
    requires few { viewers.old.seen + 1 < 2 ^ 32 }
    ensures takes { (fields : List (List ℕ)) → IsReadOf (W.over writer.now) fields found.entry.read found.entry.row.now
        → (ps : List PredOf) → W.knows writer.now ps
        → OnConsole C.faults C.shown con.old result con.new
        (Takes (RowStep (W.line writer.now ps (pred_of (W.over writer.now)) (W.columns writer.now))) (is_row (pred_of (W.over writer.now)))
        (watching viewers.old.seen (states_of kind_of tally_of viewers.old.panel.watchers.items)) fields
        text.old.items text.new.items (watching viewers.new.seen (states_of kind_of tally_of viewers.new.panel.watchers.items))) }
    ensures seen { OnOk result (viewers.new.seen ≡ viewers.old.seen + 1) }
    ensures fits { W.fits writer.now room.new }
    ensures space { W.space writer.now (vec_capacity text.new) }
{
    let good = is_good(&found.read);
    let number = (viewers.seen + 1) as u32;
    let shown = writer.add(room, number, found, text)?;
    if !view(con, viewers, shown) {
        return Err(Early::Write);
    }
    Ok(good)
}

// Gathers the lines of the remaining records and writes them in pieces; what is in `text` at the end is still to be written. Returns whether
// each record is a row.
fn put_records<C: Console, W: RecordWriter>(
    con: &mut C,
    writer: &W,
    room: &mut W::Room,
    rows: &mut Rows<'_>,
    text: &mut Vec<u8>,
    viewers: &mut Viewers,
) -> Result<bool, Early>
    requires fits { W.fits writer.now room.old }
    requires space { W.space writer.now (vec_capacity text.old) }
    requires few { viewers.old.seen + length rows.old < 2 ^ 32 }
    requires empty { text.old.items ≡ [] }
    ensures { (ps : List PredOf) → W.knows writer.now ps
        → OnConsole C.faults C.shown con.old result con.new
        (Gathers (RowStep (W.line writer.now ps (pred_of (W.over writer.now)) (W.columns writer.now))) (is_row (pred_of (W.over writer.now)))
        (watching viewers.old.seen (states_of kind_of tally_of viewers.old.panel.watchers.items)) rows.old
        text.new.items (watching viewers.new.seen (states_of kind_of tally_of viewers.new.panel.watchers.items))) }
{
    let mut row = Row {
        index: [0; 5],
        values: [0; 168],
    };
    let mut good = true;
    'rows: loop {
        if !put_piece(con, text) {
            return Err(Early::Write);
        }
        match rows.next_row(writer.pred(), &mut row) {
            Ok(Some(read)) => {
                let record = Record { read, row: &row };
                match take_record(con, writer, room, record, text, viewers) {
                    Ok(right) => good &= right,
                    Err(early) => return Err(early),
                }
            }
            Ok(None) => return Ok(good),
            Err(e) => return Err(Early::Memory(e)),
        }
    }
}

// Writes the lines of the watchers that remain after the records.
fn close_after<C: Console>(con: &mut C, panel: Panel, good: bool) -> Result<End, Early>
    ensures { OnConsole C.faults C.shown con.old result con.new
        (Closes (last_lines (states_of kind_of tally_of panel.watchers.items)) (end_of good)) }
{
    match panel.close(con, Port::Err) {
        Ok(()) => Ok(end_of(good)),
        Err(_) => Err(Early::Write),
    }
}

// The work on the records after the header.
fn put_rows<C: Console, W: RecordWriter>(
    alloc: Global,
    con: &mut C,
    writer: &W,
    rows: &mut Rows<'_>,
    watchers: Vec<Box<dyn Watch>>,
) -> Result<End, Early>
    requires few { length rows.old < 2 ^ 32 }
    ensures { (g : Given) → W.knows writer.now g.preds
        → HasRecords g (pred_of (W.over writer.now)) (W.columns writer.now) (W.columns writer.now ∷ rows.old)
        → OnConsole C.faults C.shown con.old result con.new
        (CarriesOut (RowsSaid (W.begins writer.now) (W.line writer.now g.preds) (states_of kind_of tally_of watchers.items) g)
        (RowsPart (W.begins writer.now) (W.line writer.now g.preds) (states_of kind_of tally_of watchers.items) g) ⊥ ⊥) }
{
    let mut room = writer.make_room(alloc)?;
    let mut text = Vec::with_capacity(alloc, PIECE + ROOM)?;
    if !put_out(con, writer.head()) {
        return Err(Early::Write);
    }
    let panel = Panel::new(watchers);
    let mut viewers = Viewers { seen: 0, panel };
    let ran = put_records(con, writer, &mut room, rows, &mut text, &mut viewers);
    match put_rest(con, &text, ran) {
        Ok(good) => close_after(con, viewers.panel, good),
        Err(early) => Err(early),
    }
}

// The work on all records, of which the first is the header, or isn't.
fn put_from_header<C: Console, W: RecordWriter>(
    alloc: Global,
    con: &mut C,
    writer: &W,
    rows: &mut Rows<'_>,
    watchers: Vec<Box<dyn Watch>>,
) -> Result<End, Early>
    requires few { length rows.old < 2 ^ 32 }
    ensures { (g : Given) → W.knows writer.now g.preds → HasRecords g (pred_of (W.over writer.now)) (W.columns writer.now) rows.old
        → OnConsole C.faults C.shown con.old result con.new
        (CarriesOut (RowsSaid (W.begins writer.now) (W.line writer.now g.preds) (states_of kind_of tally_of watchers.items) g)
        (RowsPart (W.begins writer.now) (W.line writer.now g.preds) (states_of kind_of tally_of watchers.items) g) ⊥ ⊥) }
{
    match rows.header(writer.table(), writer.pred()) {
        Ok(true) => put_rows(alloc, con, writer, rows, watchers),
        Ok(false) => say(alloc, con, Stop::Tell(Why::Header)),
        Err(e) => Err(Early::Memory(e)),
    }
}

/// Writes the lines of each record of a rows file after the header, and the lines of the watchers to Err; or refuses the header.
pub(crate) fn put_lines<C: Console, W: RecordWriter>(
    alloc: Global,
    con: &mut C,
    writer: &W,
    text: &[u8],
    watchers: Vec<Box<dyn Watch>>,
) -> Result<End, Early>
    requires short { length text.now ≤ most_file }
    ensures { (g : Given) → W.knows writer.now g.preds
        → HasRecords g (pred_of (W.over writer.now)) (W.columns writer.now) (records_in text.now)
        → OnConsole C.faults C.shown con.old result con.new
        (CarriesOut (RowsSaid (W.begins writer.now) (W.line writer.now g.preds) (states_of kind_of tally_of watchers.items) g)
        (RowsPart (W.begins writer.now) (W.line writer.now g.preds) (states_of kind_of tally_of watchers.items) g) ⊥ ⊥) }
{
    let mut rows = Rows::new(alloc, text)?;
    put_from_header(alloc, con, writer, &mut rows, watchers)
}
