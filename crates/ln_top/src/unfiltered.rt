//! The work of the program: the steps are those of `lnc emit`, and the text is C for programs without filters, each for every row, or for rows whose
//! indices rise where that is enough.
ghost use Rattle.std.specs.Prelude.{◌≡◌, ◌≢◌, ◌<◌, ℕ, List, [], ◌∷◌, codes, Err, IfOk, IfSome, OnOk, Some, length, map, option_map, string_bytes};
ghost use Rattle.ln_base.specs.Outside.{Rose};
ghost use Rattle.ln_tree.specs.Table.{pred_of};
ghost use Rattle.ln_top.specs.Answer.{IsMissing};
ghost use Rattle.ln_top.specs.Frame.Carried.{CarriesOut, NoPart};
ghost use Rattle.ln_top.specs.Causes.{EndsExactly};
ghost use Rattle.ln_top.specs.Plan.{HasForm, plan_of, with_bytes};
ghost use Rattle.ln_top.specs.Frame.Ready.{HasStanding, StandsFor};
ghost use Rattle.ln_top.specs.Frame.Given.{Given};
ghost use Rattle.ln_top.specs.Frame.Said.{OnConsole, count, status_of};
ghost use Rattle.ln_top.specs.Exact.{CallsAreSigns, ExactSaid, Owes, TurningCallsAreSigns};
ghost use Rattle.ln_top.specs.Exact.{emit_words, style_named, style_of};
ghost use Rattle.ln_top.specs.OneOrder.{HasEntryAt, entry_for};

use crate::frame::ready::Ready;
use crate::frame::status::{Early, End};
use crate::frame::stop::{Stop, Why, put_text, say};
use crate::prepare::prepare;
use crate::texts::written::{Style, written};
use crate::words::{Command, Plan};
use ln_base::{Console, Files, NoMemory};
use ln_cemit::Entry;
use ln_compile::Checked;
use ln_stage::Symmetry;
use std::alloc::Global;

// The entry of a predicate of two sites or more.
fn entry_for(symmetry: Option<Symmetry>) -> Entry
    ensures { result ≡ entry_for symmetry }
{
    match symmetry {
        Some(Symmetry::Alternating) => Entry::Alternating,
        Some(Symmetry::Symmetric) => Entry::Symmetric,
        None => Entry::EveryRow,
    }
}

/// The entry of predicate number i in C of one order: which rows its function is for.
pub fn entry_of(source: &Checked, i: usize) -> Entry
    requires { i < length source.now.table.preds }
    ensures { HasEntryAt (map pred_of source.now.table.preds) i result }
{
    if source.pred(i).shape.sites < 2 {
        return Entry::EveryRow;
    }
    entry_for(source.symmetry(i))
}

// Writes the C; all of it is made before the first byte is written.
fn work<C: Console>(alloc: Global, con: &mut C, ready: Ready, style: Style) -> Result<End, Early>
    requires { HasStanding ready }
    ensures { (g : Given) → StandsFor ready g → OnConsole C.faults C.shown con.old result con.new (CarriesOut (ExactSaid style g) NoPart ⊥ ⊥) }
{
    let made = written(alloc, &ready.compiled, style);
    drop(ready);
    let text = made?;
    put_text(con, &text, End::Done)
}

// The style that a word before the file asks for.
fn style_named(word: &str) -> Style
    ensures { result ≡ style_named word.now }
{
    if word == "turning" {
        Style::OneOrder
    } else {
        Style::EveryRow
    }
}

// The style that the words ask for.
fn style_of(words: &[String]) -> Style
    ensures { result ≡ style_of (map string_bytes words.now) }
{
    match words {
        [word, _] => style_named(word.as_str()),
        _ => Style::EveryRow,
    }
}

// The plan of `emit` for a file.
fn emit_of(file: &str) -> Plan<'_>
    ensures is { Some (with_bytes result) ≡ plan_of (codes "emit" ∷ file.now ∷ []) }
    ensures form { HasForm (with_bytes result) }
{
    Plan {
        source: file,
        names: &[],
        files: &[],
        command: Command::Emit,
    }
}

// The plan of a word and a file: that of the file where the word names the style.
fn after_word<'a>(word: &str, file: &'a str) -> Option<Plan<'a>>
    ensures is { option_map with_bytes result ≡ plan_of (emit_words (word.now ∷ file.now ∷ [])) }
    ensures form { IfSome result (λ p. HasForm (with_bytes p)) }
{
    match style_named(word) {
        Style::OneOrder => Some(emit_of(file)),
        Style::Filtered => None,
        Style::EveryRow => None,
    }
}

// The plan of the words: that of `emit` for the one file that they name.
fn plan_of(words: &[String]) -> Option<Plan<'_>>
    ensures is { option_map with_bytes result ≡ plan_of (emit_words (map string_bytes words.now)) }
    ensures form { IfSome result (λ p. HasForm (with_bytes p)) }
{
    match words {
        [file] => Some(emit_of(file.as_str())),
        [word, file] => after_word(word.as_str(), file.as_str()),
        _ => None,
    }
}

// Takes the steps of a plan, and does the work.
fn carry_plan<F: Files, C: Console>(
    alloc: Global,
    files: &mut F,
    con: &mut C,
    plan: Plan<'_>,
    style: Style,
) -> Result<End, Early>
    requires { HasForm (with_bytes plan) }
    ensures done { (words : List (List ℕ)) → plan_of (emit_words words) ≡ Some (with_bytes plan.entry) → style_of words ≡ style
        → OnConsole C.faults C.shown con.old result con.new
        (CarriesOut (Owes words (F.told files.old)) NoPart (IsMissing (emit_words words) (F.told files.old))
        (Rose (F.faults files.old) (F.faults files.new))) }
    ensures quiet { result ≢ Err Early.Read → result ≢ Err Early.Write → F.faults files.new ≡ F.faults files.old }
{
    match prepare(alloc, files, plan) {
        Ok(ready) => work(alloc, con, ready, style),
        Err(stop) => say(alloc, con, stop),
    }
}

/// Writes C without filters for the predicates of the source file that the one word names. It ends as `lnc emit` does with that word, by the
/// same causes and with the same lines on Err. With the word `turning` before the file the C is of one order: the function of a predicate that
/// each exchange of two sites turns, or keeps, is for rows whose indices rise, and has another name.
pub fn exact<F: Files, C: Console>(
    alloc: Global,
    words: &[String],
    files: &mut F,
    con: &mut C,
) -> Result<End, Early>
    // What was written is to the byte what is required; else a file wasn't read, a write failed or memory ran out, and nothing is written but
    // the line of a file that wasn't read or what a failed write leaves.
    ensures done { CarriesOut (Owes (map string_bytes words.now) (F.told files.old)) NoPart
        (IsMissing (emit_words (map string_bytes words.now)) (F.told files.old)) (Rose (F.faults files.old) (F.faults files.new))
        (count (C.faults con.old) (C.faults con.new)) result (C.shown con.old) (C.shown con.new) }
    // Each end comes exactly where that of `lnc emit` has its cause.
    ensures ends { IfSome (F.told files.old) (λ shelf. EndsExactly (emit_words (map string_bytes words.now)) shelf (status_of result)
        (Rose (F.faults files.old) (F.faults files.new)) (Rose (C.faults con.old) (C.faults con.new))) }
    ensures quiet { result ≢ Err Early.Read → result ≢ Err Early.Write → F.faults files.new ≡ F.faults files.old }
    // The headline: what is on Out is the text of a C file in which, for each predicate and each row in its declared ranges, the call of
    // `ln_NAME` has a meaning, by the subset's written meaning: the perturbed sign.
    ensures signs { OnOk result (IfSome (F.told files.old) (λ shelf. CallsAreSigns (map string_bytes words.now) shelf
        (C.shown con.old) (C.shown con.new))) }
    // With `turning`: what is on Out has a function `la_NAME` or `ls_NAME` for each predicate of two sites or more whose sign each exchange of two
    // sites turns, or keeps, and for no other. Its call on each row in range whose indices rise means the perturbed sign, and so each row in range
    // has its sign by the call on the row with its sites sorted.
    ensures turning { OnOk result (IfSome (F.told files.old) (λ shelf. TurningCallsAreSigns (map string_bytes words.now) shelf
        (C.shown con.old) (C.shown con.new))) }
{
    match plan_of(words) {
        Some(plan) => carry_plan(alloc, files, con, plan, style_of(words)),
        None => say(alloc, con, Stop::Tell(Why::Usage)),
    }
}
