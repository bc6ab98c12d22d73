//! The top call: the words become a plan, the plan is prepared, and the work is done.
ghost use Rattle.std.specs.Prelude.{◌≡◌, ◌≢◌, map, string_bytes, IfSome, Err};
ghost use Rattle.ln_base.specs.Outside.{Rose};
ghost use Rattle.ln_top.specs.Answer.{Answer, IsMissing, Part, PlanOwes, PlanPart, PlanLacks};
ghost use Rattle.ln_top.specs.Audited.{AgreedTracesTellSigns};
ghost use Rattle.ln_top.specs.Call.{Keeps, call};
ghost use Rattle.ln_top.specs.Frame.Carried.{CarriesOut};
ghost use Rattle.ln_top.specs.Causes.{IsSettled};
ghost use Rattle.ln_top.specs.Edged.{EdgesAreListed};
ghost use Rattle.ln_top.specs.Emitted.{CallsArePerturbed};
ghost use Rattle.ln_top.specs.Explained.{TracesExplain};
ghost use Rattle.ln_top.specs.Headline.{GradedSignsArePerturbed, SignsArePerturbed};
ghost use Rattle.ln_top.specs.Guarantee.{EmitWritesC, ListWritesListing, RunWritesSigns};
ghost use Rattle.ln_top.specs.Listed.{ListingGivesSigns};
ghost use Rattle.ln_top.specs.Plan.{HasForm, with_bytes};
ghost use Rattle.ln_top.specs.Products.{ProductsArePerturbed};
ghost use Rattle.ln_top.specs.Frame.Ready.{IsReadyFor, StandsFor};
ghost use Rattle.ln_top.specs.Frame.Said.{OnConsole, count};
ghost use Rattle.ln_top.specs.Signature.{signature_of};
ghost use Rattle.ln_top.specs.Frame.Given.{Given};
ghost use Rattle.ln_top.specs.Trusted.{ValidTellsSigns};
ghost use Rattle.ln_top.specs.Works.{WorkOwes, WorkPart};
ghost use Rattle.ln_watch.specs.Panel.{states_of};

use crate::frame::ready::Ready;
use crate::frame::status::{Early, End, Status, status_of};
use crate::frame::stop::{Stop, Why, say};
use crate::judges::{audit, edges, verify};
use crate::prepare::prepare;
use crate::signs::{explain, generate, graded, product, run};
use crate::texts::{check, emit, list};
use crate::words::{Command, Plan, plan_of};
use ln_base::{Console, Files};
use ln_watch::Watch;
use std::alloc::Global;

// Does the work of a command.
fn work<C: Console>(
    alloc: Global,
    con: &mut C,
    command: Command,
    ready: &Ready,
    watchers: Vec<Box<dyn Watch>>,
) -> Result<End, Early>
    requires { IsReadyFor (signature_of command) ready.now }
    ensures { (g : Given) → StandsFor ready.now g
        → OnConsole C.faults C.shown con.old result con.new (CarriesOut (WorkOwes command (states_of kind_of tally_of watchers.items) g)
        (WorkPart command (states_of kind_of tally_of watchers.items) g) ⊥ ⊥) }
{
    match command {
        Command::Check => check::work(alloc, con, ready),
        Command::List => list::work(alloc, con, ready),
        Command::Emit => emit::work(alloc, con, ready),
        Command::Verify => verify::work(alloc, con, ready),
        Command::Run => run::work(alloc, con, ready, watchers),
        Command::Graded => graded::work(alloc, con, ready),
        Command::Edges => edges::work(alloc, con, ready),
        Command::Explain => explain::work(alloc, con, ready),
        Command::Audit => audit::work(alloc, con, ready),
        Command::Gen(seed, rows) => { generate::work(alloc, con, ready, seed, rows, watchers) }
        Command::Product => product::work(alloc, con, ready),
    }
}

// Carries out a plan.
fn carry_plan<F: Files, C: Console>(
    alloc: Global,
    files: &mut F,
    con: &mut C,
    plan: Plan<'_>,
    watchers: Vec<Box<dyn Watch>>,
) -> Result<End, Early>
    requires { HasForm (with_bytes plan) }
    ensures done { OnConsole C.faults C.shown con.old result con.new (CarriesOut
        (PlanOwes (with_bytes plan.entry) (F.told files.old) (states_of kind_of tally_of watchers.items))
        (PlanPart (with_bytes plan.entry) (F.told files.old) (states_of kind_of tally_of watchers.items))
        (PlanLacks (with_bytes plan.entry) (F.told files.old)) (Rose (F.faults files.old) (F.faults files.new))) }
    ensures quiet { result ≢ Err Early.Read → result ≢ Err Early.Write → F.faults files.new ≡ F.faults files.old }
{
    match prepare(alloc, files, plan) {
        Ok(ready) => {
            let ended = work(alloc, con, plan.command, &ready, watchers);
            drop(ready);
            ended
        }
        Err(stop) => say(alloc, con, stop),
    }
}

// Carries out the command of the words.
fn carry_out<F: Files, C: Console>(
    alloc: Global,
    words: &[String],
    files: &mut F,
    con: &mut C,
    watchers: Vec<Box<dyn Watch>>,
) -> Result<End, Early>
    ensures done { OnConsole C.faults C.shown con.old result con.new (CarriesOut
        (Answer (map string_bytes words.now) (F.told files.old) (states_of kind_of tally_of watchers.items))
        (Part (map string_bytes words.now) (F.told files.old) (states_of kind_of tally_of watchers.items))
        (IsMissing (map string_bytes words.now) (F.told files.old)) (Rose (F.faults files.old) (F.faults files.new))) }
    ensures quiet { result ≢ Err Early.Read → result ≢ Err Early.Write → F.faults files.new ≡ F.faults files.old }
{
    match plan_of(words) {
        Some(plan) => carry_plan(alloc, files, con, plan, watchers),
        None => say(alloc, con, Stop::Tell(Why::Usage)),
    }
}

/// Carries out the command of the words over the files and the console, and returns its status.
///
/// | words | what it writes to standard output |
/// |---|---|
/// | `check FILE` | a line for each predicate of an accepted source: its number of sites and its stage count |
/// | `list FILE` | the listing of the programs of all predicates |
/// | `verify FILE LISTING` | whether a listing, whoever made it, is valid for the source, or its first line that breaks a rule |
/// | `emit FILE` | C in which the call of `ln_NAME` returns the perturbed sign of a row |
/// | `run FILE NAME ROWS` | for each record after the header the perturbed sign of the predicate on that row, and what decides it |
/// | `graded FILE NAME ROWS` | the same in the order by total degree first |
/// | `product FILE NAME NAME.. ROWS` | the perturbed sign of the product of two to eight predicates, and what decides each of them |
/// | `explain FILE NAME ROWS` | the trace of each row: its coefficients in order, up to the one that decides |
/// | `audit FILE NAME ROWS TRACE` | whether a trace, whoever made it, is right, or its first line that is wrong |
/// | `edges FILE NAME POINTS` | a line for each ordered pair of points that has every other point on the plus side |
/// | `gen FILE NAME SEED COUNT` | the lines of the watchers over this many rows that it makes from the seed |
///
/// In `run` the watchers see each verdict, with the number of its record, from 1 after the header, and their lines go to standard error:
/// that of a watcher that is done at once, those of the others at the end, also where records are invalid. In `gen` all of their lines go
/// to standard output. Every other command drops the watchers without a line.
///
/// Each status has its cause, and the first in the order of the steps decides: the words, the source file, the source, the names, what
/// the command requires of their predicates, the further files, the work. A failed write decides before all of them.
pub fn lnc<F: Files, C: Console>(
    alloc: Global,
    words: &[String],
    files: &mut F,
    con: &mut C,
    watchers: Vec<Box<dyn Watch>>,
) -> Status
    // The promises that hold for every command: the output to the byte, the cause of each status, what a fault or an allocation that
    // fails leaves.
    ensures kept { Keeps (call (map string_bytes words.now) (F.told files.old) (states_of kind_of tally_of watchers.items)
        (count (F.faults files.old) (F.faults files.new)) (count (C.faults con.old) (C.faults con.new)) result
        (C.shown con.old) (C.shown con.new)) }
    // The headline: where records after the right header were worked on to their end, there is one line for each, and that of
    // each that is a row in range is the perturbed sign of the predicate on it and what decides it: the sign of the first coefficient
    // that isn't 0, in the order of infinitesimals by the row's own indices, of the predicate at perturbed inputs.
    ensures headline { IsSettled result → IfSome (F.told files.old) (λ shelf. SignsArePerturbed (map string_bytes words.now) shelf
        (states_of kind_of tally_of watchers.items) (C.shown con.old) (C.shown con.new)) }
    // The same from the words, the bytes of the files and the status alone, in as few definitions as it takes: the language of the source, the
    // fields of a row, its perturbed sign, and the line that begins with it.
    ensures run_signs { IfSome (F.told files.old) (λ shelf. RunWritesSigns (map string_bytes words.now) shelf result (C.shown con.old)
        (C.shown con.new)) }
    // And in the other order of infinitesimals: where `graded` came to its end, each line of a row in range is the sign of the first
    // coefficient that isn't 0 by total degree first, and what decides it. No operation of the program leaves its certified width.
    ensures graded { IsSettled result → IfSome (F.told files.old) (λ shelf. GradedSignsArePerturbed (map string_bytes words.now) shelf
        (C.shown con.old) (C.shown con.new)) }
    // The same of products: where `product` worked on records after the right header to their end, there is one line for each, and
    // that of each that is a row in range begins with the perturbed sign of the product of the predicates on it, and goes on with what
    // decides each of them; it is 0 exactly where one of their signs is. No operation of a factor's program leaves its certified width.
    ensures products { IsSettled result → IfSome (F.told files.old) (λ shelf. ProductsArePerturbed (map string_bytes words.now) shelf
        (C.shown con.old) (C.shown con.new)) }
    // And the C: where `emit` came to its end, what is on Out is the text of a C file in which, for each predicate and each row in
    // its declared ranges, the call of `ln_NAME` has a meaning, by the subset's written meaning: the perturbed sign. Where the value on
    // the row isn't 0, it comes by one call and nothing in 128 bits where the filter decides, and else by the call of block 0.
    ensures emitted { IsSettled result → IfSome (F.told files.old) (λ shelf. CallsArePerturbed (map string_bytes words.now) shelf
        (C.shown con.old) (C.shown con.new)) }
    // The same of the C from the bytes of the source on: a call on a row means the perturbed sign.
    ensures emit_signs { IfSome (F.told files.old) (λ shelf. EmitWritesC (map string_bytes words.now) shelf result (C.shown con.old)
        (C.shown con.new)) }
    // And the listing: where `list` came to its end, what is on Out is the text of a listing that is valid, and `verify` of it says
    // so; for each predicate and each row in its declared ranges the machine of the listing's part has a verdict, so no operation
    // leaves its certified width, and its sign is the perturbed sign. Where the value on the row isn't 0, the filter decides, by one
    // call and nothing in 128 bits, or block 0 does.
    ensures listed { IsSettled result → IfSome (F.told files.old) (λ shelf. ListingGivesSigns (map string_bytes words.now) shelf
        (C.shown con.old) (C.shown con.new)) }
    // The same of the listing from the bytes of the source on: the machine of each predicate's part has a verdict on each row, with the
    // perturbed sign.
    ensures list_signs { IfSome (F.told files.old) (λ shelf. ListWritesListing (map string_bytes words.now) shelf result (C.shown con.old)
        (C.shown con.new)) }
    // And the edges: where `edges` came to its end, what is on Out is exactly one line for each ordered pair of points that is an edge,
    // in order of the first record and then of the second: every other point is on the plus side of the two by the perturbed sign.
    ensures edged { IsSettled result → IfSome (F.told files.old) (λ shelf. EdgesAreListed (map string_bytes words.now) shelf
        (C.shown con.old) (C.shown con.new)) }
    // And the trace: where `explain` came to its end, what is on Out is the text of a trace whose lines tell for each row in range the
    // coefficients of its stages in order, up to and with the first that isn't 0, and the perturbed sign; and `audit` agrees to it.
    ensures explained { IsSettled result → IfSome (F.told files.old) (λ shelf. TracesExplain (map string_bytes words.now) shelf
        (C.shown con.old) (C.shown con.new)) }
    // And any trace: where `audit` came to done, what the trace says of each record is right: no sign of an invalid one,
    // and of a row its perturbed sign.
    ensures audited { IfSome (F.told files.old) (λ shelf. AgreedTracesTellSigns (map string_bytes words.now) shelf result) }
    // And any listing: where `verify` came to done, the listing has a part for each predicate, and on each row in its declared ranges
    // the machine of the part has a verdict, so no operation leaves its certified width; its sign is the perturbed sign, and without
    // params not 0.
    ensures trusted { IfSome (F.told files.old) (λ shelf. ValidTellsSigns (map string_bytes words.now) shelf result) }
{
    status_of(carry_out(alloc, words, files, con, watchers))
}
