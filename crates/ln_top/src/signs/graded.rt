//! `graded`: a predicate by total degree first, whose stages in that order of infinitesimals are few.
ghost use Rattle.std.specs.Prelude.{◌≡◌, ◌≢◌, ◌≤◌, ◌<◌, All, List, [], length, map, slice_get, Err, Some, IfErr, IfOk, OnOk};
ghost use Rattle.ln_algebra.specs.Orders.{ByDegree};
ghost use Rattle.ln_base.specs.Limits.{most_source};
ghost use Rattle.ln_tree.specs.Table.{PredOf, pred_of};
ghost use Rattle.ln_compile.specs.Filtered.{AnswersFor};
ghost use Rattle.ln_top.specs.Frame.Carried.{CarriesOut};
ghost use Rattle.ln_top.specs.Signs.Graded.{FirstHasFew, HasFewGraded, KeepsGraded};
ghost use Rattle.ln_compile.specs.Compiled.{AreNumbered};
ghost use Rattle.ln_top.specs.declared.frame.asked.Asked.TheVariants.{FewStages};
ghost use Rattle.ln_top.specs.Frame.Ready.{IsReadyFor, StandsFor};
ghost use Rattle.ln_top.specs.Frame.Signature.{Refuses};
ghost use Rattle.ln_top.specs.Signs.Run.{graded_signature};
ghost use Rattle.ln_top.specs.Frame.Said.{OnConsole};
ghost use Rattle.ln_top.specs.Frame.Given.{Given};
ghost use Rattle.ln_top.specs.Signs.Signs.{GradedSaid, RunPart};

use crate::frame::place::place_at;
use crate::frame::ready::{Ready, short_text};
use crate::frame::status::{Early, End};
use crate::frame::stop::{Stop, Why};
use crate::signs::named::one_target;
use crate::signs::records::put_lines;
use crate::signs::watching::no_watchers;
use ln_base::limits::{MOST_GRADED, MOST_WEIGHT};
use ln_base::{Console, Span};
use ln_code::Program;
use ln_compile::Checked;
use ln_graded::{GradedStop, graded_from};
use std::alloc::Global;

// Returns the program by total degree of the predicate with this number, from 0; or none, where it has too many stages in that order.
fn graded_program(alloc: Global, c: &Checked, i: usize) -> Result<Program, GradedStop>
    requires { i < length c.now.table.preds }
    ensures program { IfOk result (λ q. (p : PredOf) → slice_get (map pred_of c.now.table.preds) i ≡ Some p
        → HasFewGraded p × AnswersFor ByDegree p q) }
    ensures err { IfErr result (λ s. s ≡ GradedStop.Stages → (p : PredOf) → slice_get (map pred_of c.now.table.preds) i ≡ Some p
        → HasFewGraded p → ⊥) }
{
    let f = c.polynomial(alloc, i)?;
    let begin = c.beginning(alloc, i)?;
    graded_from(alloc, &f, &c.pred(i).shape, begin, MOST_GRADED, MOST_WEIGHT)
}

// Returns the place of the name of the predicate with this number, from 0.
fn name_at(c: &Checked, i: usize) -> Span
    requires { i < length c.now.table.preds }
    ensures { (p : PredOf) → slice_get (map pred_of c.now.table.preds) i ≡ Some p → result ≡ p.at }
{
    c.pred(i).at
}

/// Returns the program by total degree of the first of the named predicates; or stops where it has too many stages in that order, at its
/// name's place in the source.
pub fn graded_first(
    alloc: Global,
    bytes: &[u8],
    c: &Checked,
    numbers: &[usize],
) -> Result<Option<Program>, Stop>
    requires within { All (λ i. i < length c.now.table.preds) numbers.now }
    requires short { length bytes.now ≤ most_source }
    ensures few { OnOk result ((preds : List PredOf) → AreNumbered (map pred_of c.now.table.preds) numbers.now preds → FirstHasFew preds) }
    ensures kept { IfOk result (KeepsGraded (map pred_of c.now.table.preds) numbers.now) }
    ensures err { IfErr result (λ s. (preds : List PredOf) → AreNumbered (map pred_of c.now.table.preds) numbers.now preds
        → Refuses FewStages bytes.now preds s) }
    ensures quiet { result ≢ Err Stop.Read }
{
    match numbers {
        [] => Ok(None),
        [i, ..] => match graded_program(alloc, c, *i) {
            Ok(program) => Ok(Some(program)),
            Err(GradedStop::NoMemory(e)) => Err(Stop::Memory(e)),
            Err(GradedStop::Stages) => Err(Stop::Tell(Why::Stages(place_at(
                bytes,
                name_at(c, *i),
            )))),
        },
    }
}

/// Writes a line for each record after the header, by total degree first; or refuses the header. The watchers are shown nothing. No operation of the
/// program that it runs leaves its width.
pub fn work<C: Console>(alloc: Global, con: &mut C, ready: &Ready) -> Result<End, Early>
    requires { IsReadyFor graded_signature ready.now }
    ensures { (g : Given) → StandsFor ready.now g
        → OnConsole C.faults C.shown con.old result con.new (CarriesOut (GradedSaid g) (RunPart ByDegree [] g) ⊥ ⊥) }
{
    let target = one_target(alloc, ready)?;
    put_lines(alloc, con, &target, short_text(ready), no_watchers(alloc))
}
