//! The work of `emit`: C for the predicates of a source.
ghost use Rattle.ln_top.specs.Frame.Carried.{CarriesOut, NoPart};
ghost use Rattle.ln_top.specs.Texts.Emit.{EmitSaid};
ghost use Rattle.ln_top.specs.Frame.Ready.{StandsFor};
ghost use Rattle.ln_top.specs.Frame.Said.{OnConsole};
ghost use Rattle.ln_top.specs.Frame.Given.{Given};

use crate::frame::ready::Ready;
use crate::frame::status::{Early, End};
use crate::frame::stop::put_text;
use crate::texts::written::{Style, written};
use ln_base::Console;
use std::alloc::Global;

/// Writes C for the predicates; all of it is made before the first byte is written.
pub fn work<C: Console>(alloc: Global, con: &mut C, ready: &Ready) -> Result<End, Early>
    ensures { (g : Given) → StandsFor ready.now g → OnConsole C.faults C.shown con.old result con.new (CarriesOut (EmitSaid g) NoPart ⊥ ⊥) }
{
    let text = written(alloc, &ready.compiled, Style::Filtered)?;
    put_text(con, &text, End::Done)
}
