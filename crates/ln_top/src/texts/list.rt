//! The work of `list`: the listing of the programs of a source.
ghost use Rattle.std.specs.Prelude.{◌<◌, ◌+◌, IfOk, length, map};
ghost use Rattle.ln_tree.specs.Table.{pred_of};
ghost use Rattle.ln_top.specs.Frame.Carried.{CarriesOut, NoPart};
ghost use Rattle.ln_top.specs.Texts.Listing.{IsListingOf, IsListingOfFirst, ListSaid};
ghost use Rattle.ln_top.specs.Frame.Ready.{StandsFor};
ghost use Rattle.ln_top.specs.Frame.Said.{OnConsole};
ghost use Rattle.ln_top.specs.Frame.Given.{Given};

use crate::frame::ready::Ready;
use crate::frame::status::{Early, End};
use crate::frame::stop::put_text;
use ln_base::{Console, NoMemory};
use ln_cert::{begin_listing, put_program};
use ln_compile::Checked;
use std::alloc::Global;

// Appends the program of predicate number i, after those of the predicates before it. The program is made here, and dropped.
fn put_listed(alloc: Global, text: &mut Vec<u8>, source: &Checked, i: usize) -> Result<(), NoMemory>
    requires { i < length source.now.table.preds }
    ensures { IfOk result (λ x. IsListingOfFirst (map pred_of source.now.table.preds) i text.old.items
        → IsListingOfFirst (map pred_of source.now.table.preds) (i + 1) text.new.items) }
{
    let program = source.program(alloc, i)?;
    // The contract of `blocks` states that the program follows the rules.
    let _blocks = program.blocks();
    put_program(alloc, text, &program)
}

// The listing of the programs of a source, of which no two are there at once.
fn listing(alloc: Global, source: &Checked) -> Result<Vec<u8>, NoMemory>
    ensures { IfOk result (λ v. IsListingOf (map pred_of source.now.table.preds) v.items) }
{
    let mut text = begin_listing(alloc)?;
    'each: for i in 0..source.table().preds.as_slice().len() {
        put_listed(alloc, &mut text, source, i)?;
    }
    Ok(text)
}

/// Writes the listing of the programs; all of it is made before the first byte is written.
pub fn work<C: Console>(alloc: Global, con: &mut C, ready: &Ready) -> Result<End, Early>
    ensures { (g : Given) → StandsFor ready.now g → OnConsole C.faults C.shown con.old result con.new (CarriesOut (ListSaid g) NoPart ⊥ ⊥) }
{
    let text = listing(alloc, &ready.compiled)?;
    put_text(con, &text, End::Done)
}
