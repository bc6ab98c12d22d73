//! The work of `check`: a line for each predicate of a source.
ghost use Rattle.std.specs.Prelude.{◌≡◌, ◌++◌, map, IfOk};
ghost use Rattle.ln_tree.specs.Table.{pred_of};
ghost use Rattle.ln_top.specs.Texts.Check.{AreCounts, CheckSaid, count_text};
ghost use Rattle.ln_top.specs.Frame.Carried.{CarriesOut, NoPart};
ghost use Rattle.ln_top.specs.Frame.Ready.{StandsFor};
ghost use Rattle.ln_top.specs.Frame.Said.{OnConsole, line};
ghost use Rattle.ln_top.specs.Frame.Given.{Given};

use crate::frame::put::add_number;
use crate::frame::ready::Ready;
use crate::frame::status::{Early, End};
use crate::frame::stop::put_text;
use ln_base::{Console, NoMemory};
use ln_compile::Checked;
use ln_tree::Pred;
use std::alloc::Global;

// Adds the line of a predicate with this stage count.
fn add_count(text: &mut Vec<u8>, p: &Pred, count: u64) -> Result<(), NoMemory>
    ensures { IfOk result (λ x. text.new.items ≡ text.old.items ++ line (count_text (pred_of p.now) count)) }
{
    text.extend_from_slice(p.name.bytes())?;
    add_number(text, b" sites ", u64::from(p.shape.sites))?;
    add_number(text, b" stages ", count)?;
    text.push(b'\n')?;
    Ok(())
}

// The lines of the predicates.
fn counts(alloc: Global, c: &Checked) -> Result<Vec<u8>, NoMemory>
    ensures { IfOk result (λ v. AreCounts (map pred_of c.now.table.preds) v.items) }
{
    let mut text = Vec::new(alloc);
    'preds: for (i, p) in c.table().preds.as_slice().iter().enumerate() {
        add_count(&mut text, p, c.stage_count(i))?;
    }
    Ok(text)
}

/// Writes the lines of the predicates with their stage counts; all of them are made before the first is written.
pub fn work<C: Console>(alloc: Global, con: &mut C, ready: &Ready) -> Result<End, Early>
    ensures { (g : Given) → StandsFor ready.now g → OnConsole C.faults C.shown con.old result con.new (CarriesOut (CheckSaid g) NoPart ⊥ ⊥) }
{
    let text = counts(alloc, &ready.compiled)?;
    put_text(con, &text, End::Done)
}
