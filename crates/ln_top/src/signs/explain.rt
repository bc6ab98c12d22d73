//! The work of `explain`: a trace, which for each record after the header tells the stages that were looked at and the sign.
ghost use Rattle.std.specs.Prelude.{◌≡◌};
ghost use Rattle.ln_algebra.specs.Orders.{BySmallest};
ghost use Rattle.ln_code.specs.Memory.{MadeFor};
ghost use Rattle.ln_compile.specs.Accepted.{IsSound};
ghost use Rattle.ln_top.specs.Frame.Carried.{CarriesOut};
ghost use Rattle.ln_top.specs.Signs.Explain.{ExplainPart, ExplainSaid, explain_signature, ExplainLine};
ghost use Rattle.ln_top.specs.Frame.Ready.{IsReadyFor, StandsFor};
ghost use Rattle.ln_top.specs.Frame.Said.{OnConsole};
ghost use Rattle.ln_top.specs.Frame.Given.{Given};
ghost use Rattle.ln_top.specs.Target.Target.{Belongs};
ghost use Rattle.ln_tree.specs.Table.{pred_of};
ghost use Rattle.ln_trace.specs.Text.{first_line};

use crate::frame::ready::{Ready, short_text};
use crate::frame::status::{Early, End};
use crate::signs::named::one_target;
use crate::signs::records::{Record, RecordWriter, put_lines};
use crate::signs::watching::no_watchers;
use crate::target::Target;
use ln_base::{Console, NoMemory};
use ln_code::{Scratch, Verdict};
use ln_trace::{explain_row, put_refused};
use ln_tree::{Pred, Table};
use std::alloc::Global;

// A predicate whose rows are explained.
#[derive(Drop)]
struct Explainer<'a> {
    target: Target<'a>,
}

impl<'a> RecordWriter for Explainer<'a> {
    type Room = Scratch;

    ghost begins = { λ t. first_line };

    ghost over = { λ t. t.target.pred };

    ghost columns = { λ t. t.target.names };

    ghost knows = { λ t ps. IsSound (pred_of t.target.pred) × (t.target.rank ≡ BySmallest) };

    ghost line = { λ t ps. ExplainLine };

    ghost fits = { λ t s. MadeFor t.target.program s × Belongs t.target.rank t.target.pred t.target.program };

    ghost space = { λ t n. Unit {0} };

    fn head(&self) -> &[u8] {
        b"trace 1\n"
    }

    fn pred(&self) -> &Pred {
        self.target.pred()
    }

    fn table(&self) -> &Table {
        self.target.table()
    }

    fn make_room(&self, alloc: Global) -> Result<Scratch, NoMemory> {
        self.target.scratch(alloc)
    }

    fn add(
        &self,
        room: &mut Scratch,
        number: u32,
        found: Record<'_>,
        text: &mut Vec<u8>,
    ) -> Result<Option<Verdict>, NoMemory> {
        let alloc = *text.allocator();
        match found.read {
            Ok(()) => {
                explain_row(
                    alloc,
                    self.target.program(),
                    room,
                    u64::from(number),
                    found.row,
                    text,
                )?;
                Ok(None)
            }
            Err(_) => {
                put_refused(alloc, text, number)?;
                Ok(None)
            }
        }
    }
}

/// Writes a trace of the records after the header, or refuses the header.
pub fn work<C: Console>(alloc: Global, con: &mut C, ready: &Ready) -> Result<End, Early>
    requires { IsReadyFor explain_signature ready.now }
    ensures { (g : Given) → StandsFor ready.now g → OnConsole C.faults C.shown con.old result con.new
        (CarriesOut (ExplainSaid g) (ExplainPart g) ⊥ ⊥) }
{
    let target = one_target(alloc, ready)?;
    let explainer = Explainer { target };
    put_lines(
        alloc,
        con,
        &explainer,
        short_text(ready),
        no_watchers(alloc),
    )
}
