//! The work of `run`: a line for each record after the header, and the lines of the watchers.
ghost use Rattle.std.specs.Prelude.{◌≡◌, ◌≤◌, ◌+◌, ◌++◌, [], ℕ, List, true};
ghost use Rattle.std.specs.Prelude.{vec_len, vec_capacity, IfOk, IsOk, OnOk, OnErr};
ghost use Rattle.ln_algebra.specs.Orders.{BySmallest};
ghost use Rattle.ln_code.specs.Memory.{MadeFor};
ghost use Rattle.ln_top.specs.Frame.Carried.{CarriesOut};
ghost use Rattle.ln_top.specs.Target.Line.{Says, is_bare_record, line_room, said_text};
ghost use Rattle.ln_top.specs.Frame.Ready.{IsReadyFor, StandsFor};
ghost use Rattle.ln_top.specs.Signs.Run.{run_signature, piece_room};
ghost use Rattle.ln_top.specs.Frame.Said.{OnConsole, line};
ghost use Rattle.ln_top.specs.Frame.Given.{Given};
ghost use Rattle.ln_top.specs.Target.Factors.{IsInRangeOf, IsReadOf};
ghost use Rattle.ln_top.specs.Target.Target.{pred_in};
ghost use Rattle.ln_watch.specs.Panel.{states_of};
ghost use Rattle.ln_top.specs.Signs.Signs.{RunLine, RunPart, RunSaid, shown_of};

use crate::frame::ready::{Ready, short_text};
use crate::frame::status::{Early, End};
use crate::signs::named::one_target;
use crate::signs::records::{Record, RecordWriter, put_lines};
use crate::target::Target;
use crate::target::line::add_line;
use ln_base::{Console, NoMemory};
use ln_code::{Scratch, Verdict};
use ln_rows::RowStop;
use ln_tree::{Pred, Table};
use ln_watch::Watch;
use std::alloc::Global;

// Returns the result of the predicate on a record that was read: the verdict on its row, or why the record is invalid.
fn verdict_of(target: &Target<'_>, s: &mut Scratch, found: Record<'_>) -> Result<Verdict, RowStop>
    requires made { MadeFor target.now.program s.old }
    requires range { OnOk found.read (IsInRangeOf target.now.pred found.row.now) }
    ensures says { (fields : List (List ℕ)) → IsReadOf target.now.pred fields found.entry.read found.entry.row.now
        → Says target.now.rank (pred_in target.now) fields result }
    ensures made { MadeFor target.now.program s.new }
{
    match found.read {
        Ok(()) => Ok(target.verdict(s, found.row)),
        Err(stop) => Err(stop),
    }
}

// Returns the verdict on a row; none of a record that is refused.
fn shown_of(said: Result<Verdict, RowStop>) -> Option<Verdict>
    ensures { result ≡ shown_of said }
{
    match said {
        Ok(v) => Some(v),
        Err(_) => None,
    }
}

// Adds the line of a record that was read, and returns what is said of it. Only a line that names a column allocates.
fn add_record(
    target: &Target<'_>,
    s: &mut Scratch,
    found: Record<'_>,
    text: &mut Vec<u8>,
) -> Result<Result<Verdict, RowStop>, NoMemory>
    requires made { MadeFor target.now.program s.old }
    requires range { OnOk found.read (IsInRangeOf target.now.pred found.row.now) }
    requires room { vec_len text.old + line_room ≤ vec_capacity text.old }
    ensures says { IfOk result (λ said. (fields : List (List ℕ)) → IsReadOf target.now.pred fields found.entry.read found.entry.row.now
        → Says target.now.rank (pred_in target.now) fields said) }
    ensures line { IfOk result (λ said. text.new.items ≡ text.old.items ++ line (said_text target.now.names said)) }
    ensures err { OnErr result (text.new.items ≡ text.old.items) }
    ensures made { MadeFor target.now.program s.new }
    ensures room { vec_capacity text.old ≤ vec_capacity text.new }
    ensures steady { (fields : List (List ℕ)) → IsReadOf target.now.pred fields found.entry.read found.entry.row.now
        → is_bare_record (pred_in target.now) fields ≡ true → IsOk result }
{
    let said = verdict_of(target, s, found);
    add_line(*text.allocator(), text, target, said)?;
    Ok(said)
}

impl<'a> RecordWriter for Target<'a> {
    type Room = Scratch;

    ghost begins = { λ t. [] };

    ghost over = { λ t. t.pred };

    ghost columns = { λ t. t.names };

    ghost knows = { λ t ps. Unit {0} };

    ghost line = { λ t ps. RunLine t.rank };

    ghost fits = { λ t s. MadeFor t.program s };

    ghost space = { λ t n. piece_room ≤ n };

    fn head(&self) -> &[u8] {
        b""
    }

    fn pred(&self) -> &Pred {
        Target::pred(self)
    }

    fn table(&self) -> &Table {
        Target::table(self)
    }

    fn make_room(&self, alloc: Global) -> Result<Scratch, NoMemory> {
        self.scratch(alloc)
    }

    fn add(
        &self,
        room: &mut Scratch,
        number: u32,
        found: Record<'_>,
        text: &mut Vec<u8>,
    ) -> Result<Option<Verdict>, NoMemory> {
        let said = add_record(self, room, found, text)?;
        Ok(shown_of(said))
    }
}

/// Writes a line for each record after the header, and the lines of the watchers to Err; or refuses the header.
pub fn work<C: Console>(
    alloc: Global,
    con: &mut C,
    ready: &Ready,
    watchers: Vec<Box<dyn Watch>>,
) -> Result<End, Early>
    requires { IsReadyFor run_signature ready.now }
    ensures { (g : Given) → StandsFor ready.now g
        → OnConsole C.faults C.shown con.old result con.new (CarriesOut (RunSaid BySmallest (states_of kind_of tally_of watchers.items) g)
        (RunPart BySmallest (states_of kind_of tally_of watchers.items) g) ⊥ ⊥) }
{
    let target = one_target(alloc, ready)?;
    put_lines(alloc, con, &target, short_text(ready), watchers)
}
