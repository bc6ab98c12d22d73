//! The work of `product`: a line for each record after the header, with the sign of the product of the predicates on its row and what
//! decides each of them. The product isn't formed.
ghost use Rattle.std.specs.Prelude.{◌≡◌, ◌≤◌, [], ℕ, List, OnOk};
ghost use Rattle.ln_tree.specs.Table.{PredOf, pred_of};
ghost use Rattle.ln_top.specs.Frame.Carried.{CarriesOut};
ghost use Rattle.ln_top.specs.Target.Factors.{AreProgramsAt, IsInRangeOf, IsReadOf, IsRoomFor};
ghost use Rattle.ln_top.specs.Target.Line.{with_verdicts};
ghost use Rattle.ln_top.specs.Signs.Product.{ProductPart, ProductSaid, SaysProduct, product_signature, ProductLine};
ghost use Rattle.ln_top.specs.Frame.Ready.{IsReadyFor, StandsFor};
ghost use Rattle.ln_top.specs.Frame.Said.{OnConsole};
ghost use Rattle.ln_top.specs.Frame.Given.{Given};
ghost use Rattle.ln_top.specs.Signs.Run.{piece_room};

use crate::frame::ready::{Ready, short_text};
use crate::frame::status::{Early, End};
use crate::signs::named::product_factors;
use crate::signs::records::{Record, RecordWriter, put_lines};
use crate::signs::watching::no_watchers;
use crate::target::factors::{Factors, Room};
use crate::target::line::add_product_line;
use ln_base::{Console, NoMemory, Sign};
use ln_code::Verdict;
use ln_rows::RowStop;
use ln_tree::{Pred, Table};
use std::alloc::Global;

// Returns the result of the factors on a record that was read: the sign of their product on its row, or why the record is invalid.
fn sign_of(factors: &Factors<'_>, room: &mut Room, found: Record<'_>) -> Result<Sign, RowStop>
    requires room { IsRoomFor factors.now room.old.scratches.items room.old.verdicts.items }
    requires range { OnOk found.read (IsInRangeOf factors.now.pred found.row.now) }
    ensures says { (fields : List (List ℕ)) → IsReadOf factors.now.pred fields found.entry.read found.entry.row.now
        → (ps : List PredOf) → AreProgramsAt factors.now.programs factors.now.which ps
        → SaysProduct (pred_of factors.now.pred) ps fields (with_verdicts room.new.verdicts.items result) }
    ensures room { IsRoomFor factors.now room.new.scratches.items room.new.verdicts.items }
{
    match found.read {
        Ok(()) => Ok(factors.verdicts(room, found.row)),
        Err(stop) => Err(stop),
    }
}

impl<'a> RecordWriter for Factors<'a> {
    type Room = Room;

    ghost begins = { λ t. [] };

    ghost over = { λ t. t.pred };

    ghost columns = { λ t. t.names };

    ghost knows = { λ t ps. AreProgramsAt t.programs t.which ps };

    ghost line = { λ t ps. ProductLine ps };

    ghost fits = { λ t r. IsRoomFor t r.scratches.items r.verdicts.items };

    ghost space = { λ t n. piece_room ≤ n };

    fn head(&self) -> &[u8] {
        b""
    }

    fn pred(&self) -> &Pred {
        Factors::pred(self)
    }

    fn table(&self) -> &Table {
        Factors::table(self)
    }

    fn make_room(&self, alloc: Global) -> Result<Room, NoMemory> {
        Factors::make_room(self, alloc)
    }

    fn add(
        &self,
        room: &mut Room,
        number: u32,
        found: Record<'_>,
        text: &mut Vec<u8>,
    ) -> Result<Option<Verdict>, NoMemory> {
        let said = sign_of(self, room, found);
        add_product_line(
            *text.allocator(),
            self,
            said,
            room.verdicts.as_slice(),
            text,
        )?;
        Ok(None)
    }
}

/// Writes a line for each record after the header, or refuses the header. No operation of a factor's program leaves its width.
pub fn work<C: Console>(alloc: Global, con: &mut C, ready: &Ready) -> Result<End, Early>
    requires { IsReadyFor product_signature ready.now }
    ensures { (g : Given) → StandsFor ready.now g → OnConsole C.faults C.shown con.old result con.new
        (CarriesOut (ProductSaid g) (ProductPart g) ⊥ ⊥) }
{
    let factors = product_factors(alloc, ready)?;
    put_lines(alloc, con, &factors, short_text(ready), no_watchers(alloc))
}
