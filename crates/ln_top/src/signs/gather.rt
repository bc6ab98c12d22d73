//! Lines of records that are gathered, and written in pieces.
ghost use Rattle.std.specs.Prelude.{◌≡◌, ◌<◌, true, vec_len, vec_capacity};
ghost use Rattle.ln_top.specs.Frame.Lines.{Empties};
ghost use Rattle.ln_top.specs.Signs.Run.{end_of, piece};
ghost use Rattle.ln_top.specs.Frame.Said.{OnConsole};

use crate::frame::put::put_out;
use crate::frame::status::End;
use ln_base::Console;

/// This many bytes are gathered before they are written.
pub(crate) const PIECE: usize = 65_536;

/// Writes what is gathered, where that is a piece, and returns whether all of it was written.
pub(crate) fn put_piece<C: Console>(con: &mut C, text: &mut Vec<u8>) -> bool
    ensures empties { OnConsole C.faults C.shown con.old result con.new (Empties text.old.items text.new.items) }
    ensures less { result ≡ true → vec_len text.new < piece }
    ensures room { vec_capacity text.new ≡ vec_capacity text.old }
{
    if text.len() < PIECE {
        return true;
    }
    if !put_out(con, text) {
        return false;
    }
    text.clear();
    true
}

/// Returns the end of work on records: done where all are rows.
pub(crate) fn end_of(good: bool) -> End
    ensures { result ≡ end_of good }
{
    if good { End::Done } else { End::Rows }
}
