//! Writes to a stream, and numbers in texts.
ghost use Rattle.std.specs.Prelude.{◌≡◌, ◌++◌, ◌↔◌, [], Err, IfOk, IsTrue, decimal};
ghost use Rattle.ln_top.specs.Frame.Said.{OnConsole, line};
ghost use Rattle.ln_top.specs.Frame.Lines.{Sends, WroteBoth};

use crate::frame::status::Early;
use itoa::Buffer;
use ln_base::{Console, NoMemory, Port, put_all};
use std::alloc::Global;

/// Adds bytes, and after them the digits of a number.
pub fn add_number(text: &mut Vec<u8>, front: &[u8], n: u64) -> Result<(), NoMemory>
    ensures { IfOk result (λ x. text.new.items ≡ text.old.items ++ (front.now ++ decimal n)) }
{
    let mut buffer = Buffer::new();
    text.extend_from_slice(front)?;
    text.extend_from_slice(buffer.format(n).as_bytes())?;
    Ok(())
}

// Adds bytes, the digits of a number and a line feed.
pub(crate) fn add_line(text: &mut Vec<u8>, front: &[u8], n: u32) -> Result<(), NoMemory>
    ensures { IfOk result (λ x. text.new.items ≡ text.old.items ++ line (front.now ++ decimal n)) }
{
    add_number(text, front, u64::from(n))?;
    text.push(b'\n')?;
    Ok(())
}

/// Returns the line of a word and a number.
pub fn numbered(alloc: Global, word: &[u8], n: u32) -> Result<Vec<u8>, NoMemory>
    ensures { IfOk result (λ v. v.items ≡ line (word.now ++ decimal n)) }
{
    let mut text = Vec::new(alloc);
    add_line(&mut text, word, n)?;
    Ok(text)
}

/// Writes a text to Out, and returns whether all of it was written.
pub fn put_out<C: Console>(con: &mut C, text: &[u8]) -> bool
    ensures { OnConsole C.faults C.shown con.old result con.new (WroteBoth text.now []) }
{
    match put_all(con, Port::Out, text) {
        Ok(()) => true,
        Err(_) => false,
    }
}

// Did a write fail?
fn has_failed(ran: Result<bool, Early>) -> bool
    ensures { IsTrue result ↔ (ran ≡ Err Early.Write) }
{
    match ran {
        Ok(_) | Err(Early::Read | Early::Memory(_)) => false,
        Err(Early::Write) => true,
    }
}

/// Writes what was gathered, whatever the work came to but a failed write; a fault of this write decides.
pub fn put_rest<C: Console>(
    con: &mut C,
    text: &[u8],
    ran: Result<bool, Early>,
) -> Result<bool, Early>
    ensures { OnConsole C.faults C.shown con.old result con.new (Sends text.now ran) }
{
    if has_failed(ran) {
        return Err(Early::Write);
    }
    if put_out(con, text) {
        ran
    } else {
        Err(Early::Write)
    }
}
