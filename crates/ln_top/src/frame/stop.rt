//! Why a command stops before its work, and the writing of whole texts.
ghost use Rattle.std.specs.Prelude.{◌≡◌, ◌≢◌, ◌++◌, IfOk};
ghost use Rattle.ln_base.specs.Outside.{refused};
ghost use Rattle.ln_top.specs.Frame.Said.{OnConsole, line};
ghost use Rattle.ln_top.specs.Frame.Stop.{placed_text, why_end};
ghost use Rattle.ln_top.specs.Frame.Carried.{PutsText, Says, stop_line, stop_result};

use crate::frame::put::{add_line, add_number, numbered};
use crate::frame::status::{Early, End};
use ln_base::{Console, NoMemory, Port, put_all};
use ln_compile::Refusal;
use std::alloc::{AllocFailed, Global};

/// The line and the column of a byte of the source, from 1.
#[derive(Clone, Copy)]
pub struct Place {
    pub line: u32,
    pub col: u32,
}

/// A stop that is required, with its line.
#[derive(Clone, Copy)]
pub enum Why {
    /// The words are no command.
    Usage,
    /// A file has more bytes than its limit.
    TooLong,
    /// The source is refused for this, at this place.
    Refused(Refusal, Place),
    /// The named predicate, whose name is at this place, has too many stages by total degree.
    Stages(Place),
    /// The source has no predicate of a name.
    NoPredicate,
    /// The first record isn't the columns' names.
    Header,
    /// The arguments of the named predicates are not those that the command takes.
    Shape,
    /// There are too many records.
    Many,
    /// The record of this number, from 1, is the first that is no point.
    Point(u32),
}

/// Why a command stops.
#[derive(Clone, Copy)]
pub enum Stop {
    /// A line says why.
    Tell(Why),
    /// A file wasn't read.
    Read,
    /// Memory ran out.
    Memory(NoMemory),
}

impl From<NoMemory> for Stop {
    ghost use Rattle.ln_top.specs.declared.frame.stop.Stop.TheVariants.{Memory};
    ghost use Rattle.ln_base.specs.Outside.{refused};

    ghost from_gives = { λ _ e. e ≡ Memory refused };

    fn from(e: NoMemory) -> Self {
        Stop::Memory(e)
    }
}

impl<T: Drop> From<AllocFailed<T>> for Stop {
    ghost use Rattle.ln_top.specs.declared.frame.stop.Stop.TheVariants.{Memory};
    ghost use Rattle.ln_base.specs.Outside.{refused};

    ghost from_gives = { λ _ e. e ≡ Memory refused };

    fn from(e: AllocFailed<T>) -> Self {
        Stop::Memory(NoMemory::from(e))
    }
}

impl Why {
    /// How a command ends that stops so.
    pub fn end(self) -> End
        ensures { result ≡ why_end self }
    {
        match self {
            Why::Usage => End::Usage,
            Why::TooLong => End::TooLong,
            Why::Refused(..) => End::Refused,
            Why::Stages(_) => End::Refused,
            Why::NoPredicate => End::NoPredicate,
            Why::Header => End::Rows,
            Why::Shape => End::Shape,
            Why::Many => End::Many,
            Why::Point(_) => End::Rows,
        }
    }
}

// Adds `error WORD LINE:COL` and a line feed.
fn add_placed(text: &mut Vec<u8>, word: &str, place: Place) -> Result<(), NoMemory>
    ensures { IfOk result (λ x. text.new.items ≡ text.old.items ++ line (placed_text word.now place)) }
{
    text.extend_from_slice(b"error ")?;
    text.extend_from_slice(word.as_bytes())?;
    add_number(text, b" ", u64::from(place.line))?;
    add_line(text, b":", place.col)
}

fn placed_line(alloc: Global, word: &str, place: Place) -> Result<Vec<u8>, NoMemory>
    ensures { IfOk result (λ v. v.items ≡ line (placed_text word.now place)) }
{
    let mut text = Vec::new(alloc);
    add_placed(&mut text, word, place)?;
    Ok(text)
}

// Returns how a stop ends.
fn stop_result(stop: Stop) -> Result<End, Early>
    ensures { result ≡ stop_result stop }
{
    match stop {
        Stop::Tell(why) => Ok(why.end()),
        Stop::Read => Err(Early::Read),
        Stop::Memory(e) => Err(Early::Memory(e)),
    }
}

// Writes the line of a stop.
fn put_line<C: Console>(con: &mut C, stop: Stop, text: &[u8]) -> Result<End, Early>
    requires line { text.now ≡ stop_line stop }
    requires some { stop ≢ Stop.Memory refused }
    ensures { OnConsole C.faults C.shown con.old result con.new (Says stop) }
{
    match put_all(con, Port::Err, text) {
        Ok(()) => stop_result(stop),
        Err(_) => Err(Early::Write),
    }
}

// Writes the line of a stop where it could be made.
fn put_made<C: Console>(
    con: &mut C,
    stop: Stop,
    made: Result<Vec<u8>, NoMemory>,
) -> Result<End, Early>
    requires line { IfOk made (λ v. v.items ≡ stop_line stop) }
    requires some { stop ≢ Stop.Memory refused }
    requires read { stop ≢ Stop.Read }
    ensures { OnConsole C.faults C.shown con.old result con.new (Says stop) }
{
    match made {
        Ok(text) => put_line(con, stop, &text),
        Err(e) => Err(Early::Memory(e)),
    }
}

/// Writes the line of a stop to Err. Only one with a place or a number allocates.
pub fn say<C: Console>(alloc: Global, con: &mut C, stop: Stop) -> Result<End, Early>
    ensures { OnConsole C.faults C.shown con.old result con.new (Says stop) }
{
    let text: &[u8] = match stop {
        Stop::Read => b"error read\n",
        Stop::Memory(e) => return Err(Early::Memory(e)),
        Stop::Tell(Why::Usage) => b"error usage\n",
        Stop::Tell(Why::TooLong) => b"error long\n",
        Stop::Tell(Why::NoPredicate) => b"error predicate\n",
        Stop::Tell(Why::Header) => b"error header\n",
        Stop::Tell(Why::Shape) => b"error shape\n",
        Stop::Tell(Why::Many) => b"error many\n",
        Stop::Tell(Why::Point(n)) => {
            return put_made(con, stop, numbered(alloc, b"error point ", n));
        }
        Stop::Tell(Why::Refused(r, place)) => {
            return put_made(con, stop, placed_line(alloc, r.word(), place));
        }
        Stop::Tell(Why::Stages(place)) => {
            return put_made(con, stop, placed_line(alloc, "stages", place));
        }
    };
    put_line(con, stop, text)
}

/// Writes a whole text to Out.
pub fn put_text<C: Console>(con: &mut C, text: &[u8], end: End) -> Result<End, Early>
    ensures { OnConsole C.faults C.shown con.old result con.new (PutsText text.now end) }
{
    match put_all(con, Port::Out, text) {
        Ok(()) => Ok(end),
        Err(_) => Err(Early::Write),
    }
}
