//! The watchers of a run. A call that changes them is in the crate of the loops that call it: of another crate's call it would not be known that it
//! adds no watcher of its own to the panel.
ghost use Rattle.std.specs.Prelude.{◌≡◌, ◌≤◌, OnOk, OnErr};
ghost use Rattle.ln_base.specs.Outside.{Rose, appended, counted};
ghost use Rattle.ln_watch.specs.Fold.{tally_after, keep_after, watch_text};
ghost use Rattle.ln_watch.specs.Panel.{states_of, left_after, lines_at, last_lines, feed, FailsAfter, StopsAt};

use ln_base::{Console, Failed, Port, put_all};
use ln_code::Verdict;
use ln_watch::{Keep, Line, Watch};

// Shows a verdict to a watcher.
fn see(watcher: &mut Box<dyn Watch>, row: u64, v: &Verdict) -> Keep
    ensures kind { kind_of watcher.new ≡ kind_of watcher.old }
    ensures tally { tally_of watcher.new ≡ tally_after (kind_of watcher.old) (tally_of watcher.old) row v.now }
    ensures keep { result ≡ keep_after (kind_of watcher.old) (tally_of watcher.old) row v.now }
{
    watcher.see(row, v)
}

// Leaves the text of a watcher in the buffer.
fn line(watcher: &Box<dyn Watch>, buf: &mut Line)
    ensures { buf.new ≡ watch_text (kind_of watcher.now) (tally_of watcher.now) }
{
    watcher.line(buf)
}

// Writes a text and a line feed.
fn put_fed<C: Console>(con: &mut C, port: Port, text: &[u8]) -> Result<(), Failed>
    ensures ok { OnOk result (C.shown con.new ≡ appended port (feed text.now) (C.shown con.old)) }
    ensures err { OnErr result (FailsAfter port (feed text.now) (C.shown con.old) (C.shown con.new)) }
    ensures later { C.faults con.old ≤ C.faults con.new }
    ensures cause { OnErr result (Rose (C.faults con.old) (C.faults con.new)) }
    ensures step { OnErr result (C.faults con.new ≡ counted (C.faults con.old)) }
    ensures fine { OnOk result (C.faults con.new ≡ C.faults con.old) }
{
    put_all(con, port, text)?;
    put_all(con, port, b"\n")
}

// Writes the line of a watcher.
fn put_line<C: Console>(watcher: &Box<dyn Watch>, con: &mut C, port: Port) -> Result<(), Failed>
    ensures ok { OnOk result (C.shown con.new
        ≡ appended port (feed (watch_text (kind_of watcher.now) (tally_of watcher.now))) (C.shown con.old)) }
    ensures err { OnErr result (FailsAfter port (feed (watch_text (kind_of watcher.now) (tally_of watcher.now)))
        (C.shown con.old) (C.shown con.new)) }
    ensures later { C.faults con.old ≤ C.faults con.new }
    ensures cause { OnErr result (Rose (C.faults con.old) (C.faults con.new)) }
    ensures step { OnErr result (C.faults con.new ≡ counted (C.faults con.old)) }
    ensures fine { OnOk result (C.faults con.new ≡ C.faults con.old) }
{
    let mut buf = Line::new();
    line(watcher, &mut buf);
    put_fed(con, port, buf.bytes())
}

/// Boxed watchers, which see each verdict in this order.
#[derive(Drop)]
pub struct Panel {
    pub watchers: Vec<Box<dyn Watch>>,
}

impl Panel {
    /// A panel of these watchers.
    pub fn new(watchers: Vec<Box<dyn Watch>>) -> Panel
        ensures { states_of kind_of tally_of result.watchers.items ≡ states_of kind_of tally_of watchers.items }
    {
        Panel { watchers }
    }

    /// Hands the verdict on the row with this number to each watcher in order. The line of a watcher that is done is written, with a line feed, and
    /// the watcher is dropped at once. A write fails only where the console's count of faults rose; then the watchers up to the one whose line was
    /// being written have seen the verdict, that one is dropped, and the later ones haven't seen it. Allocates nothing.
    pub fn show<C: Console>(
        &mut self,
        row: u64,
        v: &Verdict,
        con: &mut C,
        port: Port,
    ) -> Result<(), Failed>
        ensures left { OnOk result (states_of kind_of tally_of self.new.watchers.items
            ≡ left_after row v.now (states_of kind_of tally_of self.old.watchers.items)) }
        ensures puts { OnOk result (C.shown con.new
            ≡ appended port (lines_at row v.now (states_of kind_of tally_of self.old.watchers.items)) (C.shown con.old)) }
        ensures stops { OnErr result (StopsAt row v.now (states_of kind_of tally_of self.old.watchers.items)
            (states_of kind_of tally_of self.new.watchers.items) port (C.shown con.old) (C.shown con.new)) }
        ensures cause { OnErr result (Rose (C.faults con.old) (C.faults con.new)) }
        ensures step { OnErr result (C.faults con.new ≡ counted (C.faults con.old)) }
        ensures fine { OnOk result (C.faults con.new ≡ C.faults con.old) }
        ensures later { C.faults con.old ≤ C.faults con.new }
    {
        let mut i = 0usize;
        'boxes: while i < self.watchers.len() {
            match see(&mut self.watchers[i], row, v) {
                Keep::Stay => i += 1,
                Keep::Done => {
                    let done = self.watchers.remove(i);
                    put_line(&done, con, port)?;
                }
            }
        }
        Ok(())
    }

    /// Writes the lines of the remaining watchers, in order, each with a line feed, and nothing more after a write that fails. All watchers are
    /// dropped. A write fails only where the console's count of faults rose. Allocates nothing.
    pub fn close<C: Console>(self, con: &mut C, port: Port) -> Result<(), Failed>
        ensures puts { OnOk result (C.shown con.new
            ≡ appended port (last_lines (states_of kind_of tally_of self.watchers.items)) (C.shown con.old)) }
        ensures cut { OnErr result (FailsAfter port (last_lines (states_of kind_of tally_of self.watchers.items))
            (C.shown con.old) (C.shown con.new)) }
        ensures cause { OnErr result (Rose (C.faults con.old) (C.faults con.new)) }
        ensures step { OnErr result (C.faults con.new ≡ counted (C.faults con.old)) }
        ensures fine { OnOk result (C.faults con.new ≡ C.faults con.old) }
        ensures later { C.faults con.old ≤ C.faults con.new }
    {
        'boxes: for watcher in self.watchers.as_slice() {
            put_line(watcher, con, port)?;
        }
        Ok(())
    }
}
