//! The two streams of a process, standard output and standard error.
ghost use Rattle.std.specs.Prelude.{◌≡◌, ◌≤◌, ◌<◌, None, length, take, IfOk, OnOk, OnErr};
ghost use Rattle.std.specs.Io.{WritesAtMost};
ghost use Rattle.std.specs.Io.KnownBytes.{Appends, WriteAppends};
ghost use Rattle.ln_base.specs.Outside.{Rose, counted};
ghost use Rattle.ln_disk.specs.Flow.{AppendsFront, Goes};

use crate::tries::{Ended, Tries};
use ln_base::{Console, Failed, Port};
use std::io::Write;

/// Two writers, one for each stream. A `put` writes and flushes; where the flush fails, the `put` fails, though the writer took its bytes. Of writers
/// whose bytes are known, the contract of `put` has which bytes they took.
#[derive(Drop)]
pub struct StdConsole<O, E> {
    out: O,
    err: E,
    faults: u64,
}

impl<O: Write, E: Write> StdConsole<O, E> {
    /// Returns the streams that write to these; no fault is counted yet.
    pub fn new(out: O, err: E) -> Self
        ensures { result.faults ≡ 0 }
    {
        StdConsole {
            out,
            err,
            faults: 0,
        }
    }
}

// One write, again where a signal interrupts it.
fn write_once<W: Write>(to: &mut W, bytes: &[u8]) -> Ended
    ensures bound { WritesAtMost result.count bytes.now }
    ensures bytes { WriteAppends (W.contents to.old) (W.contents to.new) result.count bytes.now }
{
    let mut tries = Tries::new();
    loop {
        let answer = to.write(bytes);
        if let Some(end) = tries.end(answer) {
            return end;
        }
    }
}

// Writes until the bytes are at their end or a write fails or takes none of them, and returns how many were taken.
fn write_some<W: Write>(to: &mut W, bytes: &[u8]) -> usize
    ensures bound { result ≤ length bytes.now }
    ensures bytes { Appends (W.contents to.old) (W.contents to.new) (take result bytes.now) }
{
    let mut done = 0usize;
    while done < bytes.len() {
        let n = write_once(to, &bytes[done..]).taken();
        if n == 0 {
            return done;
        }
        done += n;
    }
    done
}

// Writes and flushes. It is a fault that nothing is taken of some bytes, and so is a flush that fails.
fn put_on<W: Write>(to: &mut W, bytes: &[u8]) -> Result<usize, Failed>
    ensures bound { WritesAtMost result bytes.now }
    ensures some { IfOk result (λ n. 0 < length bytes.now → 0 < n) }
    ensures bytes { IfOk result (λ n. Appends (W.contents to.old) (W.contents to.new) (take n bytes.now)) }
    ensures front { OnErr result (AppendsFront (W.contents to.old) (W.contents to.new) bytes.now) }
{
    let done = write_some(to, bytes);
    if done == 0 && !bytes.is_empty() {
        return Err(Failed);
    }
    match to.flush() {
        Ok(()) => Ok(done),
        Err(_) => Err(Failed),
    }
}

impl<O: Write, E: Write> Console for StdConsole<O, E> {
    ghost shown = { λ _. None };

    ghost faults = { λ c. c.faults };

    fn put(&mut self, port: Port, bytes: &[u8]) -> Result<usize, Failed>
        ensures bound { WritesAtMost result bytes.now }
        ensures some { IfOk result (λ n. 0 < length bytes.now → 0 < n) }
        ensures later { self.old.faults ≤ self.new.faults }
        ensures cause { OnErr result (Rose self.old.faults self.new.faults) }
        ensures step { OnErr result (self.new.faults ≡ counted self.old.faults) }
        ensures fine { OnOk result (self.new.faults ≡ self.old.faults) }
        ensures goes { Goes result bytes.now port (O.contents self.old.out) (O.contents self.new.out) (E.contents self.old.err)
            (E.contents self.new.err) }
    {
        let put = match port {
            Port::Out => put_on(&mut self.out, bytes),
            Port::Err => put_on(&mut self.err, bytes),
        };
        if put.is_err() {
            self.faults = self.faults.saturating_add(1);
        }
        put
    }
}
