//! Reads a trace from its bytes, at once or line by line, or tells at which line the bytes stop being one.
ghost use Rattle.std.specs.Prelude.{◌≡◌, ◌≤◌, IfOk, IfErr, IsTrue, List, length, ◌↔◌};
ghost use Rattle.ln_base.specs.Limits.{most_file};
ghost use Rattle.ln_trace.specs.declared.line.TraceLine.{TraceLine as AnyLine};
ghost use Rattle.ln_trace.specs.Form.{TraceText};
ghost use Rattle.ln_trace.specs.Stop.{Stops};
ghost use Rattle.ln_trace.specs.Text.{first_line};
ghost use Rattle.ln_trace.specs.Unread.{AreLeft, IsOpened};

use crate::line::TraceLine;
use crate::lines::{TraceLines, Traces};
use crate::trace::Trace;
use ln_base::lines::{first_line, opened};
use ln_base::{NoMemory, Seq};
use std::alloc::Global;

/// Why bytes are no trace.
pub use ln_base::lines::TextStop as TraceStop;

fn is_first(first: &[u8]) -> bool
    ensures { IsTrue result ↔ (first.now ≡ first_line) }
{
    first == b"trace 1\n".as_slice()
}

/// The lines of the trace that the bytes are. The form of the whole text is checked first, and no line is kept: each is read once more
/// where it is taken. It takes time in proportion to the number of bytes, and memory for one line.
pub fn trace_lines<'a>(alloc: Global, bytes: &'a [u8]) -> Result<TraceLines<'a>, TraceStop>
    requires { length bytes.now ≤ most_file }
    ensures ok { IfOk result (λ l. IsOpened bytes.now l) }
    ensures err { IfErr result (λ e. Stops bytes.now e) }
{
    let Some((first, behind)) = first_line(bytes) else {
        return Err(TraceStop::Form(1));
    };
    if !is_first(first) {
        return Err(TraceStop::Form(1));
    }
    let rest = opened(alloc, &Traces {}, bytes, behind)?;
    Ok(TraceLines { rest })
}

// All lines that remain.
fn all_lines(alloc: Global, lines: &mut TraceLines<'_>) -> Result<Seq<TraceLine>, NoMemory>
    ensures { IfOk result (λ read. (ls : List AnyLine) → AreLeft lines.old ls → read ≡ ls) }
{
    let mut read = Vec::new(alloc);
    'lines: while let Some(line) = lines.next(alloc)? {
        read.push(line)?;
    }
    Ok(Seq::from_vec(read))
}

/// The trace that the bytes are. It takes time in proportion to their number, and memory for each line.
pub fn read_trace(alloc: Global, bytes: &[u8]) -> Result<Trace, TraceStop>
    requires { length bytes.now ≤ most_file }
    ensures ok { IfOk result (λ t. TraceText bytes.now t) }
    ensures err { IfErr result (λ e. Stops bytes.now e) }
{
    let mut lines = trace_lines(alloc, bytes)?;
    let read = all_lines(alloc, &mut lines)?;
    Ok(Trace::of(read))
}
