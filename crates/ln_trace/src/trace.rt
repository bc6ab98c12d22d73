//! Defines a trace, which holds what each line after the first says.
ghost use Rattle.std.specs.Prelude.{◌≡◌};
ghost use Rattle.ln_trace.specs.Form.{IsKept};

use crate::line::TraceLine;
use ln_base::Seq;
use std::marker::Model;

/// A trace: what each line after the first says, in order. Some bytes, at most 67,108,864, are its text.
#[derive(Drop)]
pub struct Trace {
    read: Seq<TraceLine>,
}

impl Model for Trace {
    ghost use Rattle.std.specs.Prelude.{List};
    ghost use Rattle.ln_trace.specs.declared.line.TraceLine.{TraceLine as AnyLine};
    ghost use Rattle.ln_trace.specs.Form.{IsKept};

    ghost Value = { List AnyLine };

    ghost view = { λ t. t.read };

    ghost invariant = { λ t. IsKept t.read };
}

impl Trace {
    // The trace of these lines.
    pub(crate) fn of(read: Seq<TraceLine>) -> Trace
        requires { IsKept read }
        ensures { result ≡ read }
    {
        Trace { read }
    }

    /// Returns what the lines after the first say: member i, from 0, is line i + 2. Allocates nothing.
    pub fn lines(&self) -> &[TraceLine]
        ensures value { result.now ≡ self.now }
        ensures kept { IsKept self.now }
    {
        self.read.as_slice()
    }
}
