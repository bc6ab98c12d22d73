//! The lines of a trace, one after the other.
ghost use Rattle.std.specs.Prelude.{◌≡◌, IfOk, OnErr};
ghost use Rattle.ln_trace.specs.Unread.{Takes};

use crate::kinds::is_end;
use crate::line::TraceLine;
use crate::state::State;
use crate::words::line;
use ln_base::NoMemory;
use ln_base::lines::{Grammar, Rest, Source, next};
use std::alloc::Global;
use std::marker::Model;

/// The form of traces.
#[derive(Clone, Copy)]
pub(crate) struct Traces {}

impl Grammar<State, TraceLine> for Traces {
    ghost use Rattle.ln_trace.specs.Reading.{trace_rules};

    ghost rules = { λ _. trace_rules };

    fn start(&self) -> State {
        State::Between
    }

    fn is_end(&self, state: State) -> bool {
        is_end(state)
    }

    fn line(
        &self,
        alloc: Global,
        state: State,
        bytes: &[u8],
    ) -> Result<Option<(TraceLine, State)>, NoMemory> {
        line(alloc, state, bytes)
    }
}

/// The lines of a trace that are still to be read, which contracts see as the text that remains. None of them is kept.
#[derive(Drop)]
pub struct TraceLines<'a> {
    pub(crate) rest: Rest<'a, State>,
}

impl<'a> Model for TraceLines<'a> {
    ghost use Rattle.ln_trace.specs.Unread.{IsUnread, Unread};

    ghost Value = { Unread };

    ghost view = { λ l. l.rest };

    ghost invariant = { λ l. IsUnread l.rest };
}

impl<'a> TraceLines<'a> {
    /// The number of the next line, from 1; where none remains, it is one more than the trace has lines. Allocates nothing.
    pub fn number(&self) -> u32
        ensures { result ≡ self.now.line }
    {
        self.rest.number()
    }

    /// The next line, or none at the end. It takes memory for the exponents of this line alone. After `NoMemory` the same lines
    /// remain.
    pub fn next(&mut self, alloc: Global) -> Result<Option<TraceLine>, NoMemory>
        ensures takes { IfOk result (λ o. Takes self.old o self.new) }
        ensures err { OnErr result (self.new ≡ self.old) }
    {
        next(alloc, &Traces {}, &mut self.rest)
    }
}

impl<'a> Source<TraceLine> for TraceLines<'a> {
    type Taken = TraceLine;

    ghost use Rattle.std.specs.Prelude.{length};
    ghost use Rattle.ln_trace.specs.Unread.{AreLeft};

    ghost line = { λ l. l };

    ghost left = { AreLeft };

    ghost next = { λ u. u.line };

    ghost size = { λ u. length u.text };

    fn number(&self) -> u32 {
        self.number()
    }

    fn take(&mut self, alloc: Global) -> Result<Option<TraceLine>, NoMemory> {
        self.next(alloc)
    }

    fn lent(taken: &TraceLine) -> &TraceLine
        ensures { result.now ≡ taken.now }
    {
        taken
    }
}
