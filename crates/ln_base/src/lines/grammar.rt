//! What the reader of lines asks of a form of texts.
ghost use Rattle.std.specs.Prelude.{◌≡◌, ◌↔◌, IfOk, IsTrue, MatchOption};
ghost use Rattle.ln_base.specs.Lines.{words};
ghost use Rattle.ln_base.specs.Forms.Form.{IsRead, Refuses};

use crate::NoMemory;
use std::alloc::Global;

/// A form of texts, whose lines are of one type, and the states of another.
pub trait Grammar<S, L> {
    ghost use Rattle.ln_base.specs.Forms.Form.{Rules};

    ghost rules: { Self → Rules S L };

    /// The state in which the lines after the first one start and end.
    fn start(&self) -> S
        ensures { result ≡ (rules self.now).start };

    /// Whether the lines may end in this state.
    fn is_end(&self, state: S) -> bool
        ensures { IsTrue result ↔ (state ≡ (rules self.now).start) };

    /// The line that the bytes are, without their line feed, where the lines so far end in this state, and the next state.
    fn line(&self, alloc: Global, state: S, bytes: &[u8]) -> Result<Option<(L, S)>, NoMemory>
        ensures { IfOk result (λ o. MatchOption o (Refuses (rules self.now) state (words bytes.now))
            (λ x. IsRead (rules self.now) state (words bytes.now) x.0 x.1)) };
}
