//! First words, by what the lines so far end in.
ghost use Rattle.std.specs.Prelude.{◌≡◌, ◌↔◌, IsTrue};
ghost use Rattle.ln_trace.specs.Reading.{after, kind_in};
ghost use Rattle.ln_trace.specs.declared.state.State.TheVariants.{Between};

use crate::state::{Kind, State};
use ln_base::lines::{either, only};

/// The kind of the line that begins with this word, where the lines so far end in this.
pub fn kind(state: State, w: &[u8]) -> Option<Kind>
    ensures { result ≡ kind_in state w.now }
{
    match state {
        State::Between => either(w, b"refused", Kind::Refused, b"row", Kind::Row),
        State::Opened => only(w, b"at", Kind::At),
        State::Within => either(w, b"at", Kind::At, b"sign", Kind::Sign),
    }
}

/// Returns what the lines end in after a line of this kind.
pub fn after(kind: Kind) -> State
    ensures { result ≡ after kind }
{
    match kind {
        Kind::Refused | Kind::Sign => State::Between,
        Kind::Row => State::Opened,
        Kind::At => State::Within,
    }
}

/// Whether the lines may end here.
pub fn is_end(state: State) -> bool
    ensures { IsTrue result ↔ (state ≡ Between) }
{
    match state {
        State::Between => true,
        State::Opened | State::Within => false,
    }
}
