//! The rest of a text.
ghost use Rattle.std.specs.Prelude.{◌≡◌};

use std::marker::Model;

/// A text after some of its lines, which contracts see as what those lines end in, the number of the next line and the remaining bytes. None of
/// the lines is kept.
#[derive(Drop)]
pub struct Rest<'a, S: Copy> {
    pub(crate) state: S,
    pub(crate) line: u32,
    pub(crate) text: &'a [u8],
}

impl<'a, S: Copy> Model for Rest<'a, S> {
    ghost use Rattle.ln_base.specs.Forms.Unread.{Unread};

    ghost Value = { Unread S };

    ghost view = { λ r. record { state = r.state; line = r.line; text = r.text.now } };
}

impl<'a, S: Copy> Rest<'a, S> {
    /// Returns the number of the next line; where none remains, it is one more than the text has lines. Allocates nothing.
    pub fn number(&self) -> u32
        ensures { result ≡ self.now.line }
    {
        self.line
    }
}
