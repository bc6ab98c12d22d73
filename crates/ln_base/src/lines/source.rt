//! Lines that are taken one after the other, of a text or of a list.
ghost use Rattle.std.specs.Prelude.{◌≡◌, ◌+◌, ◌<◌, ℕ, List, IfOk, length};
ghost use Rattle.ln_base.specs.Forms.Source.{Takes};

use crate::NoMemory;
use std::alloc::Global;

/// Where lines are taken, one after the other. Contracts see which lines are left, the number of the next one, and how much is left.
pub trait Source<L> {
    /// A line that was taken: owned, or lent.
    type Taken: Drop;

    ghost line: { Self.Taken → L };

    ghost left: { Self → List L → Type 0 };

    ghost next: { Self → ℕ };

    ghost size: { Self → ℕ };

    /// The number of the next line; where none is left, it is one more than there are lines. Allocates nothing.
    fn number(&self) -> u32
        ensures { result ≡ next self.now };

    /// Takes the next line, or none at the end.
    fn take(&mut self, alloc: Global) -> Result<Option<Self::Taken>, NoMemory>
        ensures { IfOk result (λ o. Takes line left next size self.old o self.new) };

    /// A line that was taken.
    fn lent(taken: &Self::Taken) -> &L
        ensures { result.now ≡ line taken.now };
}

/// The lines that are left of a list, and the number of the first of them.
#[derive(Drop)]
pub struct Held<'a, L> {
    pub lines: &'a [L],
    pub number: u32,
    ghost few: { number + length lines.now < 4294967296 },
}

impl<'a, L> Held<'a, L> {
    /// The lines of a list, which come after the first line of a text.
    pub fn of(lines: &'a [L]) -> Held<'a, L>
        requires { length lines.now < 4294967294 }
        ensures lines { result.lines.now ≡ lines.now }
        ensures second { result.number ≡ 2 }
    {
        Held { lines, number: 2 }
    }
}

impl<'a, L> Source<L> for Held<'a, L> {
    type Taken = &'a L;

    ghost line = { λ t. t.now };

    ghost left = { λ h ls. h.lines.now ≡ ls };

    ghost next = { λ h. h.number };

    ghost size = { λ h. length h.lines.now };

    fn number(&self) -> u32 {
        self.number
    }

    fn take(&mut self, _alloc: Global) -> Result<Option<&'a L>, NoMemory> {
        if self.lines.len() == 0 {
            return Ok(None);
        }
        let first = &self.lines[0];
        *self = Held {
            lines: &self.lines[1..],
            number: self.number + 1,
        };
        Ok(Some(first))
    }

    fn lent<'b>(taken: &'b &'a L) -> &'b L {
        taken
    }
}
