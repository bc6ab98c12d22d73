//! Defines what a watcher is: it has a kind, gathers a tally, and tells after each verdict whether it stays.
ghost use Rattle.std.specs.Prelude.{◌≡◌, ℕ, List};
ghost use Rattle.ln_watch.specs.Fold.{tally_after, keep_after, watch_text};

use crate::line::Line;
use ln_code::Verdict;

/// Whether a watcher stays after a verdict.
#[derive(Clone, Copy, PartialEq, Eq)]
pub enum Keep {
    /// It wants to see the next one.
    Stay,
    /// It has seen enough.
    Done,
}

/// A watcher of verdicts. It has a kind and a tally, and its steps and its text are those of its kind; a watcher of a kind that isn't
/// in the table gathers nothing that its text could say. No call allocates or fails.
pub trait Watch: Drop {
    // The number of the kind, which no call changes.
    ghost kind_of: { Self → ℕ };

    // The tally that was gathered.
    ghost tally_of: { Self → List ℕ };

    /// The number of the kind.
    fn kind(&self) -> u32
        ensures { result ≡ kind_of self.now };

    /// Sees the verdict on the row with this number, and returns whether it stays.
    fn see(&mut self, row: u64, v: &Verdict) -> Keep
        ensures kind { kind_of self.new ≡ kind_of self.old }
        ensures tally { tally_of self.new ≡ tally_after (kind_of self.old) (tally_of self.old) row v.now }
        ensures keep { result ≡ keep_after (kind_of self.old) (tally_of self.old) row v.now };

    /// Leaves the text of what was gathered in the buffer, whatever stood there.
    fn line(&self, buf: &mut Line)
        ensures { buf.new ≡ watch_text (kind_of self.now) (tally_of self.now) };
}
