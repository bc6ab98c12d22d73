//! The three watchers as one type, and those that the program has.
ghost use Rattle.std.specs.Prelude.{◌≡◌};
ghost use Rattle.ln_watch.specs.Panel.{states_of};
ghost use Rattle.ln_watch.specs.Watchers.{watcher_kind, tally_of as gathered, those_of_gen};

use crate::decider_watch::DeciderWatch;
use crate::first_watch::FirstWatch;
use crate::line::Line;
use crate::sign_watch::SignWatch;
use crate::watch::{Keep, Watch};
use ln_code::Verdict;

/// A watcher of one of the three kinds.
#[derive(Drop)]
pub enum Watcher {
    /// How often each sign came.
    Signs(SignWatch),
    /// The counts of deciders.
    Deciders(DeciderWatch),
    /// The first rows that were perturbed.
    First(FirstWatch),
}

impl Watcher {
    /// Returns the watchers that see the rows of `gen`, in the order in which each verdict is shown to them: of signs, of deciders, and of
    /// the first three perturbed rows. No row has come. Allocates nothing.
    pub fn those_of_gen() -> [Watcher; 3]
        ensures { states_of ⟦<Watcher as Watch>⟧.kind_of ⟦<Watcher as Watch>⟧.tally_of result ≡ those_of_gen }
    {
        [
            Watcher::Signs(SignWatch::new()),
            Watcher::Deciders(DeciderWatch::new()),
            Watcher::First(FirstWatch::new(3)),
        ]
    }
}

impl Watch for Watcher {
    ghost kind_of = { λ w. watcher_kind w };

    ghost tally_of = { λ w. gathered w };

    fn kind(&self) -> u32 {
        match self {
            Watcher::Signs(w) => w.kind(),
            Watcher::Deciders(w) => w.kind(),
            Watcher::First(w) => w.kind(),
        }
    }

    fn see(&mut self, row: u64, v: &Verdict) -> Keep {
        match self {
            Watcher::Signs(w) => w.see(row, v),
            Watcher::Deciders(w) => w.see(row, v),
            Watcher::First(w) => w.see(row, v),
        }
    }

    fn line(&self, buf: &mut Line) {
        match self {
            Watcher::Signs(w) => w.line(buf),
            Watcher::Deciders(w) => w.line(buf),
            Watcher::First(w) => w.line(buf),
        }
    }
}
