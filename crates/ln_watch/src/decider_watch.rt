//! Counts the rows by what decided them: the filter, stage 0, a later stage, or nothing.
ghost use Rattle.std.specs.Prelude.{◌≡◌, [], ◌∷◌};

use crate::line::Line;
use crate::watch::{Keep, Watch};
use ln_code::{By, Verdict};

/// The watcher of kind 2: the counts of rows that the filter decided, stage 0, a later stage and nothing, and the largest place of a
/// stage that decided one. A count stays at `2^64 - 1` once there.
#[derive(Drop)]
pub struct DeciderWatch {
    filter: u64,
    plain: u64,
    stages: u64,
    nothing: u64,
    deepest: u32,
}

impl DeciderWatch {
    /// No row was decided.
    pub fn new() -> DeciderWatch
        ensures kind { ⟦<DeciderWatch as Watch>⟧.kind_of result ≡ 2 }
        ensures tally { ⟦<DeciderWatch as Watch>⟧.tally_of result ≡ 0 ∷ 0 ∷ 0 ∷ 0 ∷ 0 ∷ [] }
    {
        DeciderWatch {
            filter: 0,
            plain: 0,
            stages: 0,
            nothing: 0,
            deepest: 0,
        }
    }
}

impl Watch for DeciderWatch {
    ghost kind_of = { λ _. 2 };

    ghost tally_of = { λ w. w.filter ∷ w.plain ∷ w.stages ∷ w.nothing ∷ w.deepest ∷ [] };

    fn kind(&self) -> u32 {
        2
    }

    fn see(&mut self, _row: u64, v: &Verdict) -> Keep {
        match v.by {
            By::Filter => self.filter = self.filter.saturating_add(1),
            By::Stage(0) => self.plain = self.plain.saturating_add(1),
            By::Stage(place) => {
                self.stages = self.stages.saturating_add(1);
                self.deepest = self.deepest.max(place);
            }
            By::Nothing => self.nothing = self.nothing.saturating_add(1),
        }
        Keep::Stay
    }

    fn line(&self, buf: &mut Line) {
        buf.clear();
        buf.put(b"deciders filter ");
        buf.put_number(self.filter);
        buf.put(b" plain ");
        buf.put_number(self.plain);
        buf.put(b" stages ");
        buf.put_number(self.stages);
        buf.put(b" none ");
        buf.put_number(self.nothing);
        buf.put(b" deepest ");
        buf.put_number(u64::from(self.deepest));
    }
}
