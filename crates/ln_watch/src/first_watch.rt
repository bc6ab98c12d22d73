//! The first rows that were perturbed.
ghost use Rattle.std.specs.Prelude.{◌≡◌, ℕ, ◌+◌, ◌≤◌, List, [], ◌∷◌, ◌++◌, length};
ghost use Rattle.ln_watch.specs.Fold.{is_perturbed, first_after, is_full, rows_text};

use crate::line::Line;
use crate::watch::{Keep, Watch};
use ln_code::{By, Verdict};
use std::marker::Model;

/// The watcher of kind 3: the numbers of the first rows that a stage after stage 0 decided, as many as it wants. It is seen as the
/// list of how many it wants, then the numbers that came.
#[derive(Drop)]
pub struct FirstWatch {
    wanted: u8,
    rows: [u64; 5],
    count: usize,
}

impl Model for FirstWatch {
    ghost use Rattle.std.specs.Prelude.{ℕ, List, ◌∷◌, ◌≤◌, take};

    ghost Value = { List ℕ };

    ghost view = { λ w. w.wanted ∷ take w.count w.rows };

    ghost invariant = { λ w. (w.wanted ≤ 5) × (w.count ≤ w.wanted) };
}

// Whether a stage after stage 0 decided.
fn is_perturbed(by: By) -> bool
    ensures { result ≡ is_perturbed by }
{
    match by {
        By::Stage(place) => place > 0,
        By::Filter | By::Nothing => false,
    }
}

// Appends a space and the number of each row.
fn put_rows(buf: &mut Line, rows: &[u64])
    requires few { length rows.now ≤ 5 }
    requires room { length buf.old ≤ 5 }
    ensures { buf.new ≡ buf.old ++ rows_text rows.now }
{
    'rows: for row in rows {
        buf.put(b" ");
        buf.put_number(*row);
    }
}

impl FirstWatch {
    /// No row has come, and `n` are wanted, from 1 to 5.
    pub fn new(n: u8) -> FirstWatch
        requires { (1 ≤ n) × (n ≤ 5) }
        ensures kind { ⟦<FirstWatch as Watch>⟧.kind_of result ≡ 3 }
        ensures tally { ⟦<FirstWatch as Watch>⟧.tally_of result ≡ n ∷ [] }
    {
        FirstWatch {
            wanted: n,
            rows: [0; 5],
            count: 0,
        }
    }

    // Takes the number of a row that is perturbed and still wanted.
    fn gather(&mut self, row: u64, by: By)
        ensures { self.new ≡ first_after self.old row by }
    {
        if is_perturbed(by) && self.count < usize::from(self.wanted) {
            self.rows[self.count] = row;
            self.count += 1;
        }
    }

    // Returns whether as many are there as are wanted.
    fn is_full(&self) -> bool
        ensures { result ≡ is_full self.now }
    {
        self.count == usize::from(self.wanted)
    }
}

impl Watch for FirstWatch {
    ghost kind_of = { λ _. 3 };

    ghost tally_of = { λ w. w };

    fn kind(&self) -> u32 {
        3
    }

    fn see(&mut self, row: u64, v: &Verdict) -> Keep {
        self.gather(row, v.by);
        if self.is_full() {
            Keep::Done
        } else {
            Keep::Stay
        }
    }

    fn line(&self, buf: &mut Line) {
        buf.clear();
        buf.put(b"first");
        put_rows(buf, &self.rows[..self.count]);
    }
}
