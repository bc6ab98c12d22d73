//! How often each sign came.
ghost use Rattle.std.specs.Prelude.{◌≡◌, ◌+◌, [], ◌∷◌};

use crate::line::Line;
use crate::watch::{Keep, Watch};
use ln_base::Sign;
use ln_code::Verdict;

/// The watcher of kind 1: the counts of `+`, `0` and `-`. A count stays at `2^64 - 1` once there.
#[derive(Drop)]
pub struct SignWatch {
    plus: u64,
    zero: u64,
    minus: u64,
}

impl SignWatch {
    /// No sign has come.
    pub fn new() -> SignWatch
        ensures kind { ⟦<SignWatch as Watch>⟧.kind_of result ≡ 1 }
        ensures tally { ⟦<SignWatch as Watch>⟧.tally_of result ≡ 0 ∷ 0 ∷ 0 ∷ [] }
    {
        SignWatch {
            plus: 0,
            zero: 0,
            minus: 0,
        }
    }
}

impl Watch for SignWatch {
    ghost kind_of = { λ _. 1 };

    ghost tally_of = { λ w. w.plus ∷ w.zero ∷ w.minus ∷ [] };

    fn kind(&self) -> u32 {
        1
    }

    fn see(&mut self, _row: u64, v: &Verdict) -> Keep {
        match v.sign {
            Sign::Plus => self.plus = self.plus.saturating_add(1),
            Sign::Zero => self.zero = self.zero.saturating_add(1),
            Sign::Minus => self.minus = self.minus.saturating_add(1),
        }
        Keep::Stay
    }

    fn line(&self, buf: &mut Line) {
        buf.clear();
        buf.put(b"signs + ");
        buf.put_number(self.plus);
        buf.put(b" 0 ");
        buf.put_number(self.zero);
        buf.put(b" - ");
        buf.put_number(self.minus);
    }
}
