//! Reads and writes that a signal may interrupt, which are tried again.
ghost use Rattle.std.specs.Prelude.{◌≡◌, MatchResult};
ghost use Rattle.ln_disk.specs.Tries.{Ends};

use ln_base::Failed;
use std::io;
use std::io::ErrorKind;

/// How a read or a write ended: how many bytes it took, or that it failed. It is made of an answer of the call that no signal interrupted.
#[derive(Clone, Copy)]
pub(crate) struct Ended {
    count: Result<usize, Failed>,
}

impl Ended {
    /// How many bytes it took.
    pub(crate) fn count(self) -> Result<usize, Failed>
        ensures { result ≡ self.count }
    {
        self.count
    }

    /// How many bytes it took; none where it failed.
    pub(crate) fn taken(self) -> usize
        ensures { MatchResult self.count (λ n. result ≡ n) (λ _. result ≡ 0) }
    {
        match self.count {
            Ok(n) => n,
            Err(_) => 0,
        }
    }
}

/// How often in a row a signal interrupted a read or a write.
#[derive(Drop)]
pub(crate) struct Tries {
    interrupted: u64,
}

impl Tries {
    /// No try so far.
    pub(crate) fn new() -> Tries
        ensures { result.interrupted ≡ 0 }
    {
        Tries { interrupted: 0 }
    }

    /// How the call ended that gave this answer; none where a signal interrupted it, and it is tried again. One that was interrupted `2^64` times
    /// in a row has failed.
    pub(crate) fn end(&mut self, answer: io::Result<usize>) -> Option<Ended>
        ensures { Ends answer self.old.interrupted self.new.interrupted result }
    {
        match answer {
            Ok(n) => Some(Ended { count: Ok(n) }),
            Err(e) => {
                if e.kind() == ErrorKind::Interrupted && self.interrupted < u64::MAX {
                    self.interrupted += 1;
                    return None;
                }
                Some(Ended { count: Err(Failed) })
            }
        }
    }
}
