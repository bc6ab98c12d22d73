//! The programs of a source.
ghost use Rattle.std.specs.Prelude.{◌≡◌, ◌≢◌, ◌≤◌, ◌∷◌, ◌++◌, [], All, OnOk, OnErr, length};
ghost use Rattle.ln_base.specs.Limits.{most_stages};
ghost use Rattle.ln_tree.specs.Names.{name_bytes};
ghost use Rattle.ln_code.specs.Part.{Part};
ghost use Rattle.ln_code.specs.Kept.{ArePrograms};

use crate::program::Program;
use ln_base::{NoMemory, Seq};
use std::alloc::Global;
use std::marker::Model;

/// A list of programs whose names differ, byte for byte. Each program has at most 65,536 blocks.
#[derive(Drop)]
pub struct Programs {
    programs: Seq<Program>,
}

impl Model for Programs {
    ghost use Rattle.std.specs.Prelude.{List};
    ghost use Rattle.ln_code.specs.Part.{Part};
    ghost use Rattle.ln_code.specs.Kept.{ArePrograms};

    ghost Value = { List Part };

    ghost view = { λ p. p.programs };

    ghost invariant = { λ p. ArePrograms p.programs };
}

impl Programs {
    /// No program. It allocates nothing.
    pub fn new(alloc: Global) -> Programs
        ensures { result ≡ [] }
    {
        Programs {
            programs: Seq::new(alloc),
        }
    }

    /// Appends a program. Where the allocation fails, the program is dropped and the list is unchanged.
    pub fn push(&mut self, p: Program) -> Result<(), NoMemory>
        requires name { All (λ q. name_bytes q.shape.name ≢ name_bytes p.shape.name) self.old }
        requires small { length p.blocks ≤ most_stages }
        ensures ok { OnOk result (self.new ≡ self.old ++ p ∷ []) }
        ensures err { OnErr result (self.new ≡ self.old) }
    {
        self.programs.push(p)
    }

    /// The programs, lent.
    pub fn as_slice(&self) -> &[Program]
        ensures value { result.now ≡ self.now }
        ensures kept { ArePrograms self.now }
    {
        self.programs.as_slice()
    }
}
