//! Bytes that are gathered until memory for more of them is refused.
ghost use Rattle.std.specs.Prelude.{◌≡◌, [], ◌++◌, false, true, length, OnErr, OnOk};

use crate::outside::NoMemory;
use std::alloc::Global;
use std::marker::Model;

/// Bytes in memory, and whether memory for more of them was refused.
#[derive(Drop)]
pub(crate) struct Gathered {
    bytes: Vec<u8>,
    refused: bool,
}

impl Model for Gathered {
    ghost use Rattle.ln_base.specs.Whole.{Gathering};

    ghost Value = { Gathering };

    ghost view = { λ g. record { items = g.bytes.items; refused = g.refused } };
}

impl Gathered {
    /// No bytes, and no memory asked for.
    pub(crate) fn new(alloc: Global) -> Gathered
        ensures items { result.items ≡ [] }
        ensures refused { result.refused ≡ false }
    {
        Gathered {
            bytes: Vec::new(alloc),
            refused: false,
        }
    }

    /// Appends bytes. It fails only where memory for them is refused, and notes that.
    pub(crate) fn add(&mut self, more: &[u8]) -> Result<(), NoMemory>
        ensures items { OnOk result (self.new.items ≡ self.old.items ++ more.now) }
        ensures given { OnOk result (self.new.refused ≡ self.old.refused) }
        ensures refused { OnErr result (self.new.refused ≡ true) }
    {
        match self.bytes.extend_from_slice(more) {
            Ok(()) => Ok(()),
            Err(e) => {
                self.refused = true;
                Err(NoMemory::from(e))
            }
        }
    }

    /// How many bytes there are.
    pub(crate) fn len(&self) -> usize
        ensures { result ≡ length self.now.items }
    {
        self.bytes.len()
    }

    /// The bytes.
    pub(crate) fn into_bytes(self) -> Vec<u8>
        ensures { result.items ≡ self.items }
    {
        self.bytes
    }
}
