//! Holds distinct subtrees in order of first sight, each found by its number.
ghost use Rattle.std.specs.Prelude.{◌≡◌, [], IfOk, slice_get};
ghost use Rattle.std.specs.Option.{option_copied};
ghost use Rattle.ln_lower.specs.Distinct.{Added};

use crate::distinct::Key;
use indexmap::IndexSet;
use ln_base::NoMemory;
use std::alloc::Global;
use std::marker::Model;

/// Subtrees in order of first sight, no two of them equal, which contracts see as their list.
#[derive(Drop)]
pub(crate) struct Keys {
    set: IndexSet<Key>,
}

impl Model for Keys {
    ghost use Rattle.std.specs.Prelude.{List};
    ghost use Rattle.ln_lower.specs.declared.distinct.Key.{Key};

    ghost Value = { List Key };

    ghost view = { λ k. k.set.keys };
}

impl Keys {
    /// No subtrees, with room for some.
    pub(crate) fn new(alloc: Global) -> Result<Keys, NoMemory>
        ensures { IfOk result (λ k. k ≡ []) }
    {
        let set = IndexSet::with_capacity(alloc, 32)?;
        Ok(Keys { set })
    }

    /// The subtree with number k, if there is one.
    pub(crate) fn get(&self, k: usize) -> Option<&Key>
        ensures { option_copied result ≡ slice_get self.now k }
    {
        self.set.get_index(k)
    }

    /// The number of a subtree, a new one where it isn't there, and whether it is new.
    #[tactic(auto, using(crate::proofs::Subtrees::KeyLaws::key_added))]
    pub(crate) fn insert(&mut self, key: Key) -> Result<(usize, bool), NoMemory>
        ensures { IfOk result (λ r. Added self.old self.new r.0 key) }
    {
        let (k, is_new) = self.set.insert_full(key)?;
        Ok((k, is_new))
    }
}
