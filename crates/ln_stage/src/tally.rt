//! What is kept while stages are listed.
ghost use Rattle.std.specs.Prelude.{◌≡◌, ◌<◌, ◌≤◌, ◌+◌, ◌^◌, ◌==◌, IfOk, IfErr, OnOk, length, [], if◌then◌else◌};
ghost use Rattle.indexmap.specs.IndexMap.{keys};
ghost use Rattle.ln_stage.specs.Tally.{IsOver, IsStoppedBy, next_list, number_in, put_exps, see};

use crate::stop::StageStop;
use indexmap::IndexMap;
use ln_base::{NoMemory, Seq};
use ln_tree::Exps;
use std::alloc::Global;
use std::marker::Model;

// Where memory comes from; the blocks so far, by their exponents in order of first sight; the numbers of the list at hand; how many
// stages so far in all lists; how many monomials cover each block, taken together; and the limits of both.
#[derive(Drop)]
pub(crate) struct Tally {
    alloc: Global,
    blocks: IndexMap<Exps, ()>,
    list: Vec<u32>,
    count: u64,
    weight: u64,
    most: u64,
    heavy: u64,
}

impl Model for Tally {
    ghost use Rattle.std.specs.Prelude.{◌<◌, ◌≤◌, ◌^◌, length};
    ghost use Rattle.indexmap.specs.IndexMap.{keys};
    ghost use Rattle.ln_stage.specs.Tally.{Tallied};

    ghost Value = { Tallied };

    ghost view = { λ t. record {
      exps = keys t.blocks;
      list = t.list.items;
      count = t.count;
      weight = t.weight;
      most = t.most;
      heavy = t.heavy;
    } };

    ghost invariant = { λ t. record {
      counted : t.count ≤ t.most;
      weighed : t.weight ≤ t.heavy;
      light : t.heavy < 2 ^ 32;
      few : length (keys t.blocks) ≤ t.weight;
    } };
}

impl Tally {
    // Nothing yet.
    pub(crate) fn new(alloc: Global, most: u64, heavy: u64) -> Tally
        requires { heavy < 2 ^ 32 }
        ensures { result ≡ record { exps = []; list = []; count = 0; weight = 0; most = most; heavy = heavy } }
    {
        Tally {
            alloc,
            blocks: IndexMap::new(alloc),
            list: Vec::new(alloc),
            count: 0,
            weight: 0,
            most,
            heavy,
        }
    }

    // The number of the block with these exponents, which `cover` monomials cover; a new block is appended.
    fn number(&mut self, a: Exps, cover: usize) -> Result<u32, StageStop>
        requires { 0 < cover }
        ensures ok { IfOk result (λ i. i ≡ number_in self.old.exps a) }
        ensures blocks { OnOk result (self.new ≡ record self.old {
          exps = put_exps self.old.exps a;
          weight = if number_in self.old.exps a == length self.old.exps then self.old.weight + cover else self.old.weight;
        }) }
        ensures err { IfErr result (λ e. IsStoppedBy e
            (self.old.heavy < (if number_in self.old.exps a == length self.old.exps then self.old.weight + cover
            else self.old.weight))) }
    {
        if let Some(i) = self.blocks.get_index_of(&a) {
            drop(a);
            return Ok(i as u32);
        }
        let cover = cover as u64;
        if cover > self.heavy - self.weight {
            drop(a);
            return Err(StageStop::Stages);
        }
        let (i, _) = self.blocks.insert_full(a, ())?;
        self.weight += cover;
        Ok(i as u32)
    }

    // Appends a stage with these exponents, which `cover` monomials cover, to the current list.
    pub(crate) fn see(&mut self, a: Exps, cover: usize) -> Result<(), StageStop>
        requires { 0 < cover }
        ensures ok { OnOk result (self.new ≡ see cover self.old a) }
        ensures err { IfErr result (λ e. IsStoppedBy e (IsOver (see cover self.old a))) }
    {
        if self.count == self.most {
            drop(a);
            return Err(StageStop::Stages);
        }
        let number = self.number(a, cover)?;
        self.list.push(number)?;
        self.count += 1;
        Ok(())
    }

    // The blocks; their weight is within its limit.
    pub(crate) fn into_blocks(self) -> Result<Seq<Exps>, NoMemory>
        ensures within { self.weight ≤ self.heavy }
        ensures blocks { IfOk result (λ bs. bs ≡ self.exps) }
    {
        let blocks = self.blocks.into_keys().collect(self.alloc)?;
        Ok(Seq::from_vec(blocks))
    }

    // Where memory comes from.
    pub(crate) fn alloc(&self) -> Global {
        self.alloc
    }

    // The list at hand, after which a new one is begun.
    pub(crate) fn take_list(&mut self) -> Seq<u32>
        ensures list { result ≡ self.old.list }
        ensures rest { self.new ≡ next_list self.old }
    {
        let list = std::mem::replace(&mut self.list, Vec::new(self.alloc));
        Seq::from_vec(list)
    }
}
