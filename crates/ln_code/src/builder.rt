//! Defines the builder of stack code: operations, each with what bounds it, as they are written.
ghost use Rattle.std.specs.Prelude.{◌≡◌, ◌∷◌, ◌++◌, [], OnErr, OnOk, length};
ghost use Rattle.ln_code.specs.Part.{lines_of};
ghost use Rattle.ln_code.specs.StackCode.{line};

use crate::op::Op;
use ln_base::{NoMemory, Seq};
use std::alloc::Global;
use std::marker::Model;

/// Operations in the order in which they run, each with what bounds the value that it pushes: a pair in a block, a triple in a filter.
#[derive(Drop)]
pub struct Builder<B> {
    ops: Vec<Op>,
    bounds: Vec<B>,
}

impl<B> Model for Builder<B> {
    ghost use Rattle.std.specs.Prelude.{◌≡◌, List, length};
    ghost use Rattle.ln_code.specs.Engine.{Line};
    ghost use Rattle.ln_code.specs.Part.{lines_of};

    ghost Value = { List (Line B) };

    ghost view = { λ b. lines_of b.ops.items b.bounds.items };

    ghost invariant = { λ b. length b.ops.items ≡ length b.bounds.items };
}

/// The operations of a builder, and what bounds each.
#[derive(Drop)]
pub struct Built<B> {
    pub ops: Seq<Op>,
    pub bounds: Seq<B>,
}

impl<B> Builder<B> {
    /// No operations, which allocates nothing.
    pub fn new(alloc: Global) -> Builder<B>
        ensures { result ≡ [] }
    {
        Builder {
            ops: Vec::new(alloc),
            bounds: Vec::new(alloc),
        }
    }

    /// The operations and what bounds each, in the memory that they have.
    pub fn built(self) -> Built<B>
        ensures lines { lines_of result.ops result.bounds ≡ self }
        ensures bounded { length result.ops ≡ length result.bounds }
    {
        let Builder { ops, bounds } = self;
        Built {
            ops: Seq::from_vec(ops),
            bounds: Seq::from_vec(bounds),
        }
    }
}

impl<B: Drop> Builder<B> {
    /// Appends an operation and its bound. Where the allocation fails, nothing is appended.
    #[tactic(auto, using(crate::proofs::Lines::lines_snoc))]
    pub fn push(&mut self, op: Op, bound: B) -> Result<(), NoMemory>
        ensures ok { OnOk result (self.new ≡ self.old ++ line op bound ∷ []) }
        ensures err { OnErr result (self.new ≡ self.old) }
    {
        self.bounds.push(bound)?;
        match self.ops.push(op) {
            Ok(()) => Ok(()),
            Err(e) => {
                let _ = self.bounds.pop();
                Err(e.into())
            }
        }
    }
}
