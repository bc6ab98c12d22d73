//! Defines blocks: the operations that compute one scaled derivative, sealed with the ranges that bound each value.
ghost use Rattle.std.specs.Prelude.{◌≡◌, ◌<◌, map, IfOk};
ghost use Rattle.ln_interval.specs.View.{range};
ghost use Rattle.ln_code.specs.Part.{Code, is_wide, wide_in};
ghost use Rattle.ln_code.specs.Kept.{IsBlock};

use crate::op::Op;
use ln_base::{NoMemory, Seq};
use ln_bound::Width;
use ln_interval::Pair;
use ln_tree::Exps;
use std::alloc::Global;
use std::marker::Model;

/// A block: the exponents of its derivative, and the operations that compute it, each with the pair of the values that it may
/// push. It needs a stack of at most 2,048 places and follows the rules on pairs, sizes, widths and stacks: each pair covers its
/// operation over its operands' pairs and fits its width, no running size exceeds `2^127 - 1`, no operand is wider than its operation,
/// and one value remains in the end. A `Set` has the pair 0 .. 0.
#[derive(Drop)]
pub struct Block {
    exps: Exps,
    ops: Seq<Op>,
    pairs: Seq<Pair>,
    depth: u32,
    wide: usize,
}

impl Model for Block {
    ghost use Rattle.std.specs.Prelude.{◌≡◌, map};
    ghost use Rattle.ln_interval.specs.View.{range};
    ghost use Rattle.ln_code.specs.Part.{Code, wide_in};
    ghost use Rattle.ln_code.specs.Kept.{IsBlock};

    ghost Value = { Code };

    ghost view = { λ b. record { exps = b.exps; ops = b.ops; pairs = map range b.pairs; depth = b.depth } };

    ghost invariant = { λ b. IsBlock (record { exps = b.exps; ops = b.ops; pairs = map range b.pairs; depth = b.depth })
        × (b.wide ≡ wide_in b.ops) };
}

fn is_wide(op: &Op) -> bool
    ensures { result ≡ is_wide op.now }
{
    match op {
        Op::Add(w) | Op::Sub(w) | Op::Mul(w) | Op::Neg(w) => *w == Width::W128,
        Op::Push(_) | Op::Input(_) | Op::Get(_) | Op::Set(_) | Op::Cut(_) => false,
    }
}

fn wide_in(ops: &[Op]) -> usize
    ensures { result ≡ wide_in ops.now }
{
    ops.iter().filter(|op| is_wide(op)).count()
}

// The list without spare room after its items: a program may keep tens of thousands of short ones.
pub(crate) fn tight<T>(items: Seq<T>) -> Seq<T>
    ensures { result ≡ items }
{
    let mut items = items.into_vec();
    items.shrink_to_fit();
    Seq::from_vec(items)
}

impl Block {
    /// The block of these parts. It allocates nothing.
    pub fn seal(exps: Exps, ops: Seq<Op>, pairs: Seq<Pair>, depth: u32) -> Block
        requires { IsBlock (record { exps = exps; ops = ops; pairs = map range pairs; depth = depth }) }
        ensures { result ≡ record { exps = exps; ops = ops; pairs = map range pairs; depth = depth } }
    {
        let wide = wide_in(ops.as_slice());
        Block {
            exps,
            ops: tight(ops),
            pairs: tight(pairs),
            depth,
            wide,
        }
    }

    /// The exponents of the derivative that it computes.
    pub fn exps(&self) -> &Exps
        ensures { result.now ≡ self.now.exps }
    {
        &self.exps
    }

    /// Its operations, in order.
    pub fn ops(&self) -> &[Op]
        ensures { result.now ≡ self.now.ops }
    {
        self.ops.as_slice()
    }

    /// For each operation the pair of the values that it may push; 0 .. 0 for a `Set`.
    pub fn pairs(&self) -> &[Pair]
        ensures value { map range result.now ≡ self.now.pairs }
        ensures kept { IsBlock self.now }
    {
        self.pairs.as_slice()
    }

    /// An equal block.
    pub fn copy(&self, alloc: Global) -> Result<Block, NoMemory>
        ensures { IfOk result (λ b. b ≡ self.now) }
    {
        let exps = self.exps.copy(alloc)?;
        let ops = self.ops.as_slice().to_vec(alloc)?;
        let pairs = self.pairs.as_slice().to_vec(alloc)?;
        Ok(Block {
            exps,
            ops: Seq::from_vec(ops),
            pairs: Seq::from_vec(pairs),
            depth: self.depth,
            wide: self.wide,
        })
    }

    // How many places its stack may take.
    pub(crate) fn depth(&self) -> u32
        ensures { result ≡ self.now.depth }
    {
        self.depth
    }

    // How many of its operations are done at 128 bits.
    pub(crate) fn wide(&self) -> usize
        ensures { result ≡ wide_in self.now.ops }
    {
        self.wide
    }
}
