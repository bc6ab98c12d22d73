//! Defines filters: operations on truncated numbers that run before any block, each with the triple that bounds its result.
ghost use Rattle.std.specs.Prelude.{◌≡◌, ◌≤◌, ◌<◌, ◌^◌, ◌+◌, length, IfOk};
ghost use Rattle.ln_code.specs.Part.{FilterCode};
ghost use Rattle.ln_code.specs.Kept.{IsFilter};
ghost use Rattle.ln_code.specs.Errors.{size_after, error_behind, left_error};

use crate::op::{Op, Triple};
use ln_base::{NoMemory, Seq};
use std::alloc::Global;
use std::marker::Model;

/// A filter: operations on truncated numbers, each with the triple of what it pushes. It needs a stack of at most 2,048
/// places, is 64 bits wide throughout, and follows the rules on triples, sizes and stacks: each triple
/// covers its operation, and one value remains in the end. A `Set` has the triple of zeros.
#[derive(Drop)]
pub struct FilterBlock {
    ops: Seq<Op>,
    triples: Seq<Triple>,
    depth: u32,
    error: u64,
}

impl Model for FilterBlock {
    ghost use Rattle.std.specs.Prelude.{◌≡◌};
    ghost use Rattle.ln_code.specs.Part.{FilterCode};
    ghost use Rattle.ln_code.specs.Kept.{IsFilter};
    ghost use Rattle.ln_code.specs.Errors.{left_error};

    ghost Value = { FilterCode };

    ghost view = { λ f. record { ops = f.ops; triples = f.triples; depth = f.depth } };

    ghost invariant = { λ f. IsFilter (record { ops = f.ops; triples = f.triples; depth = f.depth })
        × (f.error ≡ left_error f.ops f.triples 0 0) };
}

// How many values the stack has after an operation, of n before it.
fn size_after(op: Op, n: usize) -> usize
    requires { n + 1 < 2 ^ 64 }
    ensures value { result ≡ size_after op n }
    ensures most { result ≤ n + 1 }
{
    match op {
        Op::Push(_) | Op::Input(_) | Op::Get(_) => n + 1,
        Op::Set(_) | Op::Add(_) | Op::Sub(_) | Op::Mul(_) => n.saturating_sub(1),
        Op::Neg(_) | Op::Cut(_) => n,
    }
}

// The error of the lowest value of n after an operation with the error e, which was d before it.
fn error_behind(op: Op, n: usize, e: u64, d: u64) -> u64
    ensures { result ≡ error_behind op n e d }
{
    match op {
        Op::Set(_) => d,
        Op::Push(_)
        | Op::Input(_)
        | Op::Get(_)
        | Op::Add(_)
        | Op::Sub(_)
        | Op::Mul(_)
        | Op::Neg(_)
        | Op::Cut(_) => { if n == 1 { e } else { d } }
    }
}

// The error of the operation that pushed the remaining value.
fn left_error(ops: &[Op], triples: &[Triple]) -> u64
    requires { length ops.now ≡ length triples.now }
    ensures { result ≡ left_error ops.now triples.now 0 0 }
{
    let mut size = 0;
    let mut error = 0;
    'ops: for (i, op) in ops.iter().enumerate() {
        size = size_after(*op, size);
        error = error_behind(*op, size, triples[i].e, error);
    }
    error
}

impl FilterBlock {
    /// The filter of these parts. It allocates nothing.
    pub fn seal(ops: Seq<Op>, triples: Seq<Triple>, depth: u32) -> FilterBlock
        requires { IsFilter (record { ops = ops; triples = triples; depth = depth }) }
        ensures { result ≡ record { ops = ops; triples = triples; depth = depth } }
    {
        let error = left_error(ops.as_slice(), triples.as_slice());
        FilterBlock {
            ops,
            triples,
            depth,
            error,
        }
    }

    /// Its operations, in order.
    pub fn ops(&self) -> &[Op]
        ensures { result.now ≡ self.now.ops }
    {
        self.ops.as_slice()
    }

    /// For each operation the triple of what it pushes; zeros for a `Set`.
    pub fn triples(&self) -> &[Triple]
        ensures value { result.now ≡ self.now.triples }
        ensures kept { IsFilter self.now }
    {
        self.triples.as_slice()
    }

    /// An equal filter.
    pub fn copy(&self, alloc: Global) -> Result<FilterBlock, NoMemory>
        ensures { IfOk result (λ f. f ≡ self.now) }
    {
        let ops = self.ops.as_slice().to_vec(alloc)?;
        let triples = self.triples.as_slice().to_vec(alloc)?;
        Ok(FilterBlock {
            ops: Seq::from_vec(ops),
            triples: Seq::from_vec(triples),
            depth: self.depth,
            error: self.error,
        })
    }

    // How many places its stack may take.
    pub(crate) fn depth(&self) -> u32
        ensures { result ≡ self.now.depth }
    {
        self.depth
    }

    /// The error of the operation that pushes the remaining value: the filter decides above it.
    pub fn error(&self) -> u64
        ensures { result ≡ left_error self.now.ops self.now.triples 0 0 }
    {
        self.error
    }
}
