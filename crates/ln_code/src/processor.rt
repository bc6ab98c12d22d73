//! Blocks and filters, run with no check.
ghost use Rattle.std.specs.Prelude.{◌≡◌, ◌≤◌, ◌<◌, pos, slice_index_or, Some, IsSome, length};
ghost use Rattle.ln_code.specs.Memory.{at, seen, leads, plain, shifted, bare_value};

use crate::arithmetic::{binary, cut, push, shorten, store, unary};
use crate::op::{Op, Triple};
use ln_bound::Two;

// The value of a variable.
fn value_of(values: &[i64], v: u8) -> i128
    requires { v < length values.now }
    ensures { result ≡ slice_index_or values.now v (pos 0) }
{
    i128::from(values[usize::from(v)])
}

// One operation. What it needs is there, and what it makes fits. A number is pushed divided by 2^k.
#[tactic(auto, using(crate::proofs::leads_push, crate::proofs::leads_input, crate::proofs::leads_get, crate::proofs::two_leads, crate::proofs::cut_leads))]
fn apply(
    op: Op,
    k: u8,
    values: &[i64],
    stack: &mut [i128],
    locals: &mut [i128],
    top: usize,
) -> usize
    requires room { top ≤ length stack.old }
    requires locals { 256 ≤ length locals.old }
    requires answers { IsSome (leads op k values.now stack.old top locals.old) }
    ensures room { result ≤ length stack.new }
    ensures size { length stack.new ≡ length stack.old }
    ensures locals { length locals.new ≡ length locals.old }
    ensures state { leads op k values.now stack.old top locals.old
        ≡ Some (record { stack = seen stack.new result; locals = at locals.new }) }
{
    match op {
        Op::Push(c) => push(stack, top, cut(c, k)),
        Op::Input(v) => push(stack, top, value_of(values, v)),
        Op::Get(j) => push(stack, top, locals[usize::from(j)]),
        Op::Set(j) => store(j, stack, locals, top),
        Op::Add(w) => binary(Two::Plus, w, stack, top),
        Op::Sub(w) => binary(Two::Minus, w, stack, top),
        Op::Mul(w) => binary(Two::Times, w, stack, top),
        Op::Neg(w) => unary(w, stack, top),
        Op::Cut(n) => shorten(n, stack, top),
    }
}

// Runs the operations of a block from an empty stack.
#[tactic(auto, using(crate::proofs::Engines::Ends::block_ends))]
pub(crate) fn run_block(ops: &[Op], values: &[i64], stack: &mut [i128], locals: &mut [i128]) -> i128
    requires locals { 256 ≤ length locals.old }
    requires answers { IsSome (bare_value (plain ops.now) values.now stack.old locals.old) }
    ensures value { bare_value (plain ops.now) values.now stack.old locals.old ≡ Some result }
    ensures size { length stack.new ≡ length stack.old }
    ensures locals { length locals.new ≡ length locals.old }
{
    let mut top = 0;
    'ops: for op in ops {
        top = apply(*op, 0, values, stack, locals, top);
    }
    stack[0]
}

// Runs the operations of a filter from an empty stack.
#[tactic(auto, using(crate::proofs::Engines::Ends::filter_ends))]
pub(crate) fn run_filter(
    ops: &[Op],
    triples: &[Triple],
    values: &[i64],
    stack: &mut [i128],
    locals: &mut [i128],
) -> i128
    requires bounded { length ops.now ≡ length triples.now }
    requires locals { 256 ≤ length locals.old }
    requires answers { IsSome (bare_value (shifted ops.now triples.now) values.now stack.old locals.old) }
    ensures value { bare_value (shifted ops.now triples.now) values.now stack.old locals.old ≡ Some result }
    ensures size { length stack.new ≡ length stack.old }
    ensures locals { length locals.new ≡ length locals.old }
{
    let mut top = 0;
    'ops: for (i, op) in ops.iter().enumerate() {
        top = apply(*op, triples[i].k, values, stack, locals, top);
    }
    stack[0]
}
