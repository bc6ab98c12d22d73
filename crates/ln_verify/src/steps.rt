//! One operation of a block or a filter, on a stack of values. A value is moved off the stack, and a local gets one more owner by
//! `get`.
ghost use Rattle.std.specs.Prelude.{◌≡◌, List, IfOk, MatchOption, None, Some, get_or};
ghost use Rattle.ln_bound.specs.declared.fitted.Two.TheVariants.{Plus, Minus, Times};
ghost use Rattle.ln_tree.specs.declared.shape.VarInfo.{VarInfo as Info};
ghost use Rattle.ln_code.specs.declared.op.Op.TheVariants.{Push, Input, Get, Set, Neg, Cut};
ghost use Rattle.ln_verify.specs.BlockRules.{Version as AnyVersion};
ghost use Rattle.ln_verify.specs.Versions.{version_of};
ghost use Rattle.ln_verify.specs.Works.{StackStep};
ghost use Rattle.ln_code.specs.Engine.{op_of};

use crate::case::Case;
use crate::limits::Limits;
use crate::made::{again, cut, input, minus, number, two};
use crate::stacks::{Stack, local, pop, push, put};
use crate::value::Value;
use crate::version::Version;
use ln_base::NoMemory;
use ln_bound::{Two, Width};
use ln_code::Op;
use std::alloc::Global;

// A number onto the stack.
fn push_number<L: Limits>(
    alloc: Global,
    on: &mut Stack<Value<L>>,
    c: i128,
    s: L::Said,
) -> Result<bool, NoMemory>
    ensures { IfOk result (λ ok. (v : AnyVersion) (vars : List Info) (b : L.Bound) → L.tells s b →
        StackStep L.known L.tree L.rules v vars on.old (Push c) b ok on.new) }
{
    let v = number(alloc, c, s)?;
    push(&mut on.values, v)
}

// A variable onto the stack.
fn push_input<L: Limits>(
    alloc: Global,
    case: &Case<'_>,
    version: Version,
    on: &mut Stack<Value<L>>,
    k: u8,
    s: L::Said,
) -> Result<bool, NoMemory>
    ensures { IfOk result (λ ok. (b : L.Bound) → L.tells s b →
        StackStep L.known L.tree L.rules (version_of version) case.now.shape.now.vars on.old (Input k) b ok on.new) }
{
    let v = input(alloc, version, case.shape.vars.as_slice(), k, s)?;
    push(&mut on.values, v)
}

// Takes two values off the stack, and pushes their result.
fn with_two<L: Limits>(
    alloc: Global,
    on: &mut Stack<Value<L>>,
    t: Two,
    w: Width,
    s: L::Said,
) -> Result<bool, NoMemory>
    ensures { IfOk result (λ ok. (v : AnyVersion) (vars : List Info) (b : L.Bound) → L.tells s b →
        StackStep L.known L.tree L.rules v vars on.old (op_of t w) b ok on.new) }
{
    let Some(y) = pop(&mut on.values) else {
        return Ok(false);
    };
    let Some(x) = pop(&mut on.values) else {
        return Ok(false);
    };
    let v = two(alloc, t, w, s, x, y)?;
    push(&mut on.values, v)
}

// One value off the stack, and minus it onto it.
fn with_one<L: Limits>(on: &mut Stack<Value<L>>, w: Width, s: L::Said) -> Result<bool, NoMemory>
    ensures { IfOk result (λ ok. (v : AnyVersion) (vars : List Info) (b : L.Bound) → L.tells s b →
        StackStep L.known L.tree L.rules v vars on.old (Neg w) b ok on.new) }
{
    let Some(x) = pop(&mut on.values) else {
        return Ok(false);
    };
    let v = minus(w, s, x);
    push(&mut on.values, v)
}

// One value off the stack, and it, divided by 2^n, onto it.
fn with_cut<L: Limits>(on: &mut Stack<Value<L>>, n: u8, s: L::Said) -> Result<bool, NoMemory>
    ensures { IfOk result (λ ok. (v : AnyVersion) (vars : List Info) (b : L.Bound) → L.tells s b →
        StackStep L.known L.tree L.rules v vars on.old (Cut n) b ok on.new) }
{
    let Some(x) = pop(&mut on.values) else {
        return Ok(false);
    };
    let v = cut(n, s, x);
    push(&mut on.values, v)
}

// A value off the stack into a local.
fn set<L: Limits>(on: &mut Stack<Value<L>>, j: u8) -> bool
    ensures { (v : AnyVersion) (vars : List Info) (b : L.Bound) → StackStep L.known L.tree L.rules v vars on.old (Set j) b result on.new }
{
    let j = usize::from(j);
    if j >= on.locals.len() {
        return false;
    }
    let Some(x) = pop(&mut on.values) else {
        return false;
    };
    put(&mut on.locals, j, x);
    true
}

// The value of a local, if there is that local and it is set.
fn local_at<T>(locals: &[Option<T>], j: usize) -> Option<&T>
    ensures { MatchOption result (get_or locals.now j None ≡ None) (λ x. get_or locals.now j None ≡ Some x.now) }
{
    if j >= locals.len() {
        return None;
    }
    local(locals, j)
}

// A local, onto the stack once more.
fn get<L: Limits>(on: &mut Stack<Value<L>>, j: u8, s: L::Said) -> Result<bool, NoMemory>
    ensures { IfOk result (λ ok. (v : AnyVersion) (vars : List Info) (b : L.Bound) → L.tells s b →
        StackStep L.known L.tree L.rules v vars on.old (Get j) b ok on.new) }
{
    let j = usize::from(j);
    let Some(x) = local_at(on.locals.as_slice(), j) else {
        return Ok(false);
    };
    let v = again(x, s)?;
    push(&mut on.values, v)
}

/// One operation over the variables of a predicate, with what its line says.
pub fn operate<L: Limits>(
    alloc: Global,
    case: &Case<'_>,
    version: Version,
    on: &mut Stack<Value<L>>,
    op: Op,
    s: L::Said,
) -> Result<bool, NoMemory>
    ensures { IfOk result (λ ok. (b : L.Bound) → L.tells s b →
        StackStep L.known L.tree L.rules (version_of version) case.now.shape.now.vars on.old op b ok on.new) }
{
    match op {
        Op::Push(c) => push_number(alloc, on, c, s),
        Op::Input(k) => push_input(alloc, case, version, on, k, s),
        Op::Get(j) => get(on, j, s),
        Op::Set(j) => Ok(set(on, j)),
        Op::Add(w) => with_two(alloc, on, Two::Plus, w, s),
        Op::Sub(w) => with_two(alloc, on, Two::Minus, w, s),
        Op::Mul(w) => with_two(alloc, on, Two::Times, w, s),
        Op::Neg(w) => with_one(on, w, s),
        Op::Cut(n) => with_cut(on, n, s),
    }
}
