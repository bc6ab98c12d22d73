//! The value of an expression.
ghost use Rattle.std.specs.Prelude.{◌≡◌, OnOk, slice_get, option_map};
ghost use Rattle.ln_csyn.specs.Meaning.{value_of, cast, number_in, index_at};
ghost use Rattle.ln_csyn.specs.Meaning as m;
ghost use Rattle.ln_csyn.specs.View.{expr_tree, cast_tree};
ghost use Rattle.ln_cmean.specs.Answered.{answered, tally};
ghost use Rattle.ln_cmean.specs.Room.{HasRoom, IsNoSmaller, IsSame};
ghost use Rattle.ln_cmean.specs.Slots.{seen};
ghost use Rattle.ln_cmean.specs.Scene.{scene_of};

use crate::calls::Calls;
use crate::inputs::Inputs;
use crate::number::{Counts, Fault, Number, enter, in_type, negate, operate, same_kind};
use crate::scratch::look_up;
use crate::stack::Stack;
use ln_csyn::{CExpr, CPrim, CType};

fn cast_to(kind: CType, answer: Result<Number, Fault>) -> Result<Number, Fault>
    ensures { (k : m.Counts) → answered result k ≡ cast kind (answered answer k) }
{
    match answer {
        Ok(n) => in_type(kind, n.number),
        Err(e) => Err(e),
    }
}

// The number at a place, from 0.
fn place(numbers: &[i64], at: u64) -> Result<Number, Fault>
    ensures { (k : m.Counts) → answered result k ≡ number_in (slice_get numbers.now at) CType.Int64 k }
{
    if at < numbers.len() as u64 {
        Ok(Number {
            kind: CType::Int64,
            number: i128::from(numbers[at as usize]),
        })
    } else {
        Err(Fault::Here)
    }
}

fn index_place(index: Option<&[i64]>, at: u64) -> Result<Number, Fault>
    ensures { (k : m.Counts) → answered result k ≡ number_in (index_at (option_map (λ x. x.now) index.entry) at) CType.Int64 k }
{
    match index {
        Some(numbers) => place(numbers, at),
        None => Err(Fault::Here),
    }
}

/// The value of an expression.
#[cycle(value)]
pub fn value<'a, C: Calls>(
    calls: &C,
    inputs: &Inputs<'a, '_>,
    e: &CExpr,
    s: &mut Stack<'a>,
    counts: &mut Counts,
) -> Result<Number, Fault>
    requires { HasRoom s.old (C.slots calls.now inputs.now) }
    ensures meaning { answered result (tally counts.new) ≡ value_of (scene_of (C.given calls.now) inputs.now) (seen s.old)
        (expr_tree e.now) (tally counts.old) }
    ensures capacity { IsNoSmaller s.old s.new }
    ensures same { OnOk result (IsSame s.old s.new) }
{
    match e {
        CExpr::Two(op, a, b) => {
            let left = match value(calls, inputs, a, s, counts) {
                Ok(n) => n,
                Err(f) => return Err(f),
            };
            let right = match value(calls, inputs, b, s, counts) {
                Ok(n) => n,
                Err(f) => return Err(f),
            };
            if !same_kind(left.kind, right.kind) {
                return Err(Fault::Here);
            }
            operate(*op, left.kind, left.number, right.number, counts)
        }
        CExpr::Minus(a) => match value(calls, inputs, a, s, counts) {
            Ok(n) => negate(n.kind, n.number, counts),
            Err(f) => Err(f),
        },
        CExpr::Cast(kind, of) => primary(calls, inputs, *kind, of, s, counts),
    }
}

#[cycle(value)]
fn primary<'a, C: Calls>(
    calls: &C,
    inputs: &Inputs<'a, '_>,
    kind: CType,
    of: &CPrim,
    s: &mut Stack<'a>,
    counts: &mut Counts,
) -> Result<Number, Fault>
    requires { HasRoom s.old (C.slots calls.now inputs.now) }
    ensures meaning { answered result (tally counts.new) ≡ value_of (scene_of (C.given calls.now) inputs.now) (seen s.old)
        (cast_tree kind of.now) (tally counts.old) }
    ensures capacity { IsNoSmaller s.old s.new }
    ensures same { OnOk result (IsSame s.old s.new) }
{
    match of {
        CPrim::Number(n) => in_type(kind, i128::from(*n)),
        CPrim::Name(name) => cast_to(kind, look_up(s, name.as_slice())),
        CPrim::Value(at) => cast_to(kind, place(inputs.values, *at)),
        CPrim::Index(at) => cast_to(kind, index_place(inputs.index, *at)),
        CPrim::Call(name) => {
            enter(counts);
            cast_to(kind, calls.call(inputs, name.as_slice(), s, counts))
        }
        CPrim::Inner(e) => cast_to(kind, value(calls, inputs, e, s, counts)),
    }
}
