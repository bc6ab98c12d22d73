//! A call of a file's function.
ghost use Rattle.std.specs.Prelude.{◌≡◌, ◌↔◌, ◌≤◌, ℕ, map, Err, OnOk, None, Some, [], ◌+◌, vec_capacity};
ghost use Rattle.ln_csyn.specs.Meaning.{CCall, CNamed, called, called_at, answer_of, runs, Fails};
ghost use Rattle.ln_csyn.specs.Meaning as m;
ghost use Rattle.ln_csyn.specs.View.{fun_tree, body_tree};
ghost use Rattle.ln_cmean.specs.Answered.{answered, told, tally, ended as ended_as};
ghost use Rattle.ln_cmean.specs.Room.{HasRoom, IsNoSmaller, IsSame, MadeFor, most_slots, slots_in};
ghost use Rattle.ln_cmean.specs.Scene.{scene_of};
ghost use Rattle.ln_cmean.specs.Slots.{seen};

use crate::body::{Flow, run};
use crate::calls::{Calls, NoCalls};
use crate::functions::Functions;
use crate::inputs::Inputs;
use crate::number::{Counts, Fault, Number};
use crate::scratch::{CScratch, leave};
use crate::stack::Stack;
use ln_csyn::{CFile, CFun, CType};

/// The result of a call: its sign, how many `+`, `-`, `*`, `/` and unary `-` were evaluated in `__int128`, and how many functions the called
/// one called. Both counts stay at 4,294,967,295 once there.
#[derive(Clone, Copy, PartialEq, Eq)]
pub struct CAnswer {
    pub sign: i32,
    pub wide: u32,
    pub calls: u32,
}

/// Why a call has no result.
#[derive(Clone, Copy, PartialEq, Eq)]
pub enum CFault {
    /// No function with two parameters has the name.
    NoFunction,
    /// The call has no meaning: the line of the first token of the innermost statement in which evaluation first fails, or of a function's
    /// last brace where that ends without `return`.
    Undefined(u32),
}

// Returns the result of a function whose last brace is on this line.
fn answer_at(end: u32, ended: Result<Flow, u32>) -> Result<Number, Fault>
    ensures { (k : m.Counts) → answered result k ≡ answer_of end (ended_as ended k) }
{
    match ended {
        Ok(Flow::Went) => Err(Fault::At(end)),
        Ok(Flow::Said(number)) => Ok(Number {
            kind: CType::Int,
            number: i128::from(number),
        }),
        Err(l) => Err(Fault::At(l)),
    }
}

fn call_one<'a>(
    f: &'a CFun,
    caller: &Inputs<'a, '_>,
    s: &mut Stack<'a>,
    counts: &mut Counts,
) -> Result<Number, Fault>
    requires { HasRoom s.old (slots_in (body_tree f.now.body.items)) }
    ensures meaning { answered result (tally counts.new)
        ≡ answer_of f.now.end (runs (record { values = caller.now.values.now; index = None; call = λ g j. Fails None }) []
        (body_tree f.now.body.items) (tally counts.old)) }
    ensures capacity { IsNoSmaller s.old s.new }
    ensures same { OnOk result (IsSame s.old s.new) }
{
    let inputs = Inputs {
        values: caller.values,
        index: None,
        before: caller.before,
    };
    let base = s.base;
    s.base = s.slots.len();
    let ended = run(&NoCalls {}, &inputs, f.body.as_slice(), s, counts);
    s.base = base;
    answer_at(f.end, ended)
}

/// The functions before the one that calls.
pub struct Earlier {}

impl Calls for Earlier {
    ghost use Rattle.std.specs.Prelude.{map};
    ghost use Rattle.ln_csyn.specs.Meaning.{called};
    ghost use Rattle.ln_csyn.specs.View.{fun_tree};
    ghost use Rattle.ln_cmean.specs.Room.{most_slots};

    ghost given = { λ _ i name k. called (map fun_tree i.before.funs.now) i.values.now name k };

    ghost slots = { λ _ i. most_slots (map fun_tree i.before.funs.now) };

    fn call<'a>(
        &self,
        inputs: &Inputs<'a, '_>,
        name: &[u8],
        s: &mut Stack<'a>,
        counts: &mut Counts,
    ) -> Result<Number, Fault> {
        match inputs.before.place(false, name) {
            Some(at) => call_one(&inputs.before.funs[at], inputs, s, counts),
            None => Err(Fault::Here),
        }
    }
}

// A call of a function with two parameters, with those before it.
fn call_two<'a>(f: &'a CFun, inputs: &Inputs<'a, '_>, s: &mut Stack<'a>) -> Result<CAnswer, CFault>
    requires room { HasRoom s.old (slots_in (body_tree f.now.body.items) + most_slots (map fun_tree inputs.now.before.funs.now)) }
    requires empty { seen s.old ≡ [] }
    ensures meaning { told result ≡ Some (called_at f.now.end
        (runs (scene_of (λ i. called (map fun_tree i.before.funs.now) i.values.now) inputs.now) []
        (body_tree f.now.body.items) (record { wide = 0; calls = 0 }))) }
    ensures capacity { IsNoSmaller s.old s.new }
{
    let mut counts = Counts { wide: 0, calls: 0 };
    let ended = run(&Earlier {}, inputs, f.body.as_slice(), s, &mut counts);
    match ended {
        Ok(Flow::Went) => Err(CFault::Undefined(f.end)),
        Ok(Flow::Said(sign)) => Ok(CAnswer {
            sign,
            wide: counts.wide,
            calls: counts.calls,
        }),
        Err(line) => Err(CFault::Undefined(line)),
    }
}

// A call of the function with two parameters that has the name.
fn call_in<'a>(
    all: &Functions<'a, '_>,
    name: &[u8],
    index: &[i64],
    values: &[i64],
    s: &mut Stack<'a>,
) -> Result<CAnswer, CFault>
    requires { most_slots (map fun_tree all.now.funs.now) + most_slots (map fun_tree all.now.funs.now) ≤ vec_capacity s.old.slots }
    ensures meaning { told result ≡ CCall (map fun_tree all.now.funs.now) name.now index.now values.now }
    ensures capacity { IsNoSmaller s.old s.new }
{
    s.base = 0;
    leave(s, 0);
    let Some(at) = all.place(true, name) else {
        return Err(CFault::NoFunction);
    };
    let inputs = Inputs {
        values,
        index: Some(index),
        before: all.before(at),
    };
    call_two(&all.funs[at], &inputs, s)
}

/// Returns the meaning of a call of the file's function with two parameters and this name on these indices and values, or the first
/// statement at which it has none, or that there is no such function. Allocates nothing; the scratch has to be made for
/// the file, and stays so.
pub fn call<'a>(
    f: &'a CFile,
    name: &str,
    index: &[i64],
    values: &[i64],
    s: &mut CScratch<'a>,
) -> Result<CAnswer, CFault>
    requires { MadeFor (map fun_tree f.now.funs) s.old }
    ensures meaning { told result ≡ CCall (map fun_tree f.now.funs) name.now index.now values.now }
    ensures no_function { (result ≡ Err CFault.NoFunction) ↔ (CNamed (map fun_tree f.now.funs) name.now → ⊥) }
    ensures undefined { (line : ℕ) → (result ≡ Err (CFault.Undefined line))
        ↔ (CCall (map fun_tree f.now.funs) name.now index.now values.now ≡ Some (m.Undefined line)) }
    ensures made { MadeFor (map fun_tree f.now.funs) s.new }
{
    let all = Functions {
        funs: f.funs.as_slice(),
        names: &s.funs,
    };
    call_in(&all, name.as_bytes(), index, values, &mut s.stack)
}
