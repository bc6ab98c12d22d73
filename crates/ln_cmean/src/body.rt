//! The run of the statements of a body.
ghost use Rattle.std.specs.Prelude.{◌≡◌, ◌+◌, ◌≤◌, OnOk, IfOk, true, length, ℤ};
ghost use Rattle.ln_csyn.specs.Meaning.{runs, line_of, wanted, value_of, has, Outcome};
ghost use Rattle.ln_csyn.specs.Meaning as m;
ghost use Rattle.ln_csyn.specs.Tree.{Body, Decl};
ghost use Rattle.ln_csyn.specs.View.{expr_tree, body_tree, stmt_front};
ghost use Rattle.ln_cmean.specs.Answered.{goes_on, goes_with, ended, fault_line, tally};
ghost use Rattle.ln_cmean.specs.Room.{HasRoom, IsNoSmaller, IsSame, IsExtended, slots_in};
ghost use Rattle.ln_cmean.specs.Slots.{seen};
ghost use Rattle.ln_cmean.specs.Scene.{scene_of};

use crate::calls::Calls;
use crate::expr::value;
use crate::inputs::Inputs;
use crate::number::{Counts, Fault, same_kind};
use crate::scratch::{leave, open, settle};
use crate::stack::Stack;
use ln_csyn::{CExpr, CForm, CStmt, CType};

/// Where statements lead: to the next one, or out with a result.
#[derive(Clone, Copy)]
pub enum Flow {
    Went,
    Said(i32),
}

fn line_at(line: u32, fault: Fault) -> u32
    ensures { result ≡ line_of line (fault_line fault) }
{
    match fault {
        Fault::Here => line,
        Fault::At(l) => l,
    }
}

// The expression of a statement: the line of the statement, and the type that is wanted.
#[derive(Clone, Copy)]
struct Wanted<'e> {
    line: u32,
    kind: CType,
    expr: &'e CExpr,
}

// The number of a statement's expression, which has the type that is wanted; or the line of the fault.
fn wanted_value<'a, C: Calls>(
    calls: &C,
    inputs: &Inputs<'a, '_>,
    of: &Wanted,
    s: &mut Stack<'a>,
    counts: &mut Counts,
) -> Result<i128, u32>
    requires { HasRoom s.old (C.slots calls.now inputs.now) }
    ensures meaning { (go : ℤ → m.Counts → Outcome) →
        wanted of.now.line of.now.kind (value_of (scene_of (C.given calls.now) inputs.now) (seen s.old) (expr_tree of.now.expr.now) (tally counts.old)) go
        ≡ goes_with result (tally counts.new) go }
    ensures within { IfOk result (λ z. has of.now.kind z ≡ true) }
    ensures capacity { IsNoSmaller s.old s.new }
    ensures same { OnOk result (IsSame s.old s.new) }
{
    match value(calls, inputs, of.expr, s, counts) {
        Ok(n) => {
            if same_kind(n.kind, of.kind) {
                Ok(n.number)
            } else {
                Err(of.line)
            }
        }
        Err(f) => Err(line_at(of.line, f)),
    }
}

fn declare<'a, C: Calls>(
    calls: &C,
    inputs: &Inputs<'a, '_>,
    name: &'a [u8],
    of: &Wanted,
    s: &mut Stack<'a>,
    counts: &mut Counts,
) -> Result<Flow, u32>
    requires { HasRoom s.old (1 + C.slots calls.now inputs.now) }
    ensures meaning { (rest : Body) → runs (scene_of (C.given calls.now) inputs.now) (seen s.old)
        (Decl of.now.line of.now.kind name.now (expr_tree of.now.expr.now) rest) (tally counts.old) ≡ goes_on result (tally counts.new)
        (λ k. runs (scene_of (C.given calls.now) inputs.now) (seen s.new) rest k) }
    ensures capacity { IsNoSmaller s.old s.new }
    ensures front { OnOk result (IsExtended s.old s.new) }
    ensures room { OnOk result (length s.new.slots.items ≡ length s.old.slots.items + 1) }
{
    open(s, of.kind, name);
    match wanted_value(calls, inputs, of, s, counts) {
        Ok(number) => {
            settle(s, number);
            Ok(Flow::Went)
        }
        Err(l) => Err(l),
    }
}

/// Runs statements from the first on. The declarations that they make remain.
#[cycle(run)]
pub fn run<'a, C: Calls>(
    calls: &C,
    inputs: &Inputs<'a, '_>,
    stmts: &'a [CStmt],
    s: &mut Stack<'a>,
    counts: &mut Counts,
) -> Result<Flow, u32>
    requires { HasRoom s.old (slots_in (body_tree stmts.now) + C.slots calls.now inputs.now) }
    ensures meaning { runs (scene_of (C.given calls.now) inputs.now) (seen s.old) (body_tree stmts.now)
        (tally counts.old) ≡ ended result (tally counts.new) }
    ensures capacity { IsNoSmaller s.old s.new }
    ensures same { OnOk result (IsSame s.old s.new) }
{
    let slots = s.slots.len();
    'stmts: for stmt in stmts {
        match step(calls, inputs, stmt, s, counts) {
            Ok(Flow::Went) => {}
            Ok(Flow::Said(z)) => {
                leave(s, slots);
                return Ok(Flow::Said(z));
            }
            Err(l) => return Err(l),
        }
    }
    leave(s, slots);
    Ok(Flow::Went)
}

// The result of a `return`, whose number is an `int`.
fn said(number: i128) -> Flow
    requires { has CType.Int number ≡ true }
    ensures { result ≡ Flow.Said number }
{
    Flow::Said(number as i32)
}

#[cycle(run)]
fn step<'a, C: Calls>(
    calls: &C,
    inputs: &Inputs<'a, '_>,
    stmt: &'a CStmt,
    s: &mut Stack<'a>,
    counts: &mut Counts,
) -> Result<Flow, u32>
    requires { (rest : Body) × HasRoom s.old (slots_in (stmt_front stmt.now rest) + C.slots calls.now inputs.now) }
    ensures meaning { (rest : Body) → runs (scene_of (C.given calls.now) inputs.now) (seen s.old) (stmt_front stmt.now rest)
        (tally counts.old) ≡ goes_on result (tally counts.new)
        (λ k. runs (scene_of (C.given calls.now) inputs.now) (seen s.new) rest k) }
    ensures capacity { IsNoSmaller s.old s.new }
    ensures front { OnOk result (IsExtended s.old s.new) }
    ensures room { OnOk result ((rest : Body) →
        length s.new.slots.items + slots_in rest ≤ length s.old.slots.items + slots_in (stmt_front stmt.now rest)) }
{
    let line = stmt.line;
    let kind = CType::Int;
    match &stmt.form {
        CForm::Decl(kind, name, expr) => {
            let kind = *kind;
            let of = Wanted { line, kind, expr };
            declare(calls, inputs, name.as_slice(), &of, s, counts)
        }
        CForm::Group(body) => run(calls, inputs, body.as_slice(), s, counts),
        CForm::If(expr, body) => {
            match wanted_value(calls, inputs, &Wanted { line, kind, expr }, s, counts) {
                Ok(number) => {
                    if number == 0 {
                        Ok(Flow::Went)
                    } else {
                        run(calls, inputs, body.as_slice(), s, counts)
                    }
                }
                Err(l) => Err(l),
            }
        }
        CForm::Return(expr) => {
            match wanted_value(calls, inputs, &Wanted { line, kind, expr }, s, counts) {
                Ok(number) => Ok(said(number)),
                Err(l) => Err(l),
            }
        }
    }
}
