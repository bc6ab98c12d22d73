//! The need of the functions of a file for a scratch.
ghost use Rattle.std.specs.Prelude.{◌≡◌, ◌+◌, ◌-◌, ◌^◌, ◌++◌, ◌∷◌, [], min, max, map, IfOk, OnOk, true, false, ◌≤◌, vec_capacity};
ghost use Rattle.ln_csyn.specs.Tree.{Body};
ghost use Rattle.ln_csyn.specs.Keeps.{distinct, names_of};
ghost use Rattle.ln_csyn.specs.Sets.{names_in};
ghost use Rattle.ln_csyn.specs.View.{body_tree, fun_tree, stmt_front};
ghost use Rattle.ln_csyn.specs.Words.{among};
ghost use Rattle.ln_cmean.specs.Room.{MadeFor, slots_in, most_slots};

use crate::scratch::CScratch;
use crate::stack::Stack;
use indexmap::IndexSet;
use ln_base::NoMemory;
use ln_csyn::{CFile, CForm, CFun, CStmt};
use std::alloc::Global;

// How many declarations are visible at once at most. No vector has as many as the largest `usize`, which a larger number stands for too.
#[cycle(need)]
fn need_of(stmts: &[CStmt]) -> usize
    ensures { result ≡ min (slots_in (body_tree stmts.now)) (2 ^ 64 - 1) }
{
    let mut need = 0usize;
    let mut left = stmts.len();
    'stmts: while left > 0 {
        left -= 1;
        need = need_with(&stmts[left], need);
    }
    need
}

// Returns the need of a statement, together with those after it.
#[cycle(need)]
fn need_with(stmt: &CStmt, after: usize) -> usize
    ensures { (rest : Body) → after ≡ min (slots_in rest) (2 ^ 64 - 1) → result ≡ min (slots_in (stmt_front stmt.now rest)) (2 ^ 64 - 1) }
{
    match &stmt.form {
        CForm::Decl(_, _, _) => after.saturating_add(1),
        CForm::Group(body) | CForm::If(_, body) => need_of(body.as_slice()).max(after),
        CForm::Return(_) => after,
    }
}

fn most(funs: &[CFun]) -> usize
    ensures { result ≡ min (most_slots (map fun_tree funs.now)) (2 ^ 64 - 1) }
{
    let mut need = 0usize;
    let mut left = funs.len();
    'funs: while left > 0 {
        left -= 1;
        need = need_of(funs[left].body.as_slice()).max(need);
    }
    need
}

// An empty stack with room for this many declarations, and as many buckets, but at least one.
fn stack<'a>(alloc: Global, slots: usize) -> Result<Stack<'a>, NoMemory>
    ensures { IfOk result (λ s. slots ≤ vec_capacity s.slots) }
{
    let mut tops = Vec::new(alloc);
    tops.resize(slots.max(1), 0usize)?;
    Ok(Stack {
        base: 0,
        slots: Vec::with_capacity(alloc, slots)?,
        tops,
    })
}

// Adds a name that the set doesn't have.
fn add_name<'a>(set: &mut IndexSet<&'a [u8]>, name: &'a [u8]) -> Result<(), NoMemory>
    requires { among (names_in set.old) name.now ≡ false }
    ensures { OnOk result (names_in set.new ≡ names_in set.old ++ name.now ∷ []) }
{
    set.insert_full(name)?;
    Ok(())
}

// The names of functions, all of which differ, in order.
fn names<'a>(alloc: Global, funs: &'a [CFun]) -> Result<IndexSet<&'a [u8]>, NoMemory>
    requires { distinct (names_of (map fun_tree funs.now)) ≡ true }
    ensures { IfOk result (λ s. names_in s ≡ names_of (map fun_tree funs.now)) }
{
    let mut set = IndexSet::new(alloc);
    'funs: for f in funs {
        add_name(&mut set, f.name.as_slice())?;
    }
    Ok(set)
}

// A scratch made for a file of these functions.
fn made_for<'a>(alloc: Global, funs: &'a [CFun]) -> Result<CScratch<'a>, NoMemory>
    requires { distinct (names_of (map fun_tree funs.now)) ≡ true }
    ensures { IfOk result (λ s. MadeFor (map fun_tree funs.now) s) }
{
    let need = most(funs);
    let names = names(alloc, funs)?;
    Ok(CScratch {
        stack: stack(alloc, need.saturating_add(need))?,
        funs: names,
    })
}

impl<'a> CScratch<'a> {
    /// A scratch made for a file: with room for all that a call of any of its functions needs.
    pub fn new(alloc: Global, f: &'a CFile) -> Result<CScratch<'a>, NoMemory>
        ensures { IfOk result (λ s. MadeFor (map fun_tree f.now.funs) s) }
    {
        made_for(alloc, f.funs.as_slice())
    }
}
