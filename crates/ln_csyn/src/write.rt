//! Writes a file: the tokens of one function after the other, each with a blank after it, which are then laid out.
ghost use Rattle.std.specs.Prelude.{◌≡◌, ◌∷◌, [], IfOk, List, codes, map};
ghost use Rattle.ln_csyn.specs.View.{expr_tree, stmt_front, body_tree, fun_tree};
ghost use Rattle.ln_csyn.specs.Tree.{Body, Fun, Two, Minus, Number, Name, Value, Index, Call, Inner};
ghost use Rattle.ln_csyn.specs.Spelling.{PutsTokens, lexeme, type_text, op_text, cast_before, place_before, spell, Goes, spell_body};
ghost use Rattle.ln_csyn.specs.Spelling.{spell_parameters, spell_own, spell_fun};
ghost use Rattle.ln_csyn.specs.Layout.{IsTextOf, Lays, laid_text};
ghost use Rattle.ln_csyn.specs.Text.{CText};
ghost use Rattle.ln_csyn.specs.Lines.{SameUpToLines};

use crate::layout::lay_fun;
use crate::read::CFile;
use crate::spell::{put, put_number, put_op, put_tokens, put_type};
use crate::tree::{CExpr, CForm, CFun, COp, CPrim, CStmt, CType};
use ln_base::NoMemory;
use std::alloc::Global;

/// Returns a text of the file, laid out: a statement a line, indented by its braces. Its file is f up to lines, and so is whatever file
/// is read of it.
pub fn write_c(alloc: Global, f: &CFile) -> Result<Vec<u8>, NoMemory>
    ensures text { IfOk result (λ v. IsTextOf v.items (map fun_tree f.now.funs)) }
    ensures back { IfOk result (λ v. (gs : List Fun) → CText v.items gs → SameUpToLines gs (map fun_tree f.now.funs)) }
    ensures layout { IfOk result (λ v. v.items ≡ laid_text (map fun_tree f.now.funs)) }
{
    let mut out = Vec::new(alloc);
    out.extend_from_slice(b"#include <stdint.h>\n".as_slice())?;
    put_funs(alloc, &mut out, f.funs.as_slice())?;
    Ok(out)
}

fn put_funs(alloc: Global, out: &mut Vec<u8>, funs: &[CFun]) -> Result<(), NoMemory>
    ensures { IfOk result (λ x. Lays out.old.items out.new.items (map fun_tree funs.now)) }
{
    'funs: for f in funs {
        put_laid(alloc, out, f)?;
    }
    Ok(())
}

fn put_laid(alloc: Global, out: &mut Vec<u8>, f: &CFun) -> Result<(), NoMemory>
    ensures { IfOk result (λ x. Lays out.old.items out.new.items (fun_tree f.now ∷ [])) }
{
    let mut tokens = Vec::new(alloc);
    put_fun(&mut tokens, f)?;
    lay_fun(out, &mut tokens)
}

fn put_fun(out: &mut Vec<u8>, f: &CFun) -> Result<(), NoMemory>
    ensures { IfOk result (λ x. PutsTokens out.old.items out.new.items (spell_fun (fun_tree f.now))) }
{
    put_static(out, f.own)?;
    put_type(out, CType::Int)?;
    put_own_name(out, f)?;
    put(out, b"(")?;
    put_parameters(out, f.indexed)?;
    put(out, b")")?;
    put_fun_body(out, f)
}

fn put_static(out: &mut Vec<u8>, own: bool) -> Result<(), NoMemory>
    ensures { IfOk result (λ x. PutsTokens out.old.items out.new.items (spell_own own)) }
{
    if own { put(out, b"static") } else { Ok(()) }
}

fn put_own_name(out: &mut Vec<u8>, f: &CFun) -> Result<(), NoMemory>
    ensures { IfOk result (λ x. PutsTokens out.old.items out.new.items (λ r. lexeme f.now.name ∷ r)) }
{
    put(out, f.name.as_slice())
}

fn put_parameters(out: &mut Vec<u8>, indexed: bool) -> Result<(), NoMemory>
    ensures { IfOk result (λ x. PutsTokens out.old.items out.new.items (spell_parameters indexed)) }
{
    if indexed {
        put_tokens(out, b"const int64_t * x , const int64_t * v")
    } else {
        put_tokens(out, b"const int64_t * v")
    }
}

fn put_fun_body(out: &mut Vec<u8>, f: &CFun) -> Result<(), NoMemory>
    ensures { IfOk result (λ x. PutsTokens out.old.items out.new.items
        (λ r. lexeme (codes "{") ∷ spell_body (body_tree f.now.body.items) (lexeme (codes "}") ∷ r))) }
{
    put_block(out, f.body.as_slice())
}

#[cycle(body)]
fn put_block(out: &mut Vec<u8>, body: &[CStmt]) -> Result<(), NoMemory>
    ensures { IfOk result (λ x. PutsTokens out.old.items out.new.items (λ r. lexeme (codes "{") ∷ spell_body (body_tree body.now)
        (lexeme (codes "}") ∷ r))) }
{
    put(out, b"{")?;
    put_body(out, body)?;
    put(out, b"}")
}

#[cycle(body)]
fn put_body(out: &mut Vec<u8>, stmts: &[CStmt]) -> Result<(), NoMemory>
    ensures { IfOk result (λ x. PutsTokens out.old.items out.new.items (spell_body (body_tree stmts.now))) }
{
    'stmts: for s in stmts {
        put_stmt(out, s)?;
    }
    Ok(())
}

// The statement before any others.
#[cycle(body)]
fn put_stmt(out: &mut Vec<u8>, s: &CStmt) -> Result<(), NoMemory>
    ensures { IfOk result (λ x. (b : Body) → Goes out.old.items out.new.items (spell_body b) (spell_body (stmt_front s.now b))) }
{
    match &s.form {
        CForm::Decl(kind, name, e) => put_decl(out, *kind, name.as_slice(), e),
        CForm::Group(body) => put_block(out, body.as_slice()),
        CForm::If(e, body) => {
            put_test(out, e)?;
            put_block(out, body.as_slice())
        }
        CForm::Return(e) => put_return(out, e),
    }
}

fn put_decl(out: &mut Vec<u8>, kind: CType, name: &[u8], e: &CExpr) -> Result<(), NoMemory>
    ensures { IfOk result (λ x. PutsTokens out.old.items out.new.items (λ r. lexeme (type_text kind) ∷ lexeme name.now
        ∷ lexeme (codes "=") ∷ spell (expr_tree e.now) (lexeme (codes ";") ∷ r))) }
{
    put_type(out, kind)?;
    put(out, name)?;
    put(out, b"=")?;
    put_expr(out, e)?;
    put(out, b";")
}

fn put_test(out: &mut Vec<u8>, e: &CExpr) -> Result<(), NoMemory>
    ensures { IfOk result (λ x. PutsTokens out.old.items out.new.items (λ r. lexeme (codes "if") ∷ lexeme (codes "(")
        ∷ spell (expr_tree e.now) (lexeme (codes ")") ∷ r))) }
{
    put_tokens(out, b"if (")?;
    put_expr(out, e)?;
    put(out, b")")
}

fn put_return(out: &mut Vec<u8>, e: &CExpr) -> Result<(), NoMemory>
    ensures { IfOk result (λ x. PutsTokens out.old.items out.new.items (λ r. lexeme (codes "return") ∷ spell (expr_tree e.now)
        (lexeme (codes ";") ∷ r))) }
{
    put(out, b"return")?;
    put_expr(out, e)?;
    put(out, b";")
}

/// Appends an expression.
#[cycle(put)]
pub fn put_expr(out: &mut Vec<u8>, e: &CExpr) -> Result<(), NoMemory>
    ensures { IfOk result (λ x. PutsTokens out.old.items out.new.items (spell (expr_tree e.now))) }
{
    match e {
        CExpr::Two(op, a, b) => {
            put(out, b"(")?;
            put_expr(out, a)?;
            put_right(out, *op, b)
        }
        CExpr::Minus(a) => put_minus(out, a),
        CExpr::Cast(kind, CPrim::Number(n)) => put_constant(out, *kind, *n),
        CExpr::Cast(kind, CPrim::Name(x)) => put_name(out, *kind, x.as_slice()),
        CExpr::Cast(kind, CPrim::Value(n)) => put_value(out, *kind, *n),
        CExpr::Cast(kind, CPrim::Index(n)) => put_index(out, *kind, *n),
        CExpr::Cast(kind, CPrim::Call(x)) => put_call(out, *kind, x.as_slice()),
        CExpr::Cast(kind, CPrim::Inner(a)) => put_inner(out, *kind, a),
    }
}

// Appends the right operand and what is round it.
#[cycle(put)]
fn put_right(out: &mut Vec<u8>, op: COp, b: &CExpr) -> Result<(), NoMemory>
    ensures { IfOk result (λ x. PutsTokens out.old.items out.new.items (λ r. lexeme (op_text op) ∷ spell (expr_tree b.now)
        (lexeme (codes ")") ∷ r))) }
{
    put_op(out, op)?;
    put_expr(out, b)?;
    put(out, b")")
}

#[cycle(put)]
fn put_minus(out: &mut Vec<u8>, e: &CExpr) -> Result<(), NoMemory>
    ensures { IfOk result (λ x. PutsTokens out.old.items out.new.items (spell (Minus (expr_tree e.now)))) }
{
    put_tokens(out, b"( -")?;
    put_expr(out, e)?;
    put(out, b")")
}

#[cycle(put)]
fn put_inner(out: &mut Vec<u8>, kind: CType, e: &CExpr) -> Result<(), NoMemory>
    ensures { IfOk result (λ x. PutsTokens out.old.items out.new.items (spell (Inner kind (expr_tree e.now)))) }
{
    put_cast(out, kind)?;
    put_expr(out, e)?;
    put(out, b")")
}

/// Appends `((TYPE)`, the beginning of an expression that is a cast.
pub fn put_cast(out: &mut Vec<u8>, kind: CType) -> Result<(), NoMemory>
    ensures { IfOk result (λ x. PutsTokens out.old.items out.new.items (cast_before kind)) }
{
    put_tokens(out, b"( (")?;
    put_type(out, kind)?;
    put(out, b")")
}

/// Appends `((TYPE)NUMBER)`.
pub fn put_constant(out: &mut Vec<u8>, kind: CType, n: u64) -> Result<(), NoMemory>
    ensures { IfOk result (λ x. PutsTokens out.old.items out.new.items (spell (Number kind n))) }
{
    put_cast(out, kind)?;
    put_number(out, n)?;
    put(out, b")")
}

/// Appends `((TYPE)NAME)`.
pub fn put_name(out: &mut Vec<u8>, kind: CType, name: &[u8]) -> Result<(), NoMemory>
    ensures { IfOk result (λ x. PutsTokens out.old.items out.new.items (spell (Name kind name.now))) }
{
    put_cast(out, kind)?;
    put(out, name)?;
    put(out, b")")
}

/// Appends `((TYPE)v[N])`.
pub fn put_value(out: &mut Vec<u8>, kind: CType, n: u64) -> Result<(), NoMemory>
    ensures { IfOk result (λ x. PutsTokens out.old.items out.new.items (spell (Value kind n))) }
{
    put_cast(out, kind)?;
    put_place(out, b"v", n)
}

/// Appends `((TYPE)x[N])`.
pub fn put_index(out: &mut Vec<u8>, kind: CType, n: u64) -> Result<(), NoMemory>
    ensures { IfOk result (λ x. PutsTokens out.old.items out.new.items (spell (Index kind n))) }
{
    put_cast(out, kind)?;
    put_place(out, b"x", n)
}

fn put_place(out: &mut Vec<u8>, name: &[u8], n: u64) -> Result<(), NoMemory>
    ensures { IfOk result (λ x. PutsTokens out.old.items out.new.items (place_before name.now n)) }
{
    put(out, name)?;
    put(out, b"[")?;
    put_number(out, n)?;
    put_tokens(out, b"] )")
}

/// Appends `((TYPE)NAME(v))`.
pub fn put_call(out: &mut Vec<u8>, kind: CType, name: &[u8]) -> Result<(), NoMemory>
    ensures { IfOk result (λ x. PutsTokens out.old.items out.new.items (spell (Call kind name.now))) }
{
    put_cast(out, kind)?;
    put(out, name)?;
    put_tokens(out, b"( v ) )")
}
