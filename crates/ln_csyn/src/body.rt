//! The reader of statements: one function for each function of specs/Reading.antt.
ghost use Rattle.std.specs.Prelude.{◌≡◌, ◌<◌, suc, None, Some, IfOk, IfErr, length};
ghost use Rattle.ln_csyn.specs.Seen.{tokens_of};
ghost use Rattle.ln_csyn.specs.Tree.{Decl};
ghost use Rattle.ln_csyn.specs.View.{expr_tree, stmt_front, body_tree};
ghost use Rattle.ln_csyn.specs.declared.stop.CStop.TheVariants.{NotSubset};
ghost use Rattle.ln_csyn.specs.Reading.{expr_at, decl_rest, if_rest, return_rest, group_rest, stmt_at, stmts_at, block_at};

use crate::expr::{closed, copied, stopped};
use crate::stop::CStop;
use crate::token::{begins, eat, line_at, name_at, type_at};
use crate::tokens::Tokens;
use crate::tree::{CExpr, CForm, CStmt, CType};
use ln_base::Seq;
use std::alloc::Global;

/// How many parentheses are allowed round a place: in a declaration, and within those of an if.
#[derive(Clone, Copy)]
pub struct Depths {
    pub outer: u32,
    pub inner: u32,
}

fn declared(line: u32, kind: CType, name: Seq<u8>, e: CExpr) -> CStmt
    ensures { stmt_front result ≡ (λ rest. Decl line kind name (expr_tree e) rest) }
{
    let form = CForm::Decl(kind, name, e);
    CStmt { line, form }
}

fn decl_rest<'a>(
    alloc: Global,
    line: u32,
    kind: CType,
    tokens: Tokens<'a>,
    depth: u32,
) -> Result<(CStmt, Tokens<'a>), CStop>
    ensures ok { IfOk result (λ y. decl_rest (expr_at depth) line kind (tokens_of tokens.entry) ≡ Some (stmt_front y.0, tokens_of y.1)) }
    ensures err { IfErr result (λ e. e ≡ NotSubset → decl_rest (expr_at depth) line kind (tokens_of tokens.entry) ≡ None) }
{
    let Some((name, rest)) = name_at(tokens) else {
        return Err(CStop::NotSubset);
    };
    let Some(rest) = eat(rest, b"=".as_slice()) else {
        return Err(CStop::NotSubset);
    };
    let name = copied(alloc, name)?;
    let (e, rest) = closed(alloc, rest, depth, b";".as_slice())?;
    Ok((declared(line, kind, name, e), rest))
}

fn return_rest<'a>(
    alloc: Global,
    line: u32,
    tokens: Tokens<'a>,
    depth: u32,
) -> Result<(CStmt, Tokens<'a>), CStop>
    ensures ok { IfOk result (λ y. return_rest (expr_at depth) line (tokens_of tokens.entry) ≡ Some (stmt_front y.0, tokens_of y.1)) }
    ensures err { IfErr result (λ e. e ≡ NotSubset → return_rest (expr_at depth) line (tokens_of tokens.entry) ≡ None) }
{
    let (e, rest) = closed(alloc, tokens, depth, b";".as_slice())?;
    let form = CForm::Return(e);
    Ok((CStmt { line, form }, rest))
}

#[cycle(stmt)]
fn if_rest<'a>(
    alloc: Global,
    line: u32,
    tokens: Tokens<'a>,
    depths: Depths,
    braces: u32,
) -> Result<(CStmt, Tokens<'a>), CStop>
    requires { depths.outer ≡ suc depths.inner }
    ensures ok { IfOk result (λ y. if_rest (expr_at depths.inner)
        (block_at depths.outer depths.inner braces) line (tokens_of tokens.entry) ≡ Some (stmt_front y.0, tokens_of y.1)) }
    ensures err { IfErr result (λ e. e ≡ NotSubset →
        if_rest (expr_at depths.inner) (block_at depths.outer depths.inner braces) line (tokens_of tokens.entry) ≡ None) }
{
    let Some(rest) = eat(tokens, b"(".as_slice()) else {
        return Err(CStop::NotSubset);
    };
    let (e, rest) = closed(alloc, rest, depths.inner, b")".as_slice())?;
    match block(alloc, rest, depths, braces) {
        Ok((body, _, rest)) => {
            let form = CForm::If(e, body);
            Ok((CStmt { line, form }, rest))
        }
        Err(s) => Err(stopped(e, s)),
    }
}

#[cycle(stmt)]
fn group_rest<'a>(
    alloc: Global,
    line: u32,
    tokens: Tokens<'a>,
    depths: Depths,
    braces: u32,
) -> Result<(CStmt, Tokens<'a>), CStop>
    requires { depths.outer ≡ suc depths.inner }
    ensures ok { IfOk result (λ y. group_rest (block_at depths.outer depths.inner braces) line (tokens_of tokens.entry)
        ≡ Some (stmt_front y.0, tokens_of y.1)) }
    ensures err { IfErr result (λ e. e ≡ NotSubset →
        group_rest (block_at depths.outer depths.inner braces) line (tokens_of tokens.entry) ≡ None) }
{
    let (body, _, rest) = block(alloc, tokens, depths, braces)?;
    let form = CForm::Group(body);
    Ok((CStmt { line, form }, rest))
}

#[cycle(stmt)]
fn stmt<'a>(
    alloc: Global,
    tokens: Tokens<'a>,
    depths: Depths,
    braces: u32,
) -> Result<(CStmt, Tokens<'a>), CStop>
    requires { depths.outer ≡ suc depths.inner }
    ensures ok { IfOk result (λ y. stmt_at depths.outer depths.inner (block_at depths.outer depths.inner braces)
        (tokens_of tokens.entry) ≡ Some (stmt_front y.0, tokens_of y.1)) }
    ensures err { IfErr result (λ e. e ≡ NotSubset → stmt_at depths.outer depths.inner (block_at depths.outer depths.inner braces)
        (tokens_of tokens.entry) ≡ None) }
{
    let line = line_at(tokens);
    if let Some((kind, rest)) = type_at(tokens) {
        return decl_rest(alloc, line, kind, rest, depths.outer);
    }
    if let Some(rest) = eat(tokens, b"if".as_slice()) {
        return if_rest(alloc, line, rest, depths, braces);
    }
    if let Some(rest) = eat(tokens, b"return".as_slice()) {
        return return_rest(alloc, line, rest, depths.outer);
    }
    group_rest(alloc, line, tokens, depths, braces)
}

#[cycle(stmt)]
fn stmts<'a>(
    alloc: Global,
    tokens: Tokens<'a>,
    depths: Depths,
    braces: u32,
) -> Result<(Vec<CStmt>, Tokens<'a>), CStop>
    requires { depths.outer ≡ suc depths.inner }
    ensures ok { IfOk result (λ y. stmts_at (stmt_at depths.outer depths.inner (block_at depths.outer depths.inner braces))
        (suc (length (tokens_of tokens.entry))) (tokens_of tokens.entry) ≡ Some (body_tree y.0.items, tokens_of y.1)) }
    ensures err { IfErr result (λ e. e ≡ NotSubset →
        stmts_at (stmt_at depths.outer depths.inner (block_at depths.outer depths.inner braces))
        (suc (length (tokens_of tokens.entry))) (tokens_of tokens.entry) ≡ None) }
{
    let mut body = Vec::new(alloc);
    let mut rest = tokens;
    'stmts: loop {
        if begins(rest, b"}".as_slice()) {
            return Ok((body, rest));
        }
        let (s, next) = stmt(alloc, rest, depths, braces)?;
        body.push(s)?;
        rest = next;
    }
}

/// Returns the statements of the pair of braces at the beginning, the line of the second brace, and what is after it.
#[cycle(stmt)]
pub fn block<'a>(
    alloc: Global,
    tokens: Tokens<'a>,
    depths: Depths,
    braces: u32,
) -> Result<(Vec<CStmt>, u32, Tokens<'a>), CStop>
    requires { depths.outer ≡ suc depths.inner }
    ensures ok { IfOk result (λ y. block_at depths.outer depths.inner braces (tokens_of tokens.entry)
        ≡ Some (body_tree y.0.items, y.1, tokens_of y.2)) }
    ensures err { IfErr result (λ e. e ≡ NotSubset → block_at depths.outer depths.inner braces (tokens_of tokens.entry) ≡ None) }
{
    if braces == 0 {
        return Err(CStop::NotSubset);
    }
    let Some(rest) = eat(tokens, b"{".as_slice()) else {
        return Err(CStop::NotSubset);
    };
    let (body, rest) = stmts(alloc, rest, depths, braces - 1)?;
    let line = line_at(rest);
    match eat(rest, b"}".as_slice()) {
        Some(rest) => Ok((body, line, rest)),
        None => Err(CStop::NotSubset),
    }
}
