//! The reader of expressions: one function for each function of specs/Reading.antt.
ghost use Rattle.std.specs.Prelude.{◌≡◌, None, Some, IfOk, IfErr, Option, option_map};
ghost use Rattle.ln_base.specs.Outside.{refused};
ghost use Rattle.ln_csyn.specs.Seen.{tokens_of};
ghost use Rattle.ln_csyn.specs.View.{expr_tree};
ghost use Rattle.ln_csyn.specs.declared.stop.CStop.TheVariants.{NotSubset, NoMemory as OutOfMemory};
ghost use Rattle.ln_csyn.specs.Tree.{Two};
ghost use Rattle.ln_csyn.specs.Reading.{eat, cast_at, closed, minus_rest, two_rest, place_of, place_rest};
ghost use Rattle.ln_csyn.specs.Reading.{call_rest, named, primary, cast_rest, inside, expr_at};

use crate::stop::CStop;
use crate::token::{eat, name_at, number_at, op_at, type_at};
use crate::tokens::Tokens;
use crate::tree::{CExpr, COp, CPrim, CType};
use ln_base::Seq;
use std::alloc::Global;

/// A copy of a name.
pub fn copied(alloc: Global, name: &[u8]) -> Result<Seq<u8>, CStop>
    ensures ok { IfOk result (λ x. x ≡ name.now) }
    ensures err { IfErr result (λ e. e ≡ OutOfMemory refused) }
{
    Ok(Seq::from_vec(name.to_vec(alloc)?))
}

// The `( TYPE )` of a cast.
fn cast_at<'a>(tokens: Tokens<'a>) -> Option<(CType, Tokens<'a>)>
    ensures { option_map (λ y. (y.0, tokens_of y.1)) result ≡ cast_at (tokens_of tokens.entry) }
{
    let rest = eat(tokens, b"(".as_slice())?;
    let (kind, rest) = type_at(rest)?;
    let rest = eat(rest, b")".as_slice())?;
    Some((kind, rest))
}

// `v[N]` or `x[N]`.
fn place_of(kind: CType, name: &[u8], n: u64) -> Option<CExpr>
    ensures { option_map expr_tree result ≡ place_of kind name.now n }
{
    if name == b"v".as_slice() {
        Some(CExpr::Cast(kind, CPrim::Value(n)))
    } else if name == b"x".as_slice() {
        Some(CExpr::Cast(kind, CPrim::Index(n)))
    } else {
        None
    }
}

fn place_rest<'a>(kind: CType, name: &[u8], tokens: Tokens<'a>) -> Option<(CExpr, Tokens<'a>)>
    ensures { option_map (λ y. (expr_tree y.0, tokens_of y.1)) result ≡ place_rest kind name.now (tokens_of tokens.entry) }
{
    let (n, rest) = number_at(tokens)?;
    let rest = eat(rest, b"]".as_slice())?;
    let e = place_of(kind, name, n)?;
    Some((e, rest))
}

fn call_rest<'a>(
    alloc: Global,
    kind: CType,
    name: &[u8],
    tokens: Tokens<'a>,
) -> Result<(CExpr, Tokens<'a>), CStop>
    ensures ok { IfOk result (λ y. call_rest kind name.now (tokens_of tokens.entry) ≡ Some (expr_tree y.0, tokens_of y.1)) }
    ensures err { IfErr result (λ e. e ≡ NotSubset → call_rest kind name.now (tokens_of tokens.entry) ≡ None) }
{
    let Some(rest) = eat(tokens, b"v".as_slice()) else {
        return Err(CStop::NotSubset);
    };
    let Some(rest) = eat(rest, b")".as_slice()) else {
        return Err(CStop::NotSubset);
    };
    let name = copied(alloc, name)?;
    Ok((CExpr::Cast(kind, CPrim::Call(name)), rest))
}

fn named<'a>(
    alloc: Global,
    kind: CType,
    name: &[u8],
    tokens: Tokens<'a>,
) -> Result<(CExpr, Tokens<'a>), CStop>
    ensures ok { IfOk result (λ y. named kind name.now (tokens_of tokens.entry) ≡ Some (expr_tree y.0, tokens_of y.1)) }
    ensures err { IfErr result (λ e. e ≡ NotSubset → named kind name.now (tokens_of tokens.entry) ≡ None) }
{
    if let Some(rest) = eat(tokens, b"[".as_slice()) {
        return match place_rest(kind, name, rest) {
            Some(found) => Ok(found),
            None => Err(CStop::NotSubset),
        };
    }
    if let Some(rest) = eat(tokens, b"(".as_slice()) {
        return call_rest(alloc, kind, name, rest);
    }
    let name = copied(alloc, name)?;
    Ok((CExpr::Cast(kind, CPrim::Name(name)), tokens))
}

/// The stop; what was read before it is let go.
pub(crate) fn stopped(_read: CExpr, stop: CStop) -> CStop
    ensures { result ≡ stop }
{
    stop
}

#[cycle(expr)]
fn primary<'a>(
    alloc: Global,
    kind: CType,
    tokens: Tokens<'a>,
    depth: u32,
) -> Result<(CExpr, Tokens<'a>), CStop>
    ensures ok { IfOk result (λ y. primary (expr_at depth) kind (tokens_of tokens.entry) ≡ Some (expr_tree y.0, tokens_of y.1)) }
    ensures err { IfErr result (λ e. e ≡ NotSubset → primary (expr_at depth) kind (tokens_of tokens.entry) ≡ None) }
{
    if let Some((n, rest)) = number_at(tokens) {
        return Ok((CExpr::Cast(kind, CPrim::Number(n)), rest));
    }
    if let Some((name, rest)) = name_at(tokens) {
        return named(alloc, kind, name, rest);
    }
    let (e, rest) = expr(alloc, tokens, depth)?;
    let e = Box::new(alloc, e)?;
    Ok((CExpr::Cast(kind, CPrim::Inner(e)), rest))
}

#[cycle(expr)]
fn cast_rest<'a>(
    alloc: Global,
    kind: CType,
    tokens: Tokens<'a>,
    depth: u32,
) -> Result<(CExpr, Tokens<'a>), CStop>
    ensures ok { IfOk result (λ y. cast_rest depth (expr_at depth) kind (tokens_of tokens.entry) ≡ Some (expr_tree y.0, tokens_of y.1)) }
    ensures err { IfErr result (λ e. e ≡ NotSubset → cast_rest depth (expr_at depth) kind (tokens_of tokens.entry) ≡ None) }
{
    if depth == 0 {
        return Err(CStop::NotSubset);
    }
    let (e, rest) = primary(alloc, kind, tokens, depth)?;
    match eat(rest, b")".as_slice()) {
        Some(rest) => Ok((e, rest)),
        None => Err(stopped(e, CStop::NotSubset)),
    }
}

#[cycle(expr)]
fn minus_rest<'a>(
    alloc: Global,
    tokens: Tokens<'a>,
    depth: u32,
) -> Result<(CExpr, Tokens<'a>), CStop>
    ensures ok { IfOk result (λ y. minus_rest (expr_at depth) (tokens_of tokens.entry) ≡ Some (expr_tree y.0, tokens_of y.1)) }
    ensures err { IfErr result (λ e. e ≡ NotSubset → minus_rest (expr_at depth) (tokens_of tokens.entry) ≡ None) }
{
    let (a, rest) = closed(alloc, tokens, depth, b")".as_slice())?;
    let a = Box::new(alloc, a)?;
    Ok((CExpr::Minus(a), rest))
}

// An operation on two operands.
fn both(alloc: Global, op: COp, a: CExpr, b: CExpr) -> Result<CExpr, CStop>
    ensures ok { IfOk result (λ e. expr_tree e ≡ Two op (expr_tree a) (expr_tree b)) }
    ensures err { IfErr result (λ e. e ≡ OutOfMemory refused) }
{
    let a = Box::new(alloc, a)?;
    let b = Box::new(alloc, b)?;
    Ok(CExpr::Two(op, a, b))
}

#[cycle(expr)]
fn two_rest<'a>(alloc: Global, tokens: Tokens<'a>, depth: u32) -> Result<(CExpr, Tokens<'a>), CStop>
    ensures ok { IfOk result (λ y. two_rest (expr_at depth) (tokens_of tokens.entry) ≡ Some (expr_tree y.0, tokens_of y.1)) }
    ensures err { IfErr result (λ e. e ≡ NotSubset → two_rest (expr_at depth) (tokens_of tokens.entry) ≡ None) }
{
    let (a, rest) = expr(alloc, tokens, depth)?;
    let Some((op, rest)) = op_at(rest) else {
        return Err(stopped(a, CStop::NotSubset));
    };
    match closed(alloc, rest, depth, b")".as_slice()) {
        Ok((b, rest)) => {
            let e = both(alloc, op, a, b)?;
            Ok((e, rest))
        }
        Err(e) => Err(stopped(a, e)),
    }
}

#[cycle(expr)]
fn inside<'a>(alloc: Global, tokens: Tokens<'a>, depth: u32) -> Result<(CExpr, Tokens<'a>), CStop>
    ensures ok { IfOk result (λ y. inside depth (expr_at depth) (tokens_of tokens.entry) ≡ Some (expr_tree y.0, tokens_of y.1)) }
    ensures err { IfErr result (λ e. e ≡ NotSubset → inside depth (expr_at depth) (tokens_of tokens.entry) ≡ None) }
{
    if let Some(rest) = eat(tokens, b"-".as_slice()) {
        return minus_rest(alloc, rest, depth);
    }
    if let Some((kind, rest)) = cast_at(tokens) {
        return cast_rest(alloc, kind, rest, depth);
    }
    two_rest(alloc, tokens, depth)
}

/// Returns the expression at the beginning, and what is after the token of this text that follows it.
#[cycle(expr)]
pub fn closed<'a>(
    alloc: Global,
    tokens: Tokens<'a>,
    depth: u32,
    text: &[u8],
) -> Result<(CExpr, Tokens<'a>), CStop>
    ensures ok { IfOk result (λ y. closed text.now (expr_at depth) (tokens_of tokens.entry) ≡ Some (expr_tree y.0, tokens_of y.1)) }
    ensures err { IfErr result (λ e. e ≡ NotSubset → closed text.now (expr_at depth) (tokens_of tokens.entry) ≡ None) }
{
    let (e, rest) = expr(alloc, tokens, depth)?;
    match eat(rest, text) {
        Some(rest) => Ok((e, rest)),
        None => Err(stopped(e, CStop::NotSubset)),
    }
}

/// Returns the expression at the beginning, and what is after it.
#[cycle(expr)]
pub fn expr<'a>(alloc: Global, tokens: Tokens<'a>, depth: u32) -> Result<(CExpr, Tokens<'a>), CStop>
    ensures ok { IfOk result (λ y. expr_at depth (tokens_of tokens.entry) ≡ Some (expr_tree y.0, tokens_of y.1)) }
    ensures err { IfErr result (λ e. e ≡ NotSubset → expr_at depth (tokens_of tokens.entry) ≡ None) }
{
    if depth == 0 {
        return Err(CStop::NotSubset);
    }
    let Some(rest) = eat(tokens, b"(".as_slice()) else {
        return Err(CStop::NotSubset);
    };
    inside(alloc, rest, depth - 1)
}
