//! The reader of the items of tokens that are a file.
ghost use Rattle.std.specs.Prelude.{◌≡◌, ◌+◌, ◌^◌, ◌<◌, length, Result, IfOk, IsTrue, ◌↔◌};
ghost use Rattle.std.specs.List.{All};
ghost use Rattle.ln_syntax.specs.Raw.{item, items, Is, span_at};
ghost use Rattle.ln_syntax.specs.Expression.{IsExpr};
ghost use Rattle.ln_syntax.specs.File.{End, Range, Coords, Arg, Args, Lets, IsItem, Spelt};
ghost use Rattle.ln_syntax.specs.Place.{IsText};
ghost use Rattle.ln_syntax.specs.Reading.{HasEnd, HasRange, HasCoords, HasArg, HasArgs, HasLets, HasExpr, HasItem};
ghost use Rattle.ln_syntax.specs.Within.{IsWithin};

use crate::raw::{Places, RawArg, RawCoord, RawEnd, RawItem, RawLet, RawRange};
use ln_base::{NoMemory, Span};
use ln_lex::{Kind, Token};
use std::alloc::Global;

/// What was read, and the place of the token after it.
#[derive(Drop)]
struct Read<T> {
    value: T,
    to: usize,
}

/// The items of tokens that are a file, in their order: the spans of their names and numbers, and the places
/// of the tokens of each expression. One pass, without recursion.
pub fn read_items(alloc: Global, ts: &[Token]) -> Result<Vec<RawItem>, NoMemory>
    requires small { length ts.now < 2 ^ 32 }
    requires text { IsText ts.now }
    ensures ok { IfOk result (λ v. Spelt ts.now (items v.items)) }
    ensures within { IfOk result (λ v. All (IsWithin (length ts.now)) v.items) }
{
    let mut read = Vec::new(alloc);
    let mut at = 0;
    'items: while at < ts.len() {
        let next = item_at(alloc, ts, at)?;
        read.push(next.value)?;
        at = next.to;
    }
    Ok(read)
}

/// The item that begins at a place.
fn item_at(alloc: Global, ts: &[Token], at: usize) -> Result<Read<RawItem>, NoMemory>
    requires small { length ts.now < 2 ^ 32 }
    requires there { HasItem ts.now at }
    ensures { IfOk result (λ r. IsItem ts.now at r.to (item r.value)) }
{
    if is(ts, at, Kind::Site) {
        return site_at(alloc, ts, at);
    }
    if is(ts, at, Kind::Param) {
        return Ok(param_at(ts, at));
    }
    pred_at(alloc, ts, at)
}

/// The site type that begins at a place: its name, then its coordinates in braces.
fn site_at(alloc: Global, ts: &[Token], at: usize) -> Result<Read<RawItem>, NoMemory>
    requires small { length ts.now < 2 ^ 32 }
    requires there { HasItem ts.now at }
    requires kind { Is ts.now at Kind.Site }
    ensures { IfOk result (λ r. IsItem ts.now at r.to (item r.value)) }
{
    let name = span_of(ts, at + 1);
    let coords = coords_at(alloc, ts, at + 3)?;
    Ok(Read {
        value: RawItem::Site(name, coords.value),
        to: coords.to + 1,
    })
}

/// The param that begins at a place: its name, then its range.
fn param_at(ts: &[Token], at: usize) -> Read<RawItem>
    requires small { length ts.now < 2 ^ 32 }
    requires there { HasItem ts.now at }
    requires kind { Is ts.now at Kind.Param }
    ensures { IsItem ts.now at result.to (item result.value) }
{
    let name = span_of(ts, at + 1);
    let range = range_at(ts, at + 3);
    Read {
        value: RawItem::Param(name, range.value),
        to: range.to + 1,
    }
}

/// The predicate that begins at a place: its name, its arguments, its lets and its sign expression.
fn pred_at(alloc: Global, ts: &[Token], at: usize) -> Result<Read<RawItem>, NoMemory>
    requires small { length ts.now < 2 ^ 32 }
    requires there { HasItem ts.now at }
    requires no_site { Is ts.now at Kind.Site → ⊥ }
    requires no_param { Is ts.now at Kind.Param → ⊥ }
    ensures { IfOk result (λ r. IsItem ts.now at r.to (item r.value)) }
{
    let name = span_of(ts, at + 1);
    let args = args_at(alloc, ts, at + 3)?;
    let lets = lets_at(alloc, ts, args.to + 2)?;
    let from = lets.to + 1;
    let to = expression_end(ts, from);
    Ok(Read {
        value: RawItem::Pred(name, args.value, lets.value, Places { from, to }),
        to: to + 2,
    })
}

/// The coordinates from a place up to their brace.
fn coords_at(alloc: Global, ts: &[Token], at: usize) -> Result<Read<Vec<RawCoord>>, NoMemory>
    requires small { length ts.now < 2 ^ 32 }
    requires there { HasCoords ts.now at }
    ensures ok { IfOk result (λ r. Coords ts.now at r.to r.value.items) }
    ensures stops { IfOk result (λ r. Is ts.now r.to Kind.BraceR) }
{
    let mut coords = Vec::new(alloc);
    let mut place = at;
    'coords: while is(ts, place, Kind::Name) {
        let name = span_of(ts, place);
        let range = range_at(ts, place + 2);
        coords.push(RawCoord {
            name,
            range: range.value,
        })?;
        place = range.to + 1;
    }
    Ok(Read {
        value: coords,
        to: place,
    })
}

/// The arguments from a place up to their parenthesis.
fn args_at(alloc: Global, ts: &[Token], at: usize) -> Result<Read<Vec<RawArg>>, NoMemory>
    requires small { length ts.now < 2 ^ 32 }
    requires there { HasArgs ts.now at }
    ensures ok { IfOk result (λ r. Args ts.now at r.to r.value.items) }
    ensures stops { IfOk result (λ r. Is ts.now r.to Kind.ParR) }
{
    let mut args = Vec::new(alloc);
    let mut place = at;
    'arguments: loop {
        args.push(arg_at(ts, place))?;
        if !is(ts, place + 3, Kind::Comma) {
            return Ok(Read {
                value: args,
                to: place + 3,
            });
        }
        place += 4;
    }
}

/// The lets from a place up to `sign`.
fn lets_at(alloc: Global, ts: &[Token], at: usize) -> Result<Read<Vec<RawLet>>, NoMemory>
    requires small { length ts.now < 2 ^ 32 }
    requires there { HasLets ts.now at }
    ensures ok { IfOk result (λ r. Lets ts.now at r.to r.value.items) }
    ensures stops { IfOk result (λ r. Is ts.now r.to Kind.Sign) }
{
    let mut lets = Vec::new(alloc);
    let mut place = at;
    'lets: while is(ts, place, Kind::Let) {
        let name = span_of(ts, place + 1);
        let from = place + 3;
        let to = expression_end(ts, from);
        lets.push(RawLet {
            name,
            value: Places { from, to },
        })?;
        place = to + 1;
    }
    Ok(Read {
        value: lets,
        to: place,
    })
}

/// The place of the semicolon after the expression that begins here.
fn expression_end(ts: &[Token], from: usize) -> usize
    requires small { length ts.now < 2 ^ 32 }
    requires there { HasExpr ts.now from }
    ensures expression { IsExpr ts.now from result }
    ensures stops { Is ts.now result Kind.Semi }
{
    let mut to = from;
    'tokens: while !is(ts, to, Kind::Semi) {
        to += 1;
    }
    to
}

/// The argument that begins at a place: a name, and the name of a site type or `param`.
fn arg_at(ts: &[Token], at: usize) -> RawArg
    requires small { length ts.now < 2 ^ 32 }
    requires there { HasArg ts.now at }
    ensures { Arg ts.now at result }
{
    RawArg {
        name: span_of(ts, at),
        kind: span_of(ts, at + 2),
        is_param: is(ts, at + 2, Kind::Param),
    }
}

/// The range that begins at a place, both ends included.
#[tactic(auto, using(crate::proofs::Spellings::Parts::high_there, crate::proofs::Spellings::Parts::range_read))]
fn range_at(ts: &[Token], at: usize) -> Read<RawRange>
    requires small { length ts.now < 2 ^ 32 }
    requires there { HasRange ts.now at }
    ensures { Range ts.now at result.to result.value }
{
    let low = end_at(ts, at);
    let high = end_at(ts, low.to + 1);
    Read {
        value: RawRange {
            low: low.value,
            high: high.value,
        },
        to: high.to,
    }
}

/// The end of a range that begins at a place: a number, with a minus sign before it or without.
fn end_at(ts: &[Token], at: usize) -> Read<RawEnd>
    requires small { length ts.now < 2 ^ 32 }
    requires there { HasEnd ts.now at }
    ensures { End ts.now at result.to result.value }
{
    if is(ts, at, Kind::Minus) {
        return Read {
            value: RawEnd {
                negative: true,
                at: span_of(ts, at + 1),
            },
            to: at + 2,
        };
    }
    Read {
        value: RawEnd {
            negative: false,
            at: span_of(ts, at),
        },
        to: at + 1,
    }
}

/// Is the token at this place of this kind?
pub fn is(ts: &[Token], i: usize, kind: Kind) -> bool
    ensures { IsTrue result ↔ Is ts.now i kind }
{
    match ts.get(i) {
        Some(t) => t.kind == kind,
        None => false,
    }
}

/// The span of the token at this place; the empty span at 0, where there is none.
pub fn span_of(ts: &[Token], i: usize) -> Span
    ensures { result ≡ span_at ts.now i }
{
    match ts.get(i) {
        Some(t) => t.span,
        None => Span { start: 0, end: 0 },
    }
}
