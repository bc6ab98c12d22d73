//! What names stand for, as places in lists, and what numbers are.
ghost use Rattle.std.specs.Prelude.{◌≡◌, ◌^◌, ◌<◌, ◌&&◌, pos, length, find, option_map, IfSome};
ghost use Rattle.ln_syntax.specs.Raw.{same, item, items, item_name, is_site, coords_in};
ghost use Rattle.ln_names.specs.Numbers.{number, end_value, signed};
ghost use Rattle.ln_names.specs.Rules.{is_site_arg, coords_of};
ghost use Rattle.ln_names.specs.Resolve.{is_arg, let_place, arg_place, coord_place};

use crate::spans::{number, same};
use ln_base::Span;
use ln_syntax::{RawArg, RawCoord, RawEnd, RawItem, RawLet};

/// What an expression can speak of: the items before its predicate, the arguments, the lets before it.
#[derive(Clone, Copy)]
pub struct Visible<'a> {
    pub before: &'a [RawItem],
    pub args: &'a [RawArg],
    pub lets: &'a [RawLet],
}

/// The number of the let of this name, among the lets of a predicate.
pub fn let_place(bytes: &[u8], lets: &[RawLet], at: Span) -> Option<usize>
    ensures place { result ≡ let_place bytes.now lets.now at }
    ensures below { IfSome result (λ i. i < length lets.now) }
{
    'each: for (i, l) in lets.iter().enumerate() {
        if same(bytes, l.name, at) {
            return Some(i);
        }
    }
    None
}

/// A kind of argument.
#[derive(Clone, Copy)]
pub enum ArgKind {
    Site,
    Param,
}

/// Is the argument of this kind, if a kind is asked for?
pub fn is_arg(kind: Option<ArgKind>, a: &RawArg) -> bool
    ensures { result ≡ is_arg kind a.now }
{
    match kind {
        None => true,
        Some(ArgKind::Site) => !a.is_param,
        Some(ArgKind::Param) => a.is_param,
    }
}

/// The place of the argument of this name and kind, among all arguments.
pub fn arg_at(bytes: &[u8], args: &[RawArg], kind: Option<ArgKind>, at: Span) -> Option<usize>
    ensures place { result ≡ arg_place bytes.now kind args.now at }
    ensures below { IfSome result (λ i. i < length args.now) }
{
    'each: for (i, a) in args.iter().enumerate() {
        if is_arg(kind, a) && same(bytes, a.name, at) {
            return Some(i);
        }
    }
    None
}

/// The place of the coordinate of this name, among the coordinates of a site type.
pub fn coord_at(bytes: &[u8], coords: &[RawCoord], at: Span) -> Option<usize>
    ensures place { result ≡ coord_place bytes.now coords.now at }
    ensures below { IfSome result (λ i. i < length coords.now) }
{
    'each: for (i, c) in coords.iter().enumerate() {
        if same(bytes, c.name, at) {
            return Some(i);
        }
    }
    None
}

fn coords_in_items<'a>(bytes: &[u8], its: &'a [RawItem], kind: Span) -> &'a [RawCoord]
    ensures { result.now ≡ coords_in (option_map item (find (λ i. is_site (item i) && same bytes.now (item_name (item i)) kind) its.now)) }
{
    for i in its {
        if i.is_site() && same(bytes, i.name(), kind) {
            return i.coords();
        }
    }
    &[]
}

#[tactic(auto, using(crate::proofs::Lists::find_items))]
fn site_coords<'a>(bytes: &[u8], its: &'a [RawItem], kind: Span) -> &'a [RawCoord]
    ensures { result.now ≡ coords_in (find (λ i. is_site i && same bytes.now (item_name i) kind) (items its.now)) }
{
    coords_in_items(bytes, its, kind)
}

/// The coordinates of the site argument of this name; none, where there is no such argument.
pub fn arg_coords<'a>(bytes: &[u8], its: &'a [RawItem], args: &[RawArg], at: Span) -> &'a [RawCoord]
    ensures { result.now ≡ coords_of bytes.now (items its.now) (find (λ a. is_site_arg a && same bytes.now a.name at) args.now) }
{
    for a in args {
        if !a.is_param && same(bytes, a.name, at) {
            return site_coords(bytes, its, a.kind);
        }
    }
    &[]
}

fn signed_literal(n: u128) -> i128
    requires { n < 2 ^ 127 }
    ensures { result ≡ pos n }
{
    n as i128
}

fn signed_end(negative: bool, n: u128) -> i64
    requires { n < 2 ^ 63 }
    ensures { result ≡ signed negative n }
{
    if negative { -(n as i64) } else { n as i64 }
}

/// The value of a literal within its limit.
pub fn literal(bytes: &[u8], at: Span) -> i128
    requires { number bytes.now at < 2 ^ 127 }
    ensures { result ≡ pos (number bytes.now at) }
{
    signed_literal(number(bytes, at))
}

/// The value of an end of a range within its limit.
pub fn end_of(bytes: &[u8], e: RawEnd) -> i64
    requires { number bytes.now e.at < 2 ^ 63 }
    ensures { result ≡ end_value bytes.now e }
{
    signed_end(e.negative, number(bytes, e.at))
}
