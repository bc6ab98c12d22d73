//! The fault at one token, by what the token is.
ghost use Rattle.std.specs.Prelude.{◌≡◌, ◌==◌, ◌^◌, ◌<◌, ◌&&◌, Some, None, pos, OnOk, IfOk, IfErr, [], ◌∷◌, length, count_by, nat_lt, int_lt, IfNone};
ghost use Rattle.std.specs.List.{list_any};
ghost use Rattle.ln_syntax.specs.Raw.{text, same, item, items, item_name};
ghost use Rattle.ln_base.specs.Limits.{most_literal};
ghost use Rattle.ln_names.specs.Numbers.{number, end_value, signed, most_end};
ghost use Rattle.ln_names.specs.Rules.{fault_at, first_row, SiteName, ParamName, PredName, CoordName, LowEnd, HighEnd, ArgName, ArgSite};
ghost use Rattle.ln_names.specs.Rules.{ArgParam, LetName, NumberNode, NameNode, InputNode, InputCoord, OperatorNode, ExponentOf, has_let};
ghost use Rattle.ln_names.specs.Nodes.{named, input_of};
ghost use Rattle.ln_names.specs.Resolve.{visible, is_of_kind, is_arg};

use crate::faults::{Fault, LimitWhat, NameWhat};
use crate::nodes::What;
use crate::resolve::{ArgKind, Visible, arg_at, arg_coords, coord_at, is_arg, let_place, literal};
use crate::spans::{number, same, text};
use ln_base::Span;
use ln_syntax::{RawArg, RawCoord, RawItem, RawLet, RawRange};

/// A kind of item: each has a limit of its own.
#[derive(Clone, Copy)]
pub enum ItemKind {
    Site,
    Param,
    Pred,
}

fn long_name(bytes: &[u8], at: Span) -> bool
    ensures { result ≡ nat_lt 32 (length (text bytes.now at)) }
{
    text(bytes, at).len() > 32
}

// Is the item of this kind, if a kind is asked for?
fn is_of_kind(kind: Option<ItemKind>, i: &RawItem) -> bool
    ensures { result ≡ is_of_kind kind (item i.now) }
{
    match kind {
        None => true,
        Some(ItemKind::Site) => i.is_site(),
        Some(ItemKind::Param) => i.is_param(),
        Some(ItemKind::Pred) => i.is_pred(),
    }
}

fn any_of(bytes: &[u8], before: &[RawItem], kind: Option<ItemKind>, at: Span) -> bool
    ensures { result ≡ list_any (λ i. is_of_kind kind (item i) && same bytes.now (item_name (item i)) at) before.now }
{
    'each: for i in before {
        if is_of_kind(kind, i) && same(bytes, i.name(), at) {
            return true;
        }
    }
    false
}

// Does one of the items have this name?
#[tactic(auto, using(crate::proofs::Lists::any_items))]
fn declared(bytes: &[u8], before: &[RawItem], kind: Option<ItemKind>, at: Span) -> bool
    ensures { result ≡ list_any (λ i. is_of_kind kind i && same bytes.now (item_name i) at) (items before.now) }
{
    any_of(bytes, before, kind, at)
}

#[tactic(auto, using(crate::proofs::Lists::items_counted))]
fn count(before: &[RawItem], kind: Option<ItemKind>) -> usize
    ensures { result ≡ count_by (is_of_kind kind) (items before.now) }
{
    let mut n = 0usize;
    'each: for i in before {
        n += usize::from(is_of_kind(kind, i));
    }
    n
}

#[tactic(auto, using(crate::proofs::Lists::place_is_some))]
fn coord_twice(bytes: &[u8], before: &[RawCoord], at: Span) -> bool
    ensures { result ≡ list_any (λ c. same bytes.now c.name at) before.now }
{
    coord_at(bytes, before, at).is_some()
}

// The fault of the name of an item of this kind after the items `before`: over 32 letters, a seventeenth of the kind, or the name of an item before.
fn named_item(
    bytes: &[u8],
    before: &[RawItem],
    kind: ItemKind,
    limit: LimitWhat,
    at: Span,
) -> Option<Fault>
    ensures { result ≡ first_row ((nat_lt 32 (length (text bytes.now at)), Fault.Limit LimitWhat.NameLength)
        ∷ (count_by (is_of_kind (Some kind)) (items before.now) == 16, Fault.Limit limit)
        ∷ (list_any (λ i. same bytes.now (item_name i) at) (items before.now), Fault.Named NameWhat.Twice) ∷ []) }
{
    if long_name(bytes, at) {
        Some(Fault::Limit(LimitWhat::NameLength))
    } else if count(before, Some(kind)) == 16 {
        Some(Fault::Limit(limit))
    } else if declared(bytes, before, None, at) {
        Some(Fault::Named(NameWhat::Twice))
    } else {
        None
    }
}

/// The fault of a site type's name after the items `before`: over 32 letters, a seventeenth site type, or the name of an item before.
pub fn site_name(bytes: &[u8], before: &[RawItem], at: Span) -> Option<Fault>
    ensures { result ≡ fault_at bytes.now (SiteName (items before.now)) at }
{
    named_item(bytes, before, ItemKind::Site, LimitWhat::Sites, at)
}

/// The fault of a param's name after the items `before`: over 32 letters, a seventeenth param, or the name of an item before.
pub fn param_name(bytes: &[u8], before: &[RawItem], at: Span) -> Option<Fault>
    ensures { result ≡ fault_at bytes.now (ParamName (items before.now)) at }
{
    named_item(bytes, before, ItemKind::Param, LimitWhat::Params, at)
}

/// The fault of a predicate's name after the items `before`: over 32 letters, a seventeenth predicate, or the name of an item before.
pub fn pred_name(bytes: &[u8], before: &[RawItem], at: Span) -> Option<Fault>
    ensures { result ≡ fault_at bytes.now (PredName (items before.now)) at }
{
    named_item(bytes, before, ItemKind::Pred, LimitWhat::Predicates, at)
}

/// The fault of a coordinate's name after those `before` of its site type: over 32 letters, a thirty-third coordinate, or a name before.
pub fn coord_name(bytes: &[u8], before: &[RawCoord], at: Span) -> Option<Fault>
    ensures { result ≡ fault_at bytes.now (CoordName before.now) at }
{
    if long_name(bytes, at) {
        Some(Fault::Limit(LimitWhat::NameLength))
    } else if before.len() == 32 {
        Some(Fault::Limit(LimitWhat::Coords))
    } else if coord_twice(bytes, before, at) {
        Some(Fault::Named(NameWhat::Twice))
    } else {
        None
    }
}

const MOST_LITERAL: u128 = 170_141_183_460_469_231_731_687_303_715_884_105_727;

const MOST_END: u128 = 9_223_372_036_854_775_807;

fn over_literal(bytes: &[u8], at: Span) -> bool
    ensures { result ≡ nat_lt most_literal (number bytes.now at) }
{
    number(bytes, at) > MOST_LITERAL
}

fn over_end(bytes: &[u8], at: Span) -> bool
    ensures { result ≡ nat_lt most_end (number bytes.now at) }
{
    number(bytes, at) > MOST_END
}

/// The fault of the low end of a range: a number of 2^127 or more, or an end above 2^63 - 1.
pub fn low_end(bytes: &[u8], at: Span) -> Option<Fault>
    ensures fault { result ≡ fault_at bytes.now LowEnd at }
    ensures fine { IfNone result (number bytes.now at < 2 ^ 63) }
{
    if over_literal(bytes, at) {
        Some(Fault::Limit(LimitWhat::Literal))
    } else if over_end(bytes, at) {
        Some(Fault::Limit(LimitWhat::RangeEnd))
    } else {
        None
    }
}

fn above(low_negative: bool, low: u128, high_negative: bool, high: u128) -> bool
    requires { high < 2 ^ 63 }
    ensures { result ≡ int_lt (signed high_negative high) (signed low_negative (low)) }
{
    match (low_negative, high_negative) {
        (false, false) => high < low,
        (false, true) => 0 < low || 0 < high,
        (true, false) => false,
        (true, true) => low < high,
    }
}

fn under_low(bytes: &[u8], range: RawRange) -> bool
    requires low { number bytes.now range.low.at < 2 ^ 63 }
    requires high { number bytes.now range.high.at < 2 ^ 63 }
    ensures { result ≡ int_lt (end_value bytes.now range.high) (end_value bytes.now range.low) }
{
    above(
        range.low.negative,
        number(bytes, range.low.at),
        range.high.negative,
        number(bytes, range.high.at),
    )
}

/// The fault of the high end of a range: that of a low end, or an end below the range's low one.
pub fn high_end(bytes: &[u8], range: RawRange) -> Option<Fault>
    requires { number bytes.now range.low.at < 2 ^ 63 }
    ensures { result ≡ fault_at bytes.now (HighEnd range) range.high.at }
{
    if over_literal(bytes, range.high.at) {
        Some(Fault::Limit(LimitWhat::Literal))
    } else if over_end(bytes, range.high.at) {
        Some(Fault::Limit(LimitWhat::RangeEnd))
    } else if under_low(bytes, range) {
        Some(Fault::Limit(LimitWhat::RangeEnd))
    } else {
        None
    }
}

// Does one of the arguments have this name?
#[tactic(auto, using(crate::proofs::Lists::place_is_some))]
fn known_arg(bytes: &[u8], args: &[RawArg], kind: Option<ArgKind>, at: Span) -> bool
    ensures { result ≡ list_any (λ a. is_arg kind a && same bytes.now a.name at) args.now }
{
    arg_at(bytes, args, kind, at).is_some()
}

fn count_args(before: &[RawArg], kind: Option<ArgKind>) -> usize
    ensures { result ≡ count_by (is_arg kind) before.now }
{
    let mut n = 0usize;
    'each: for a in before {
        n += usize::from(is_arg(kind, a));
    }
    n
}

/// The fault of an argument's name after those `before` of its predicate: over 32 letters, or a name before.
pub fn arg_name(bytes: &[u8], before: &[RawArg], at: Span) -> Option<Fault>
    ensures { result ≡ fault_at bytes.now (ArgName before.now) at }
{
    if long_name(bytes, at) {
        Some(Fault::Limit(LimitWhat::NameLength))
    } else if known_arg(bytes, before, None, at) {
        Some(Fault::Named(NameWhat::Twice))
    } else {
        None
    }
}

/// The fault of the site type that an argument names: over 32 letters, a sixth site, or no site type of an item before.
pub fn arg_site(bytes: &[u8], its: &[RawItem], before: &[RawArg], at: Span) -> Option<Fault>
    ensures { result ≡ fault_at bytes.now (ArgSite (items its.now) before.now) at }
{
    if long_name(bytes, at) {
        Some(Fault::Limit(LimitWhat::NameLength))
    } else if count_args(before, Some(ArgKind::Site)) == 5 {
        Some(Fault::Limit(LimitWhat::SiteArgs))
    } else if declared(bytes, its, Some(ItemKind::Site), at) {
        None
    } else {
        Some(Fault::Named(NameWhat::Unknown))
    }
}

/// The fault of an argument that is a param: a ninth param, or no param of an item before.
pub fn arg_param(
    bytes: &[u8],
    its: &[RawItem],
    before: &[RawArg],
    name: Span,
    at: Span,
) -> Option<Fault>
    ensures { result ≡ fault_at bytes.now (ArgParam (items its.now) before.now name) at }
{
    if count_args(before, Some(ArgKind::Param)) == 8 {
        Some(Fault::Limit(LimitWhat::ParamArgs))
    } else if declared(bytes, its, Some(ItemKind::Param), name) {
        None
    } else {
        Some(Fault::Named(NameWhat::Unknown))
    }
}

#[tactic(auto, using(crate::proofs::Lists::place_is_some))]
fn known_let(bytes: &[u8], before: &[RawLet], at: Span) -> bool
    ensures { result ≡ has_let bytes.now before.now at }
{
    let_place(bytes, before, at).is_some()
}

/// The fault of a let's name after the lets `before`: over 32 letters, a sixty-fifth let, or the name of an argument or a let before.
pub fn let_name(bytes: &[u8], args: &[RawArg], before: &[RawLet], at: Span) -> Option<Fault>
    ensures { result ≡ fault_at bytes.now (LetName args.now before.now) at }
{
    if long_name(bytes, at) {
        Some(Fault::Limit(LimitWhat::NameLength))
    } else if before.len() == 64 {
        Some(Fault::Limit(LimitWhat::Lets))
    } else if known_arg(bytes, args, None, at) || known_let(bytes, before, at) {
        Some(Fault::Named(NameWhat::Twice))
    } else {
        None
    }
}

/// The literal that a number in an expression is after `before` nodes; or its fault: 2^127 or more, or one node too many (2,048).
pub fn number_node(bytes: &[u8], before: usize, at: Span) -> Result<What, Fault>
    ensures fine { OnOk result (fault_at bytes.now (NumberNode before) at ≡ None) }
    ensures what { IfOk result (λ w. w ≡ What.Number (pos (number bytes.now at))) }
    ensures err { IfErr result (λ f. fault_at bytes.now (NumberNode before) at ≡ Some f) }
{
    if over_literal(bytes, at) {
        Err(Fault::Limit(LimitWhat::Literal))
    } else if before == 2048 {
        Err(Fault::Limit(LimitWhat::Nodes))
    } else {
        Ok(What::Number(literal(bytes, at)))
    }
}

/// The fault of an operator after `before` nodes: one node too many (2,048).
pub fn operator_node(bytes: &[u8], before: usize, at: Span) -> Option<Fault>
    ensures { result ≡ fault_at bytes.now (OperatorNode before) at }
{
    if before == 2048 {
        Some(Fault::Limit(LimitWhat::Nodes))
    } else {
        None
    }
}

/// The power that an exponent makes; or its fault: a number of 2^127 or more, or one above 16.
pub fn exponent(bytes: &[u8], at: Span) -> Result<What, Fault>
    ensures fine { OnOk result (fault_at bytes.now ExponentOf at ≡ None) }
    ensures what { IfOk result (λ w. w ≡ What.Power (number bytes.now at)) }
    ensures err { IfErr result (λ f. fault_at bytes.now ExponentOf at ≡ Some f) }
{
    let n = number(bytes, at);
    if n > MOST_LITERAL {
        Err(Fault::Limit(LimitWhat::Literal))
    } else if n > 16 {
        Err(Fault::Limit(LimitWhat::Exponent))
    } else {
        Ok(What::Power(n as u8))
    }
}

/// What a name in an expression stands for, after `before` nodes; or its fault: over 32 letters, one node too many (2,048), or no let
/// and no param of this name.
pub fn name_node(bytes: &[u8], seen: Visible, before: usize, at: Span) -> Result<What, Fault>
    ensures fine { OnOk result (fault_at bytes.now (NameNode before (visible seen.entry)) at ≡ None) }
    ensures what { IfOk result (λ w. w ≡ named bytes.now (visible seen.entry) at) }
    ensures err { IfErr result (λ f. fault_at bytes.now (NameNode before (visible seen.entry)) at ≡ Some f) }
{
    if long_name(bytes, at) {
        return Err(Fault::Limit(LimitWhat::NameLength));
    }
    if before == 2048 {
        return Err(Fault::Limit(LimitWhat::Nodes));
    }
    if let Some(j) = let_place(bytes, seen.lets, at) {
        return Ok(What::Let(j));
    }
    match arg_at(bytes, seen.args, Some(ArgKind::Param), at) {
        Some(a) => Ok(What::Input(a, 0)),
        None => Err(Fault::Named(NameWhat::Unknown)),
    }
}

/// The fault of an argument whose coordinate is read, after `before` nodes: over 32 letters, one node too many (2,048), or no
/// site of this name.
pub fn input_node(bytes: &[u8], seen: Visible, before: usize, at: Span) -> Option<Fault>
    ensures { result ≡ fault_at bytes.now (InputNode before (visible seen.entry)) at }
{
    if long_name(bytes, at) {
        Some(Fault::Limit(LimitWhat::NameLength))
    } else if before == 2048 {
        Some(Fault::Limit(LimitWhat::Nodes))
    } else if known_arg(bytes, seen.args, Some(ArgKind::Site), at) {
        None
    } else {
        Some(Fault::Named(NameWhat::Unknown))
    }
}

/// What an argument and the coordinate that is read of it stand for; or the coordinate's fault: over 32 letters, or none of this name in the
/// argument's site type.
pub fn input_coord(bytes: &[u8], seen: Visible, arg: Span, at: Span) -> Result<What, Fault>
    ensures fine { OnOk result (fault_at bytes.now (InputCoord (visible seen.entry) arg) at ≡ None) }
    ensures what { IfOk result (λ w. w ≡ input_of bytes.now (visible seen.entry) arg at) }
    ensures err { IfErr result (λ f. fault_at bytes.now (InputCoord (visible seen.entry) arg) at ≡ Some f) }
{
    if long_name(bytes, at) {
        return Err(Fault::Limit(LimitWhat::NameLength));
    }
    let Some(a) = arg_at(bytes, seen.args, Some(ArgKind::Site), arg) else {
        return Err(Fault::Named(NameWhat::Unknown));
    };
    match coord_at(bytes, arg_coords(bytes, seen.before, seen.args, arg), at) {
        Some(c) => Ok(What::Input(a, c)),
        None => Err(Fault::Named(NameWhat::Unknown)),
    }
}
