//! The first fault of a file: its tokens in order of the text.
ghost use Rattle.std.specs.Prelude.{◌≡◌, ◌+◌, ◌<◌, ◌≤◌, [], ◌∷◌, None, Some, IfOk, IfErr, OnOk, ℕ, List};
ghost use Rattle.ln_syntax.specs.Raw.{Token as Tok, Item, items, item, span_at};
ghost use Rattle.ln_names.specs.declared.faults.Found.{Found as Fnd};
ghost use Rattle.ln_names.specs.Along.{JudgesInOrder};
ghost use Rattle.ln_names.specs.First.{FirstFault, NoFault, NamesStopAt, StopsNames};
ghost use Rattle.ln_names.specs.Limits.{FaultlessIsWithin};
ghost use Rattle.ln_names.specs.Machine.{machine_step, node_at, machine_in};
ghost use Rattle.ln_names.specs.Nodes.{AreNodes, LetsNodes, PredNodes, BodyIs, BodiesAre};
ghost use Rattle.ln_names.specs.Rules.{fault_at, SiteName, ParamName, PredName};
ghost use Rattle.ln_names.specs.Resolve.{visible};
ghost use Rattle.ln_names.specs.Visits.{visit, first_fault, visits_by, range_visits, coord_visits, arg_visits, role_at, is_node, role_use, kind_use};
ghost use Rattle.ln_names.specs.Visits.{token_visits, is_node_at, body_visits, value_visits, value_nodes, nodes_before, let_visits, item_visits, file_visits};

use crate::faults::{Fault, Found, NamesStop};
use crate::nodes::{Body, Node};
use crate::reading::Reading;
use crate::resolve::Visible;
use crate::roles::{Role, kind_at, node_of, role_at};
use crate::tokens;
use ln_base::{Seq, Span};
use ln_lex::Token;
use ln_syntax::items::span_of;
use ln_syntax::{Places, RawArg, RawCoord, RawItem, RawLet, RawRange};
use std::alloc::Global;

/// The nodes of a file's expressions; or its first fault of names and limits, or out of memory.
pub fn check_names(
    alloc: Global,
    bytes: &[u8],
    ts: &[Token],
    its: &[RawItem],
) -> Result<Seq<Body>, NamesStop>
    ensures ok { OnOk result (NoFault bytes.now ts.now (items its.now)) }
    ensures nodes { IfOk result (λ bs. BodiesAre bytes.now ts.now (items its.now) bs) }
    ensures err { IfErr result (λ e. StopsNames bytes.now ts.now (items its.now) e) }
{
    file_nodes(alloc, bytes, ts, its)
}

/// A list of items has one first fault, and none where no token has one.
pub fn one_fault()
    ensures one { (bytes : List ℕ) (ts : List Tok) (is : List Item) (f g : Fnd) → FirstFault bytes ts is f →
        FirstFault bytes ts is g → f ≡ g }
    ensures none { (bytes : List ℕ) (ts : List Tok) (is : List Item) (f : Fnd) → FirstFault bytes ts is f → NoFault bytes ts is → ⊥ }
{}

/// The tokens that are judged are in order of the text, and no NAME and no NUMBER is left out.
#[tactic(auto, using(crate::proofs::Order::judges_in_order))]
pub fn judges_in_order()
    ensures { JudgesInOrder }
{}

/// A file without a fault is within the limits, and its names are known and each its own.
#[tactic(auto, using(crate::proofs::Faultless::faultless_is_within))]
pub fn faultless_is_within()
    ensures { FaultlessIsWithin }
{}

fn file_nodes(
    alloc: Global,
    bytes: &[u8],
    ts: &[Token],
    its: &[RawItem],
) -> Result<Seq<Body>, NamesStop>
    ensures fine { OnOk result (first_fault bytes.now (file_visits ts.now (items its.now)) ≡ None) }
    ensures nodes { IfOk result (λ bs. BodiesAre bytes.now ts.now (items its.now) bs) }
    ensures err { IfErr result (NamesStopAt (first_fault bytes.now (file_visits ts.now (items its.now)))) }
{
    let mut bodies = Seq::new(alloc);
    for (i, it) in its.iter().enumerate() {
        bodies.push(item_nodes(alloc, bytes, ts, &its[..i], it)?)?;
    }
    Ok(bodies)
}

fn item_nodes(
    alloc: Global,
    bytes: &[u8],
    ts: &[Token],
    before: &[RawItem],
    it: &RawItem,
) -> Result<Body, NamesStop>
    ensures fine { OnOk result (first_fault bytes.now (item_visits ts.now (items before.now) (item it.now)) ≡ None) }
    ensures nodes { IfOk result (λ b. BodyIs bytes.now ts.now (items before.now) (item it.now) b) }
    ensures err { IfErr result (NamesStopAt (first_fault bytes.now (item_visits ts.now (items before.now) (item it.now)))) }
{
    match it {
        RawItem::Site(name, coords) => {
            passed(site_fault(bytes, before, *name, coords))?;
            Ok(Body::none(alloc))
        }
        RawItem::Param(name, range) => {
            passed(param_fault(bytes, before, *name, *range))?;
            Ok(Body::none(alloc))
        }
        RawItem::Pred(name, args, lets, root) => {
            passed(head_fault(bytes, before, *name, args))?;
            pred_nodes(alloc, bytes, ts, Visible { before, args, lets }, *root)
        }
    }
}

fn site_fault(bytes: &[u8], before: &[RawItem], name: Span, coords: &[RawCoord]) -> Option<Found>
    ensures { result ≡ first_fault bytes.now (visit (SiteName (items before.now)) name ∷ visits_by coord_visits [] coords.now) }
{
    match tokens::site_name(bytes, before, name) {
        Some(fault) => Some(Found { fault, at: name }),
        None => coords_fault(bytes, coords),
    }
}

fn param_fault(bytes: &[u8], before: &[RawItem], name: Span, range: RawRange) -> Option<Found>
    ensures { result ≡ first_fault bytes.now (visit (ParamName (items before.now)) name ∷ range_visits range) }
{
    match tokens::param_name(bytes, before, name) {
        Some(fault) => Some(Found { fault, at: name }),
        None => range_fault(bytes, range),
    }
}

// The fault of a predicate's name or arguments.
fn head_fault(bytes: &[u8], before: &[RawItem], name: Span, args: &[RawArg]) -> Option<Found>
    ensures { result ≡ first_fault bytes.now (visit (PredName (items before.now)) name ∷ visits_by (arg_visits (items before.now)) [] args.now) }
{
    match tokens::pred_name(bytes, before, name) {
        Some(fault) => Some(Found { fault, at: name }),
        None => args_fault(bytes, before, args),
    }
}

// The fault as a stop, if there is one.
fn passed(fault: Option<Found>) -> Result<(), NamesStop>
    ensures fine { OnOk result (fault ≡ None) }
    ensures err { IfErr result (NamesStopAt fault) }
{
    match fault {
        None => Ok(()),
        Some(found) => Err(NamesStop::Found(found)),
    }
}

// The nodes of a predicate without a fault before its lets.
fn pred_nodes(
    alloc: Global,
    bytes: &[u8],
    ts: &[Token],
    seen: Visible,
    root: Places,
) -> Result<Body, NamesStop>
    ensures fine { OnOk result (first_fault bytes.now
        (body_visits ts.now (items seen.entry.before.now) seen.entry.args.now seen.entry.lets.now root) ≡ None) }
    ensures nodes { IfOk result (λ b. PredNodes bytes.now ts.now (items seen.entry.before.now) seen.entry.args.now seen.entry.lets.now root b) }
    ensures err { IfErr result (NamesStopAt (first_fault bytes.now
        (body_visits ts.now (items seen.entry.before.now) seen.entry.args.now seen.entry.lets.now root))) }
{
    let values = lets_nodes(alloc, bytes, ts, seen.before, seen.args, seen.lets)?;
    let value = value_nodes(alloc, bytes, ts, seen, values.count, root)?;
    Ok(Body {
        lets: values.lets,
        root: value.nodes,
    })
}

fn args_fault(bytes: &[u8], its: &[RawItem], args: &[RawArg]) -> Option<Found>
    ensures { result ≡ first_fault bytes.now (visits_by (arg_visits (items its.now)) [] args.now) }
{
    for (i, a) in args.iter().enumerate() {
        if let Some(found) = arg_fault(bytes, its, &args[..i], *a) {
            return Some(found);
        }
    }
    None
}

fn arg_fault(bytes: &[u8], its: &[RawItem], before: &[RawArg], a: RawArg) -> Option<Found>
    ensures { result ≡ first_fault bytes.now (arg_visits (items its.now) before.now a) }
{
    if let Some(fault) = tokens::arg_name(bytes, before, a.name) {
        return Some(Found { fault, at: a.name });
    }
    match kind_fault(bytes, its, before, a) {
        Some(fault) => Some(Found { fault, at: a.kind }),
        None => None,
    }
}

fn kind_fault(bytes: &[u8], its: &[RawItem], before: &[RawArg], a: RawArg) -> Option<Fault>
    ensures { result ≡ fault_at bytes.now (kind_use (items its.now) before.now a) a.kind }
{
    if a.is_param {
        tokens::arg_param(bytes, its, before, a.name, a.kind)
    } else {
        tokens::arg_site(bytes, its, before, a.kind)
    }
}

// The nodes of lets, and how many there are.
#[derive(Drop)]
struct Values {
    lets: Seq<Seq<Node>>,
    count: usize,
}

fn lets_nodes(
    alloc: Global,
    bytes: &[u8],
    ts: &[Token],
    its: &[RawItem],
    args: &[RawArg],
    lets: &[RawLet],
) -> Result<Values, NamesStop>
    ensures fine { OnOk result (first_fault bytes.now (visits_by (let_visits ts.now (items its.now) args.now) [] lets.now) ≡ None) }
    ensures nodes { IfOk result (λ v. LetsNodes bytes.now ts.now (items its.now) args.now lets.now v.lets) }
    ensures count { IfOk result (λ v. v.count ≡ nodes_before ts.now lets.now) }
    ensures few { IfOk result (λ v. v.count ≤ 2048) }
    ensures err { IfErr result (NamesStopAt (first_fault bytes.now (visits_by (let_visits ts.now (items its.now) args.now) [] lets.now))) }
{
    let mut values = Seq::new(alloc);
    let mut n = 0;
    for (i, l) in lets.iter().enumerate() {
        let seen = Visible {
            before: its,
            args,
            lets: &lets[..i],
        };
        let value = let_nodes(alloc, bytes, ts, seen, n, *l)?;
        n = value.count;
        values.push(value.nodes)?;
    }
    Ok(Values {
        lets: values,
        count: n,
    })
}

fn let_nodes(
    alloc: Global,
    bytes: &[u8],
    ts: &[Token],
    seen: Visible,
    n: usize,
    l: RawLet,
) -> Result<Value, NamesStop>
    requires few { n ≤ 2048 }
    requires before { n ≡ nodes_before ts.now seen.lets.now }
    ensures fine { OnOk result (first_fault bytes.now
        (let_visits ts.now (items seen.entry.before.now) seen.entry.args.now seen.entry.lets.now l) ≡ None) }
    ensures nodes { IfOk result (λ v. AreNodes bytes.now ts.now (visible seen.entry) l.value v.nodes) }
    ensures count { IfOk result (λ v. v.count ≡ n + value_nodes ts.now l.value) }
    ensures few { IfOk result (λ v. v.count ≤ 2048) }
    ensures err { IfErr result (NamesStopAt (first_fault bytes.now
        (let_visits ts.now (items seen.entry.before.now) seen.entry.args.now seen.entry.lets.now l))) }
{
    if let Some(fault) = tokens::let_name(bytes, seen.args, seen.lets, l.name) {
        return Err(NamesStop::Found(Found { fault, at: l.name }));
    }
    value_nodes(alloc, bytes, ts, seen, n, l.value)
}

// The nodes of an expression, and how many there are with those before it.
#[derive(Drop)]
struct Value {
    nodes: Seq<Node>,
    count: usize,
}

fn value_nodes(
    alloc: Global,
    bytes: &[u8],
    ts: &[Token],
    seen: Visible,
    n: usize,
    p: Places,
) -> Result<Value, NamesStop>
    requires few { n ≤ 2048 }
    ensures fine { OnOk result (first_fault bytes.now (value_visits ts.now (visible seen.entry) n p) ≡ None) }
    ensures nodes { IfOk result (λ v. AreNodes bytes.now ts.now (visible seen.entry) p v.nodes) }
    ensures count { IfOk result (λ v. v.count ≡ n + value_nodes ts.now p) }
    ensures few { IfOk result (λ v. v.count ≤ 2048) }
    ensures err { IfErr result (NamesStopAt (first_fault bytes.now (value_visits ts.now (visible seen.entry) n p))) }
{
    let mut reading = Reading::new(alloc);
    let mut count = n;
    for k in p.from..p.to {
        count = token_read(&mut reading, bytes, ts, seen, count, k)?;
    }
    reading.settle(1)?;
    Ok(Value {
        nodes: reading.nodes,
        count,
    })
}

// Reads a token, and returns the count of nodes with it.
fn token_read(
    reading: &mut Reading,
    bytes: &[u8],
    ts: &[Token],
    seen: Visible,
    n: usize,
    k: usize,
) -> Result<usize, NamesStop>
    requires few { n ≤ 2048 }
    requires place { k < usize.MAX }
    ensures fine { OnOk result (first_fault bytes.now (token_visits ts.now (visible seen.entry) n k (role_at ts.now k)) ≡ None) }
    ensures step { OnOk result (machine_in reading.new ≡ machine_step bytes.now ts.now (visible seen.entry) k (machine_in reading.old)) }
    ensures count { IfOk result (λ m. m ≡ n + is_node_at (role_at ts.now k)) }
    ensures few { IfOk result (λ m. m ≤ 2048) }
    ensures err { IfErr result (NamesStopAt (first_fault bytes.now (token_visits ts.now (visible seen.entry) n k (role_at ts.now k)))) }
{
    let Some(role) = role_at(ts, k) else {
        reading.enclose(kind_at(ts, k))?;
        return Ok(n);
    };
    let node = match role_node(bytes, ts, seen, n, k, role) {
        Ok(node) => node,
        Err(fault) => {
            return Err(NamesStop::Found(Found {
                fault,
                at: span_of(ts, k),
            }));
        }
    };
    match role {
        Role::Operator(p) => reading.operate(p, span_of(ts, k))?,
        _ => reading.emit(node)?,
    }
    Ok(n + node_of(role))
}

// The node whose last token this is, if there is one; or the token's fault.
fn role_node(
    bytes: &[u8],
    ts: &[Token],
    seen: Visible,
    n: usize,
    k: usize,
    role: Role,
) -> Result<Option<Node>, Fault>
    requires { n ≤ 2048 }
    ensures fine { OnOk result (fault_at bytes.now (role_use ts.now (visible seen.entry) n k role) (span_at ts.now k) ≡ None) }
    ensures few { OnOk result (n + is_node role ≤ 2048) }
    ensures node { IfOk result (λ o. o ≡ node_at bytes.now ts.now (visible seen.entry) k role) }
    ensures err { IfErr result (λ f. fault_at bytes.now (role_use ts.now (visible seen.entry) n k role) (span_at ts.now k) ≡ Some f) }
{
    let at = span_of(ts, k);
    let (what, at) = match role {
        Role::Value => (tokens::number_node(bytes, n, at)?, at),
        Role::Bare => (tokens::name_node(bytes, seen, n, at)?, at),
        Role::AfterCaret => (
            tokens::exponent(bytes, at)?,
            span_of(ts, k.saturating_sub(1)),
        ),
        Role::AfterDot => {
            let first = span_of(ts, k.saturating_sub(2));
            (tokens::input_coord(bytes, seen, first, at)?, first)
        }
        Role::Input => return no_node(tokens::input_node(bytes, seen, n, at)),
        Role::Operator(_) | Role::Caret => return no_node(tokens::operator_node(bytes, n, at)),
    };
    Ok(Some(Node { what, at }))
}

fn no_node(fault: Option<Fault>) -> Result<Option<Node>, Fault>
    ensures fine { IfOk result (λ o. (o ≡ None) × (fault ≡ None)) }
    ensures err { IfErr result (λ f. fault ≡ Some f) }
{
    match fault {
        None => Ok(None),
        Some(fault) => Err(fault),
    }
}

fn coords_fault(bytes: &[u8], coords: &[RawCoord]) -> Option<Found>
    ensures { result ≡ first_fault bytes.now (visits_by coord_visits [] coords.now) }
{
    for (i, c) in coords.iter().enumerate() {
        if let Some(found) = coord_fault(bytes, &coords[..i], *c) {
            return Some(found);
        }
    }
    None
}

fn coord_fault(bytes: &[u8], before: &[RawCoord], c: RawCoord) -> Option<Found>
    ensures { result ≡ first_fault bytes.now (coord_visits before.now c) }
{
    match tokens::coord_name(bytes, before, c.name) {
        Some(fault) => Some(Found { fault, at: c.name }),
        None => range_fault(bytes, c.range),
    }
}

fn range_fault(bytes: &[u8], range: RawRange) -> Option<Found>
    ensures { result ≡ first_fault bytes.now (range_visits range) }
{
    if let Some(fault) = tokens::low_end(bytes, range.low.at) {
        return Some(Found {
            fault,
            at: range.low.at,
        });
    }
    match tokens::high_end(bytes, range) {
        Some(fault) => Some(Found {
            fault,
            at: range.high.at,
        }),
        None => None,
    }
}
