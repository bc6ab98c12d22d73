//! The body of the function with two parameters: the filter, the blocks of the empty prefix, and then site by site the next one.
ghost use Rattle.std.specs.Prelude.{◌≡◌, ◌≢◌, ◌<◌, ◌+◌, ◌∷◌, ◌++◌, [], IfOk, MatchOption, codes, drop, length, map, take};
ghost use Rattle.ln_order.specs.Orders.{orders_of};
ghost use Rattle.ln_order.specs.Places.{order_places};
ghost use Rattle.ln_csyn.specs.Spelling.{PutsTokens, Goes, lexeme, spell, spell_body};
ghost use Rattle.ln_csyn.specs.Tree.{Body, Group, Index};
ghost use Rattle.ln_csyn.specs.declared.tree.CType.TheVariants.{Int64};
ghost use Rattle.ln_code.specs.Lists.{segment_of};
ghost use Rattle.ln_cemit.specs.Names.{block_name, answer_name};
ghost use Rattle.ln_cemit.specs.Puts.{Begins, close_braces, open_guards};
ghost use Rattle.ln_cemit.specs.Walked.{attempt, less, picks, says_nothing, tries, walked, without};
ghost use Rattle.ln_cemit.specs.Whole.{part_name};

use crate::title::block_title;
use ln_base::NoMemory;
use ln_code::Program;
use ln_csyn::spell::{put, put_op, put_tokens};
use ln_csyn::write::put_index;
use ln_csyn::{COp, CType};
use ln_order::Order;
use std::alloc::Global;

fn put_attempt(out: &mut Vec<u8>, title: &[u8]) -> Result<(), NoMemory>
    ensures { IfOk result (λ x. PutsTokens out.old.items out.new.items (spell_body (attempt answer_name title.now))) }
{
    put_tokens(out, b"int answer = ( ( int )")?;
    put(out, title)?;
    put_tokens(
        out,
        b"( v ) ) ; if ( ( ( ( int ) answer ) != ( ( int ) 0 ) ) ) { return ( ( int ) answer ) ; }",
    )
}

/// Appends the call of a function, and the return of its result where that isn't 0.
pub(crate) fn put_try(out: &mut Vec<u8>, title: &[u8]) -> Result<(), NoMemory>
    ensures { IfOk result (λ x. (b : Body) → Goes out.old.items out.new.items (spell_body b)
        (spell_body (Group 2 (attempt answer_name title.now) b))) }
{
    put(out, b"{")?;
    put_attempt(out, title)?;
    put(out, b"}")
}

fn put_block_try(
    alloc: Global,
    out: &mut Vec<u8>,
    name: &[u8],
    number: usize,
) -> Result<(), NoMemory>
    ensures { IfOk result (λ x. (b : Body) → Goes out.old.items out.new.items (spell_body b)
        (spell_body (Group 2 (attempt answer_name (block_name name.now number)) b))) }
{
    let title = block_title(alloc, name, number)?;
    put_try(out, title.as_slice())
}

// The calls of the blocks with these numbers, one after the other.
fn put_tries(alloc: Global, out: &mut Vec<u8>, name: &[u8], numbers: &[u32]) -> Result<(), NoMemory>
    ensures { IfOk result (λ x. (b : Body) → Goes out.old.items out.new.items (spell_body b)
        (spell_body (tries (block_name name.now) answer_name numbers.now b))) }
{
    'numbers: for number in numbers {
        put_block_try(alloc, out, name, *number as usize)?;
    }
    Ok(())
}

fn put_nothing(out: &mut Vec<u8>) -> Result<(), NoMemory>
    ensures { IfOk result (λ x. PutsTokens out.old.items out.new.items (spell_body says_nothing)) }
{
    put_tokens(out, b"return ( ( int ) 0 ) ;")
}

fn put_index_at(out: &mut Vec<u8>, i: u8) -> Result<(), NoMemory>
    ensures { IfOk result (λ x. PutsTokens out.old.items out.new.items (spell (Index Int64 i))) }
{
    put_index(out, CType::Int64, u64::from(i))
}

// Opens the statements where the index at place i is below that at place j.
fn put_guard(out: &mut Vec<u8>, i: u8, j: u8) -> Result<(), NoMemory>
    ensures { IfOk result (λ x. PutsTokens out.old.items out.new.items (λ r. lexeme (codes "if") ∷ lexeme (codes "(") ∷ spell (less i j)
        (lexeme (codes ")") ∷ lexeme (codes "{") ∷ r))) }
{
    put_tokens(out, b"if ( (")?;
    put_index_at(out, i)?;
    put_op(out, COp::Less)?;
    put_index_at(out, j)?;
    put_tokens(out, b") ) {")
}

fn put_guards(out: &mut Vec<u8>, i: u8, others: &[u8]) -> Result<(), NoMemory>
    ensures { IfOk result (λ x. PutsTokens out.old.items out.new.items (open_guards i others.now)) }
{
    'others: for j in others {
        put_guard(out, i, *j)?;
    }
    Ok(())
}

fn put_ends(out: &mut Vec<u8>, n: usize) -> Result<(), NoMemory>
    ensures { IfOk result (λ x. PutsTokens out.old.items out.new.items (close_braces n)) }
{
    if n == 0 {
        return Ok(());
    }
    put(out, b"}")?;
    put_ends(out, n - 1)
}

/// The name of a program.
pub(crate) fn name_of(p: &Program) -> &[u8]
    ensures { result.now ≡ part_name p.now }
{
    p.shape().name.bytes()
}

// These places, and one more.
fn longer(alloc: Global, front: &[u8], place: u8) -> Result<Vec<u8>, NoMemory>
    ensures { IfOk result (λ v. v.items ≡ front.now ++ place ∷ []) }
{
    let mut places = front.to_vec(alloc)?;
    places.push(place)?;
    Ok(places)
}

// Appends a place, but not this one.
fn keep(others: &mut Vec<u8>, place: u8, p: u8) -> Result<(), NoMemory>
    ensures { IfOk result (λ x. others.new.items ≡ others.old.items ++ without place (p ∷ [])) }
{
    if p != place {
        others.push(p)?;
    }
    Ok(())
}

// These places without one.
fn without(alloc: Global, place: u8, places: &[u8]) -> Result<Vec<u8>, NoMemory>
    ensures { IfOk result (λ v. v.items ≡ without place places.now) }
{
    let mut others = Vec::new(alloc);
    'places: for p in places {
        keep(&mut others, place, *p)?;
    }
    Ok(others)
}

// How many places these are, where the order begins with them.
fn begins(order: &Order, front: &[u8]) -> Option<u8>
    ensures { MatchOption result (take (length front.now) (order_places order.now) ≢ front.now)
        (λ j. Begins (order_places order.now) front.now j) }
{
    let places = order.places();
    if front.len() > places.len() {
        return None;
    }
    if &places[..front.len()] == front {
        Some(front.len() as u8)
    } else {
        None
    }
}

// The numbers of the blocks that are called where these sites are placed.
fn segment_at<'a>(p: &'a Program, orders: &[Order], front: &[u8]) -> &'a [u32]
    requires { map order_places orders.now ≡ orders_of p.now.shape.sites }
    ensures { result.now ≡ segment_of p.now front.now }
{
    'orders: for order in orders {
        if let Some(j) = begins(order, front) {
            return p.segment(order, j);
        }
    }
    &[]
}

/// A prefix of the orders of a program's sites: the sites that it places, and those that are left.
#[derive(Clone, Copy)]
pub(crate) struct Prefix<'a> {
    pub(crate) program: &'a Program,
    pub(crate) orders: &'a [Order],
    pub(crate) front: &'a [u8],
    pub(crate) left: &'a [u8],
}

/// Appends the statements from a prefix on, of whose remaining sites at most d are placed: the blocks of the prefix are called, and
/// where all are 0 the next site is found.
#[cycle(walk)]
pub(crate) fn put_walked(
    alloc: Global,
    out: &mut Vec<u8>,
    at: &Prefix,
    d: u8,
) -> Result<(), NoMemory>
    requires { map order_places at.now.orders.now ≡ orders_of at.now.program.now.shape.sites }
    ensures { IfOk result (λ x. PutsTokens out.old.items out.new.items (spell_body (walked (block_name (part_name at.now.program.now)) answer_name
        (segment_of at.now.program.now) d at.now.front.now at.now.left.now))) }
{
    let name = name_of(at.program);
    let segment = segment_at(at.program, at.orders, at.front);
    put_tries(alloc, out, name, segment)?;
    if d == 0 {
        return put_nothing(out);
    }
    put_picks(alloc, out, at, d - 1)
}

// The places after the one at k.
fn behind(left: &[u8], k: usize) -> &[u8]
    requires { k < length left.now }
    ensures { result.now ≡ drop (k + 1) left.now }
{
    &left[k + 1..]
}

// Appends the statements of the site with the least index, of the remaining ones.
#[cycle(walk)]
fn put_picks(alloc: Global, out: &mut Vec<u8>, at: &Prefix, d: u8) -> Result<(), NoMemory>
    requires { map order_places at.now.orders.now ≡ orders_of at.now.program.now.shape.sites }
    ensures { IfOk result (λ x. PutsTokens out.old.items out.new.items (spell_body (picks (λ i. walked (block_name (part_name at.now.program.now)) answer_name
        (segment_of at.now.program.now) d (at.now.front.now ++ i ∷ []) (without i at.now.left.now)) at.now.left.now))) }
{
    if at.left.is_empty() {
        return put_nothing(out);
    }
    'left: for (k, place) in at.left.iter().enumerate() {
        let others = behind(at.left, k);
        put_pick(alloc, out, at, d, *place, others)?;
    }
    Ok(())
}

// The statements of one of the sites, where its index is below those of the others after it.
#[cycle(walk)]
fn put_pick(
    alloc: Global,
    out: &mut Vec<u8>,
    at: &Prefix,
    d: u8,
    place: u8,
    others: &[u8],
) -> Result<(), NoMemory>
    requires { map order_places at.now.orders.now ≡ orders_of at.now.program.now.shape.sites }
    ensures { IfOk result (λ x. PutsTokens out.old.items out.new.items (λ r. open_guards place others.now
        (spell_body (walked (block_name (part_name at.now.program.now)) answer_name (segment_of at.now.program.now) d (at.now.front.now ++ place ∷ [])
        (without place at.now.left.now)) (close_braces (length others.now) r)))) }
{
    put_guards(out, place, others)?;
    let front = longer(alloc, at.front, place)?;
    let left = without(alloc, place, at.left)?;
    let next = Prefix {
        program: at.program,
        orders: at.orders,
        front: front.as_slice(),
        left: left.as_slice(),
    };
    let done = put_walked(alloc, out, &next, d);
    drop(left);
    drop(front);
    done?;
    put_ends(out, others.len())
}
