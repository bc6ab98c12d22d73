//! The functions of blocks and filters.
ghost use Rattle.std.specs.Prelude.{◌≡◌, ◌<◌, ◌+◌, ◌∷◌, [], true, false, IfOk, Some, codes, drop, length, map, reverse};
ghost use Rattle.ln_csyn.specs.Spelling.{Goes, PutsTokens, lexeme, spell, spell_body, spell_fun, spell_own, spell_parameters};
ghost use Rattle.ln_csyn.specs.Tree.{Body, End, Inner, Minus, Number, Two};
ghost use Rattle.ln_csyn.specs.declared.tree.CType.TheVariants.{Int};
ghost use Rattle.ln_csyn.specs.declared.tree.COp.TheVariants.{Less, More};
ghost use Rattle.ln_interval.specs.View.{range};
ghost use Rattle.ln_code.specs.Numbers.{no_locals};
ghost use Rattle.ln_code.specs.Part.{lines_of};
ghost use Rattle.ln_code.specs.declared.op.Op.TheVariants.{Set};
ghost use Rattle.ln_cemit.specs.Emit.{any_gets, body_of, cut_away, emitted, gets, naming, unread, lowest};
ghost use Rattle.ln_cemit.specs.Emit.{operand, put_sign, reads, sign_expr, touching, touching_index, type_of};
ghost use Rattle.ln_cemit.specs.File.{one_fun};
ghost use Rattle.ln_cemit.specs.Names.{decl_name};
ghost use Rattle.ln_cemit.specs.Puts.{any_reads, locals_of};
ghost use Rattle.ln_cemit.specs.Whole.{block_body, filter_body};
ghost use Rattle.ln_cemit.specs.Ways.{block_way, filter_way};

use crate::put::{put_decl_name, put_number_of, put_operand, put_operation};
use crate::slot::{Slot, Way};
use ln_base::NoMemory;
use ln_bound::Width;
use ln_code::{Block, FilterBlock, Op, Triple};
use ln_csyn::COp;
use ln_csyn::spell::{put, put_op, put_tokens};
use ln_interval::Pair;
use std::alloc::Global;

fn put_minus(out: &mut Vec<u8>, width: Width, e: u64) -> Result<(), NoMemory>
    ensures { IfOk result (λ x. PutsTokens out.old.items out.new.items (spell (Minus (Number (type_of width) e)))) }
{
    put_tokens(out, b"( -")?;
    put_number_of(out, width, e)?;
    put(out, b")")
}

// The least number that isn't below -e.
fn put_lowest(out: &mut Vec<u8>, width: Width, e: u64) -> Result<(), NoMemory>
    ensures { IfOk result (λ x. PutsTokens out.old.items out.new.items (spell (lowest (type_of width) e))) }
{
    if e == 0 {
        put_number_of(out, width, 0)
    } else {
        put_minus(out, width, e)
    }
}

// Is the value above e?
fn put_above(out: &mut Vec<u8>, e: u64, slot: Slot) -> Result<(), NoMemory>
    ensures { IfOk result (λ x. PutsTokens out.old.items out.new.items
        (spell (Inner Int (Two More (operand decl_name slot.width slot) (Number (type_of slot.width) e))))) }
{
    put_tokens(out, b"( ( int ) (")?;
    put_operand(out, slot.width, slot)?;
    put_op(out, COp::More)?;
    put_number_of(out, slot.width, e)?;
    put_tokens(out, b") )")
}

// Is it below -e?
fn put_below(out: &mut Vec<u8>, e: u64, slot: Slot) -> Result<(), NoMemory>
    ensures { IfOk result (λ x. PutsTokens out.old.items out.new.items
        (spell (Inner Int (Two Less (operand decl_name slot.width slot) (lowest (type_of slot.width) e))))) }
{
    put_tokens(out, b"( ( int ) (")?;
    put_operand(out, slot.width, slot)?;
    put_op(out, COp::Less)?;
    put_lowest(out, slot.width, e)?;
    put_tokens(out, b") )")
}

// The sign of a value above e in absolute value, else 0.
fn put_sign_expr(out: &mut Vec<u8>, e: u64, slot: Slot) -> Result<(), NoMemory>
    ensures { IfOk result (λ x. PutsTokens out.old.items out.new.items (spell (sign_expr decl_name e slot))) }
{
    put(out, b"(")?;
    put_above(out, e, slot)?;
    put_op(out, COp::Sub)?;
    put_below(out, e, slot)?;
    put(out, b")")
}

fn put_answer(out: &mut Vec<u8>, e: u64, slot: Slot) -> Result<(), NoMemory>
    ensures { IfOk result (λ x. PutsTokens out.old.items out.new.items
        (λ r. lexeme (codes "return") ∷ spell (sign_expr decl_name e slot) (lexeme (codes ";") ∷ r))) }
{
    put(out, b"return")?;
    put_sign_expr(out, e, slot)?;
    put(out, b";")
}

// Appends the return of the sign of the one remaining value.
fn put_sign(out: &mut Vec<u8>, e: u64, stack: &[Slot]) -> Result<(), NoMemory>
    ensures { IfOk result (λ x. PutsTokens out.old.items out.new.items (spell_body (put_sign decl_name e (reverse stack.now)))) }
{
    match stack {
        [slot] => put_answer(out, e, *slot),
        _ => Ok(()),
    }
}

// No local is set.
fn no_slots() -> [Option<Slot>; 256]
    ensures size { length result ≡ 256 }
    ensures none { locals_of result ≡ no_locals }
{
    [None; 256]
}

// Does it read this local?
fn gets(op: &Op, j: u8) -> bool
    ensures { result ≡ gets j op.now }
{
    match op {
        Op::Get(i) => *i == j,
        Op::Push(_)
        | Op::Input(_)
        | Op::Set(_)
        | Op::Add(_)
        | Op::Sub(_)
        | Op::Mul(_)
        | Op::Neg(_)
        | Op::Cut(_) => false,
    }
}

// Does one of these?
fn any_gets(ops: &[Op], j: u8) -> bool
    ensures { result ≡ any_gets j ops.now }
{
    'ops: for op in ops {
        if gets(op, j) {
            return true;
        }
    }
    false
}

// The declaration of a local, if none of the operations after it reads it.
fn unread_local(j: u8, behind: &[Op], n: usize) -> Option<usize>
    ensures { result ≡ unread (Set j) behind.now n [] }
{
    if any_gets(behind, j) { None } else { Some(n) }
}

fn cut_from(m: u8, top: Slot) -> Option<usize>
    ensures { result ≡ cut_away m (top ∷ []) }
{
    if m < 63 { None } else { Some(top.at) }
}

// The declaration that is cut to 0, if one is.
fn cut_away(m: u8, stack: &[Slot]) -> Option<usize>
    ensures { result ≡ cut_away m (reverse stack.now) }
{
    if stack.is_empty() {
        return None;
    }
    let top = stack[stack.len() - 1];
    cut_from(m, top)
}

// The declaration that nothing reads although this operation is done, if there is one.
fn unread(op: Op, behind: &[Op], n: usize, stack: &[Slot]) -> Option<usize>
    ensures { result ≡ unread op behind.now n (reverse stack.now) }
{
    match op {
        Op::Set(j) => unread_local(j, behind, n),
        Op::Cut(m) => cut_away(m, stack),
        Op::Push(_)
        | Op::Input(_)
        | Op::Get(_)
        | Op::Add(_)
        | Op::Sub(_)
        | Op::Mul(_)
        | Op::Neg(_) => None,
    }
}

// The operations after the one at i.
fn behind(ops: &[Op], i: usize) -> &[Op]
    requires { i < length ops.now }
    ensures { result.now ≡ drop (i + 1) ops.now }
{
    &ops[i + 1..]
}

// A statement that names a declaration and is never reached.
fn put_name(out: &mut Vec<u8>, n: usize) -> Result<(), NoMemory>
    ensures { IfOk result (λ x. PutsTokens out.old.items out.new.items (spell_body (naming decl_name (Some n) End))) }
{
    put_tokens(out, b"if ( ( ( int ) 0 ) ) { return ( ( int )")?;
    put_decl_name(out, n)?;
    put_tokens(out, b") ; }")
}

// The statement that names a declaration, if there is one.
fn put_may_name(out: &mut Vec<u8>, n: Option<usize>) -> Result<(), NoMemory>
    ensures { IfOk result (λ x. (b : Body) → Goes out.old.items out.new.items (spell_body b) (spell_body (naming decl_name n b))) }
{
    match n {
        Some(i) => put_name(out, i),
        None => Ok(()),
    }
}

// A declaration for each operation, and the return of the sign.
fn put_lines(
    alloc: Global,
    out: &mut Vec<u8>,
    e: u64,
    ops: &[Op],
    ways: &[Way],
) -> Result<(), NoMemory>
    requires { length ops.now ≡ length ways.now }
    ensures { IfOk result (λ x. PutsTokens out.old.items out.new.items
        (spell_body (emitted decl_name e (lines_of ops.now ways.now) 0 [] no_locals))) }
{
    let mut stack = Vec::new(alloc);
    let mut locals = no_slots();
    'ops: for (i, op) in ops.iter().enumerate() {
        let idle = unread(*op, behind(ops, i), i, stack.as_slice());
        let more = put_operation(out, i, *op, ways[i], &mut stack, &mut locals)?;
        if !more {
            return Ok(());
        }
        put_may_name(out, idle)?;
    }
    put_sign(out, e, stack.as_slice())
}

fn is_input(op: &Op) -> bool
    ensures { result ≡ reads op.now }
{
    match op {
        Op::Input(_) => true,
        Op::Push(_)
        | Op::Get(_)
        | Op::Set(_)
        | Op::Add(_)
        | Op::Sub(_)
        | Op::Mul(_)
        | Op::Neg(_)
        | Op::Cut(_) => false,
    }
}

// Does an operation read a value of the row?
fn reads_row(ops: &[Op]) -> bool
    ensures { result ≡ any_reads ops.now }
{
    'ops: for op in ops {
        if is_input(op) {
            return true;
        }
    }
    false
}

// A statement that names the values and is never reached.
fn put_touch(out: &mut Vec<u8>) -> Result<(), NoMemory>
    ensures { IfOk result (λ x. PutsTokens out.old.items out.new.items (spell_body (touching false End))) }
{
    put_tokens(
        out,
        b"if ( ( ( int ) 0 ) ) { return ( ( int ) v [ 0 ] ) ; }",
    )
}

// The same for the indices.
fn put_touch_index(out: &mut Vec<u8>) -> Result<(), NoMemory>
    ensures { IfOk result (λ x. PutsTokens out.old.items out.new.items (spell_body (touching_index false End))) }
{
    put_tokens(
        out,
        b"if ( ( ( int ) 0 ) ) { return ( ( int ) x [ 0 ] ) ; }",
    )
}

// The statement that names the values, where nothing else does.
fn put_may_touch(out: &mut Vec<u8>, reads: bool) -> Result<(), NoMemory>
    ensures { IfOk result (λ x. (b : Body) → Goes out.old.items out.new.items (spell_body b) (spell_body (touching reads b))) }
{
    if reads {
        return Ok(());
    }
    put_touch(out)
}

/// The same for the indices.
pub(crate) fn put_may_touch_index(out: &mut Vec<u8>, reads: bool) -> Result<(), NoMemory>
    ensures { IfOk result (λ x. (b : Body) → Goes out.old.items out.new.items (spell_body b) (spell_body (touching_index reads b))) }
{
    if reads {
        return Ok(());
    }
    put_touch_index(out)
}

fn put_body(
    alloc: Global,
    out: &mut Vec<u8>,
    e: u64,
    ops: &[Op],
    ways: &[Way],
) -> Result<(), NoMemory>
    requires { length ops.now ≡ length ways.now }
    ensures { IfOk result (λ x. PutsTokens out.old.items out.new.items (spell_body (body_of decl_name e (lines_of ops.now ways.now)))) }
{
    let reads = reads_row(ops);
    put_may_touch(out, reads)?;
    put_lines(alloc, out, e, ops, ways)
}

/// Appends the head of a function with one parameter.
fn put_one_head(out: &mut Vec<u8>, title: &[u8]) -> Result<(), NoMemory>
    ensures { IfOk result (λ x. PutsTokens out.old.items out.new.items
        (λ r. spell_own true (lexeme (codes "int") ∷ lexeme title.now ∷ lexeme (codes "(")
        ∷ spell_parameters false (lexeme (codes ")") ∷ r)))) }
{
    put_tokens(out, b"static int")?;
    put(out, title)?;
    put_tokens(out, b"( const int64_t * v )")
}

/// Appends the head of the function with two parameters.
pub(crate) fn put_two_head(out: &mut Vec<u8>, title: &[u8]) -> Result<(), NoMemory>
    ensures { IfOk result (λ x. PutsTokens out.old.items out.new.items (λ r. lexeme (codes "int") ∷ lexeme title.now
        ∷ lexeme (codes "(") ∷ spell_parameters true (lexeme (codes ")") ∷ r))) }
{
    put_tokens(out, b"int")?;
    put(out, title)?;
    put_tokens(out, b"( const int64_t * x , const int64_t * v )")
}

// Appends a function of lines: e is 0 in a block, in a filter the error of the remaining value.
fn put_fun(
    alloc: Global,
    out: &mut Vec<u8>,
    title: &[u8],
    e: u64,
    ops: &[Op],
    ways: &[Way],
) -> Result<(), NoMemory>
    requires { length ops.now ≡ length ways.now }
    ensures { IfOk result (λ x. PutsTokens out.old.items out.new.items
        (spell_fun (one_fun title.now (body_of decl_name e (lines_of ops.now ways.now))))) }
{
    put_one_head(out, title)?;
    put(out, b"{")?;
    put_body(alloc, out, e, ops, ways)?;
    put(out, b"}")
}

fn block_ways(alloc: Global, pairs: &[Pair]) -> Result<Vec<Way>, NoMemory>
    ensures { IfOk result (λ v. v.items ≡ map block_way (map range pairs.now)) }
{
    let mut ways = Vec::new(alloc);
    'pairs: for p in pairs {
        ways.push(Way {
            shift: 0,
            width: Width::least(p.magnitude()),
        })?;
    }
    Ok(ways)
}

fn filter_ways(alloc: Global, triples: &[Triple]) -> Result<Vec<Way>, NoMemory>
    ensures { IfOk result (λ v. v.items ≡ map filter_way triples.now) }
{
    let mut ways = Vec::new(alloc);
    'triples: for t in triples {
        ways.push(Way {
            shift: t.k,
            width: Width::W64,
        })?;
    }
    Ok(ways)
}

/// Appends the function of a block.
pub(crate) fn put_block_fun(
    alloc: Global,
    out: &mut Vec<u8>,
    title: &[u8],
    block: &Block,
) -> Result<(), NoMemory>
    ensures { IfOk result (λ x. PutsTokens out.old.items out.new.items (spell_fun (one_fun title.now (block_body block.now)))) }
{
    let ways = block_ways(alloc, block.pairs())?;
    put_fun(alloc, out, title, 0, block.ops(), ways.as_slice())
}

/// Appends the function of a filter.
pub(crate) fn put_filter_fun(
    alloc: Global,
    out: &mut Vec<u8>,
    title: &[u8],
    filter: &FilterBlock,
) -> Result<(), NoMemory>
    ensures { IfOk result (λ x. PutsTokens out.old.items out.new.items (spell_fun (one_fun title.now (filter_body filter.now)))) }
{
    let ways = filter_ways(alloc, filter.triples())?;
    let e = filter.error();
    put_fun(alloc, out, title, e, filter.ops(), ways.as_slice())
}
