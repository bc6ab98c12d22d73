//! The declaration of each operation, appended to the text without a tree.
ghost use Rattle.std.specs.Prelude.{◌≡◌, ◌≤◌, ◌<◌, ◌^◌, ◌∷◌, true, IfOk, codes, length, reverse};
ghost use Rattle.ln_csyn.specs.Spelling.{PutsTokens, cast_before, lexeme, spell, type_text};
ghost use Rattle.ln_csyn.specs.Tree.{Minus, Number, Two};
ghost use Rattle.ln_cemit.specs.Emit.{cut_expr, operand, pushing, type_of, put_cut, put_get, put_neg, put_op, put_set, put_two};
ghost use Rattle.ln_cemit.specs.Names.{decl_name};
ghost use Rattle.ln_cemit.specs.Puts.{decl_before, locals_of, side_expr, Does, MayMove, Moves, Stores};
ghost use Rattle.ln_bound.specs.declared.fitted.Width.TheVariants.{W64};
ghost use Rattle.ln_csyn.specs.declared.tree.CType.TheVariants.{Int64};
ghost use Rattle.ln_csyn.specs.declared.tree.COp.TheVariants.{Div};

use crate::constant::put_inner;
use crate::slot::{Side, Slot, Way};
use itoa::Buffer;
use ln_base::NoMemory;
use ln_bound::Width;
use ln_code::{Op, cut};
use ln_csyn::spell::{put, put_op, put_tokens, put_type};
use ln_csyn::write::{put_cast, put_constant, put_value};
use ln_csyn::{COp, CType};

pub(crate) fn type_of(width: Width) -> CType
    ensures { result ≡ type_of width }
{
    match width {
        Width::W64 => CType::Int64,
        Width::W128 => CType::Int128,
    }
}

fn put_width(out: &mut Vec<u8>, width: Width) -> Result<(), NoMemory>
    ensures { IfOk result (λ x. PutsTokens out.old.items out.new.items (λ r. lexeme (type_text (type_of width)) ∷ r)) }
{
    put_type(out, type_of(width))
}

/// Appends the name of a declaration.
pub(crate) fn put_decl_name(out: &mut Vec<u8>, n: usize) -> Result<(), NoMemory>
    ensures { IfOk result (λ x. PutsTokens out.old.items out.new.items (λ r. lexeme (decl_name n) ∷ r)) }
{
    let mut buffer = Buffer::new();
    out.push(b'n')?;
    out.extend_from_slice(buffer.format(n as u64).as_bytes())?;
    out.push(b' ')?;
    Ok(())
}

// Appends the head of a declaration, up to the `=`.
fn put_decl_head(out: &mut Vec<u8>, n: usize, width: Width) -> Result<(), NoMemory>
    ensures { IfOk result (λ x. PutsTokens out.old.items out.new.items
        (λ r. lexeme (type_text (type_of width)) ∷ lexeme (decl_name n) ∷ lexeme (codes "=") ∷ r)) }
{
    put_width(out, width)?;
    put_decl_name(out, n)?;
    put(out, b"=")
}

/// Appends a constant of this width.
pub(crate) fn put_number_of(out: &mut Vec<u8>, width: Width, n: u64) -> Result<(), NoMemory>
    ensures { IfOk result (λ x. PutsTokens out.old.items out.new.items (spell (Number (type_of width) n))) }
{
    put_constant(out, type_of(width), n)
}

fn put_cast_of(out: &mut Vec<u8>, width: Width) -> Result<(), NoMemory>
    ensures { IfOk result (λ x. PutsTokens out.old.items out.new.items (cast_before (type_of width))) }
{
    put_cast(out, type_of(width))
}

pub(crate) fn put_operand(out: &mut Vec<u8>, width: Width, slot: Slot) -> Result<(), NoMemory>
    ensures { IfOk result (λ x. PutsTokens out.old.items out.new.items (spell (operand decl_name width slot))) }
{
    put_cast_of(out, width)?;
    put_decl_name(out, slot.at)?;
    put(out, b")")
}

fn put_opposite(out: &mut Vec<u8>, width: Width, slot: Slot) -> Result<(), NoMemory>
    ensures { IfOk result (λ x. PutsTokens out.old.items out.new.items (spell (Minus (operand decl_name width slot)))) }
{
    put_tokens(out, b"( -")?;
    put_operand(out, width, slot)?;
    put(out, b")")
}

fn put_both(out: &mut Vec<u8>, op: COp, width: Width, x: Slot, y: Slot) -> Result<(), NoMemory>
    ensures { IfOk result (λ z. PutsTokens out.old.items out.new.items (spell (Two op (operand decl_name width x) (operand decl_name width y)))) }
{
    put(out, b"(")?;
    put_operand(out, width, x)?;
    put_op(out, op)?;
    put_operand(out, width, y)?;
    put(out, b")")
}

fn put_division(out: &mut Vec<u8>, slot: Slot, n: u64) -> Result<(), NoMemory>
    ensures { IfOk result (λ x. PutsTokens out.old.items out.new.items (spell (Two Div (operand decl_name W64 slot) (Number Int64 n)))) }
{
    put(out, b"(")?;
    put_operand(out, Width::W64, slot)?;
    put_op(out, COp::Div)?;
    put_constant(out, CType::Int64, n)?;
    put(out, b")")
}

fn power(m: u8) -> u64
    requires { m < 63 }
    ensures { result ≡ 2 ^ m }
{
    1u64 << m
}

// A quotient of a declaration by 2^m, which is 0 from 63 on.
fn put_quotient(out: &mut Vec<u8>, m: u8, slot: Slot) -> Result<(), NoMemory>
    ensures { IfOk result (λ x. PutsTokens out.old.items out.new.items (spell (cut_expr m (operand decl_name W64 slot)))) }
{
    if m < 63 {
        put_division(out, slot, power(m))
    } else {
        put_constant(out, CType::Int64, 0)
    }
}

fn put_side(out: &mut Vec<u8>, width: Width, side: Side) -> Result<(), NoMemory>
    ensures { IfOk result (λ z. PutsTokens out.old.items out.new.items (spell (side_expr width side))) }
{
    match side {
        Side::Number(z) => put_inner(out, type_of(width), z),
        Side::Value(v) => put_value(out, type_of(width), v),
        Side::Same(slot) => put_operand(out, width, slot),
        Side::Opposite(slot) => put_opposite(out, width, slot),
        Side::Both(op, x, y) => put_both(out, op, width, x, y),
        Side::Quotient(m, slot) => put_quotient(out, m, slot),
    }
}

// Appends a declaration.
fn put_decl(out: &mut Vec<u8>, n: usize, width: Width, side: Side) -> Result<(), NoMemory>
    ensures { IfOk result (λ z. PutsTokens out.old.items out.new.items (decl_before n width (side_expr width side))) }
{
    put_decl_head(out, n, width)?;
    put_side(out, width, side)?;
    put(out, b";")
}

// Appends a declaration, and pushes its value.
fn declare(
    out: &mut Vec<u8>,
    n: usize,
    width: Width,
    side: Side,
    stack: &mut Vec<Slot>,
) -> Result<(), NoMemory>
    ensures { IfOk result (λ x. Moves out.old.items out.new.items stack.new.items
        (λ ls go. pushing decl_name n width (side_expr width side) (reverse stack.old.items) ls go)) }
{
    put_decl(out, n, width, side)?;
    stack.push(Slot { at: n, width })?;
    Ok(())
}

// Appends the declaration of the last value, which is taken off the stack into a local.
fn store(
    out: &mut Vec<u8>,
    n: usize,
    j: u8,
    stack: &mut Vec<Slot>,
    locals: &mut [Option<Slot>],
) -> Result<(), NoMemory>
    requires { (1 ≤ length stack.now.items) × (j < length locals.now) }
    ensures { IfOk result (λ x. Stores out.old.items out.new.items stack.new.items locals.new
        (λ go. put_set decl_name j n (reverse stack.old.items) (locals_of locals.old) go)) }
{
    let slot = stack.pop().unwrap();
    put_decl(out, n, slot.width, Side::Same(slot))?;
    locals[j as usize] = Some(Slot {
        at: n,
        width: slot.width,
    });
    Ok(())
}

// Appends the declaration of the last value's opposite, which takes its place on the stack; false where there is none, and nothing was
// appended.
fn may_negate(
    out: &mut Vec<u8>,
    n: usize,
    width: Width,
    stack: &mut Vec<Slot>,
) -> Result<bool, NoMemory>
    ensures { IfOk result (λ more. MayMove more out.old.items out.new.items stack.new.items
        (λ ls go. put_neg decl_name width n (reverse stack.old.items) ls go)) }
{
    if stack.len() < 1 {
        return Ok(false);
    }
    let slot = stack.pop().unwrap();
    declare(out, n, width, Side::Opposite(slot), stack)?;
    Ok(true)
}

// The same for its quotient by 2^m.
fn may_divide(out: &mut Vec<u8>, n: usize, m: u8, stack: &mut Vec<Slot>) -> Result<bool, NoMemory>
    ensures { IfOk result (λ more. MayMove more out.old.items out.new.items stack.new.items
        (λ ls go. put_cut decl_name m n (reverse stack.old.items) ls go)) }
{
    if stack.len() < 1 {
        return Ok(false);
    }
    let slot = stack.pop().unwrap();
    declare(out, n, Width::W64, Side::Quotient(m, slot), stack)?;
    Ok(true)
}

// The same for an operation on the last two values.
fn may_combine(
    out: &mut Vec<u8>,
    n: usize,
    op: COp,
    width: Width,
    stack: &mut Vec<Slot>,
) -> Result<bool, NoMemory>
    ensures { IfOk result (λ more. MayMove more out.old.items out.new.items stack.new.items
        (λ ls go. put_two decl_name op width n (reverse stack.old.items) ls go)) }
{
    if stack.len() < 2 {
        return Ok(false);
    }
    let y = stack.pop().unwrap();
    let x = stack.pop().unwrap();
    declare(out, n, width, Side::Both(op, x, y), stack)?;
    Ok(true)
}

fn may_store(
    out: &mut Vec<u8>,
    n: usize,
    j: u8,
    stack: &mut Vec<Slot>,
    locals: &mut [Option<Slot>],
) -> Result<bool, NoMemory>
    requires { length locals.old ≡ 256 }
    ensures size { length locals.new ≡ 256 }
    ensures put { IfOk result (λ more. Does more out.old.items out.new.items stack.new.items locals.new
        (λ go. put_set decl_name j n (reverse stack.old.items) (locals_of locals.old) go)) }
{
    if stack.len() < 1 {
        return Ok(false);
    }
    store(out, n, j, stack, locals)?;
    Ok(true)
}

// Returns where the value of a local is, if it is set.
fn slot_at(locals: &[Option<Slot>], j: u8) -> Option<Slot>
    requires { length locals.now ≡ 256 }
    ensures { result ≡ locals_of locals.now j }
{
    locals[usize::from(j)]
}

// Appends the declaration of a local, if it is set, and pushes it.
fn may_load(
    out: &mut Vec<u8>,
    n: usize,
    way: Way,
    slot: Option<Slot>,
    stack: &mut Vec<Slot>,
) -> Result<bool, NoMemory>
    ensures { IfOk result (λ more. MayMove more out.old.items out.new.items stack.new.items
        (λ ls go. put_get decl_name way n slot (reverse stack.old.items) ls go)) }
{
    match slot {
        Some(slot) => {
            let width = slot.width.wider(way.width);
            declare(out, n, width, Side::Same(slot), stack)?;
            Ok(true)
        }
        None => Ok(false),
    }
}

/// Appends the declaration of an operation, and keeps where the values of stack and locals are. False where the stack or the local
/// hasn't what it takes, which is so of no operation of a block or filter: then nothing was appended, and nothing may follow.
pub(crate) fn put_operation(
    out: &mut Vec<u8>,
    n: usize,
    op: Op,
    way: Way,
    stack: &mut Vec<Slot>,
    locals: &mut [Option<Slot>],
) -> Result<bool, NoMemory>
    requires { length locals.old ≡ 256 }
    ensures size { length locals.new ≡ 256 }
    ensures put { IfOk result (λ more. Does more out.old.items out.new.items stack.new.items locals.new
        (λ go. put_op decl_name op way n (reverse stack.old.items) (locals_of locals.old) go)) }
{
    match op {
        Op::Push(z) => {
            declare(out, n, way.width, Side::Number(cut(z, way.shift)), stack)?;
            Ok(true)
        }
        Op::Input(v) => {
            declare(out, n, way.width, Side::Value(u64::from(v)), stack)?;
            Ok(true)
        }
        Op::Get(j) => {
            let slot = slot_at(locals, j);
            may_load(out, n, way, slot, stack)
        }
        Op::Set(j) => may_store(out, n, j, stack, locals),
        Op::Add(width) => may_combine(out, n, COp::Add, width, stack),
        Op::Sub(width) => may_combine(out, n, COp::Sub, width, stack),
        Op::Mul(width) => may_combine(out, n, COp::Mul, width, stack),
        Op::Neg(width) => may_negate(out, n, width, stack),
        Op::Cut(m) => may_divide(out, n, m, stack),
    }
}
