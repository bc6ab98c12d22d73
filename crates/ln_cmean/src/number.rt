//! Numbers with their types, and the counts.
ghost use Rattle.std.specs.Prelude.{◌≡◌, ◌+ℤ◌, ◌-ℤ◌, ◌*ℤ◌, neg_ℤ, int_div, int_lt, if◌then◌else◌, None};
ghost use Rattle.ln_csyn.specs.Meaning.{has, is_same, given, operated, counted, entered, negated};
ghost use Rattle.ln_csyn.specs.Meaning.{is_zero, Gives, Fails, number_of_bool, same_number};
ghost use Rattle.ln_csyn.specs.Meaning as m;
ghost use Rattle.ln_cmean.specs.Answered.{answered, tally};

use ln_csyn::{COp, CType};

/// How many operations were done in `__int128`, and how many functions were called. Both stay at the largest number once there.
#[derive(Clone, Copy)]
pub struct Counts {
    pub wide: u32,
    pub calls: u32,
}

/// A number and its type.
#[derive(Clone, Copy)]
pub struct Number {
    pub kind: CType,
    pub number: i128,
}

/// No meaning: in the statement that is looked at, or at a line of a called function.
#[derive(Clone, Copy)]
pub enum Fault {
    Here,
    At(u32),
}

/// Whether two types are one.
pub fn same_kind(a: CType, b: CType) -> bool
    ensures { result ≡ is_same a b }
{
    a == b
}

fn fits(kind: CType, number: i128) -> bool
    ensures { result ≡ has kind number }
{
    match kind {
        CType::Int => number >= -32767 && number <= 32767,
        CType::Int64 => number >= -9223372036854775808 && number <= 9223372036854775807,
        CType::Int128 => true,
    }
}

/// The number in a type, which has to hold it.
pub fn in_type(kind: CType, number: i128) -> Result<Number, Fault>
    ensures { (k : m.Counts) → answered result k ≡ given kind number k }
{
    if fits(kind, number) {
        Ok(Number { kind, number })
    } else {
        Err(Fault::Here)
    }
}

/// A further call.
pub fn enter(counts: &mut Counts)
    ensures { tally counts.new ≡ entered (tally counts.old) }
{
    counts.calls = counts.calls.saturating_add(1);
}

// A further operation in this type.
fn count(kind: CType, counts: &mut Counts)
    ensures { tally counts.new ≡ counted kind (tally counts.old) }
{
    match kind {
        CType::Int | CType::Int64 => {}
        CType::Int128 => counts.wide = counts.wide.saturating_add(1),
    }
}

fn sum(kind: CType, x: i128, y: i128) -> Result<Number, Fault>
    ensures { (k : m.Counts) → answered result k ≡ given kind (x +ℤ y) k }
{
    match x.checked_add(y) {
        Some(z) => in_type(kind, z),
        None => Err(Fault::Here),
    }
}

fn difference(kind: CType, x: i128, y: i128) -> Result<Number, Fault>
    ensures { (k : m.Counts) → answered result k ≡ given kind (x -ℤ y) k }
{
    match x.checked_sub(y) {
        Some(z) => in_type(kind, z),
        None => Err(Fault::Here),
    }
}

fn product(kind: CType, x: i128, y: i128) -> Result<Number, Fault>
    ensures { (k : m.Counts) → answered result k ≡ given kind (x *ℤ y) k }
{
    match x.checked_mul(y) {
        Some(z) => in_type(kind, z),
        None => Err(Fault::Here),
    }
}

fn quotient(kind: CType, x: i128, y: i128) -> Result<Number, Fault>
    ensures { (k : m.Counts) → answered result k ≡ (if is_zero y then Fails None else given kind (int_div x y) k) }
{
    if y == 0 {
        return Err(Fault::Here);
    }
    match x.checked_div(y) {
        Some(z) => in_type(kind, z),
        None => Err(Fault::Here),
    }
}

fn opposite(kind: CType, x: i128) -> Result<Number, Fault>
    ensures { (k : m.Counts) → answered result k ≡ given kind (neg_ℤ x) k }
{
    match x.checked_neg() {
        Some(z) => in_type(kind, z),
        None => Err(Fault::Here),
    }
}

// Returns the `int` of a comparison.
fn flag(is: bool) -> Result<Number, Fault>
    ensures { (k : m.Counts) → answered result k ≡ Gives CType.Int (number_of_bool is) k }
{
    let number = if is { 1 } else { 0 };
    Ok(Number {
        kind: CType::Int,
        number,
    })
}

fn less(x: i128, y: i128) -> bool
    ensures { result ≡ int_lt x y }
{
    x < y
}

fn same(x: i128, y: i128) -> bool
    ensures { result ≡ same_number x y }
{
    x == y
}

/// An operation on two numbers of one type, which is counted unless it is a comparison.
pub fn operate(op: COp, kind: CType, x: i128, y: i128, counts: &mut Counts) -> Result<Number, Fault>
    ensures { answered result (tally counts.new) ≡ operated op kind x y (tally counts.old) }
{
    match op {
        COp::Add => {
            count(kind, counts);
            sum(kind, x, y)
        }
        COp::Sub => {
            count(kind, counts);
            difference(kind, x, y)
        }
        COp::Mul => {
            count(kind, counts);
            product(kind, x, y)
        }
        COp::Div => {
            count(kind, counts);
            quotient(kind, x, y)
        }
        COp::Less => flag(less(x, y)),
        COp::More => flag(less(y, x)),
        COp::Same => flag(same(x, y)),
        COp::Differ => flag(!same(x, y)),
    }
}

/// The number with the other sign, which is counted.
pub fn negate(kind: CType, x: i128, counts: &mut Counts) -> Result<Number, Fault>
    ensures { answered result (tally counts.new) ≡ negated kind x (tally counts.old) }
{
    count(kind, counts);
    opposite(kind, x)
}
