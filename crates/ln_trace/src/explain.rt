//! The lines of a trace that the blocks of a program tell of a row.
ghost use Rattle.std.specs.Prelude.{◌≡◌, ◌<◌, ◌≤◌, ◌++◌, ◌∷◌, ◌^◌, [], ℕ, List, true, false, length, IfOk, OnOk, OnErr, All};
ghost use Rattle.ln_tree.specs.Row.{InRange};
ghost use Rattle.ln_order.specs.Places.{order_places};
ghost use Rattle.ln_code.specs.Lists.{list_of};
ghost use Rattle.ln_code.specs.Memory.{MadeFor};
ghost use Rattle.ln_code.specs.RowOf.{row_of};
ghost use Rattle.ln_trace.specs.Explain.{BlocksAreExplained, IsTold, IsToldBehind, TellOn};

use crate::put::{put_at, put_row, put_sign};
use crate::rules::order_at;
use ln_base::{NoMemory, Sign};
use ln_code::{Program, Row, Scratch, block_value, decided};
use ln_order::Order;
use std::alloc::Global;

// Room for the lines of a row that its first block decides, in bytes.
const ROW_ROOM: usize = 128;

// Appends what a block tells, and where its value isn't 0 the sign: then that is all.
fn tell_block(
    p: &Program,
    number: u32,
    s: &mut Scratch,
    r: &Row,
    out: &mut Vec<u8>,
) -> Result<bool, NoMemory>
    requires number { number < length p.now.blocks }
    requires made { MadeFor p.now s.old }
    requires row { InRange p.now.shape.sites p.now.shape.vars (row_of p.now.shape.sites p.now.shape.vars r.now) }
    ensures on { IfOk result (λ all. all ≡ false → (rest : List ℕ) →
        TellOn p.now (row_of p.now.shape.sites p.now.shape.vars r.now).values (number ∷ rest) rest out.old.items out.new.items) }
    ensures all { IfOk result (λ all. all ≡ true → (rest : List ℕ) →
        IsTold p.now (row_of p.now.shape.sites p.now.shape.vars r.now).values (number ∷ rest) out.old.items out.new.items) }
    ensures made { MadeFor p.now s.new }
{
    let block = &p.blocks()[number as usize];
    let z = block_value(block, p, s, r);
    put_at(out, block.exps().pairs(), z)?;
    match decided(z) {
        Some(sign) => {
            put_sign(out, sign)?;
            Ok(true)
        }
        None => Ok(false),
    }
}

// Appends what the blocks of a segment tell, up to the first whose value isn't 0.
fn tell_segment(
    p: &Program,
    segment: &[u32],
    s: &mut Scratch,
    r: &Row,
    out: &mut Vec<u8>,
) -> Result<bool, NoMemory>
    requires named { All (λ n. n < length p.now.blocks) segment.now }
    requires made { MadeFor p.now s.old }
    requires row { InRange p.now.shape.sites p.now.shape.vars (row_of p.now.shape.sites p.now.shape.vars r.now) }
    ensures on { IfOk result (λ all. all ≡ false → (rest : List ℕ) →
        TellOn p.now (row_of p.now.shape.sites p.now.shape.vars r.now).values (segment.now ++ rest) rest out.old.items out.new.items) }
    ensures all { IfOk result (λ all. all ≡ true → (rest : List ℕ) →
        IsTold p.now (row_of p.now.shape.sites p.now.shape.vars r.now).values (segment.now ++ rest) out.old.items out.new.items) }
    ensures made { MadeFor p.now s.new }
{
    'numbers: for number in segment {
        if tell_block(p, *number, s, r, out)? {
            return Ok(true);
        }
    }
    Ok(false)
}

// Appends what the blocks of an order's list tell, and the sign.
fn tell_list(
    p: &Program,
    order: &Order,
    s: &mut Scratch,
    r: &Row,
    out: &mut Vec<u8>,
) -> Result<(), NoMemory>
    requires order { length (order_places order.now) ≡ p.now.shape.sites }
    requires made { MadeFor p.now s.old }
    requires row { InRange p.now.shape.sites p.now.shape.vars (row_of p.now.shape.sites p.now.shape.vars r.now) }
    ensures told { IfOk result (λ x. IsTold p.now (row_of p.now.shape.sites p.now.shape.vars r.now).values
        (list_of p.now (order_places order.now)) out.old.items out.new.items) }
    ensures made { MadeFor p.now s.new }
{
    let sites = p.shape().sites;
    'prefixes: for j in 0..sites + 1 {
        if tell_segment(p, p.segment(order, j), s, r, out)? {
            return Ok(());
        }
    }
    put_sign(out, Sign::Zero)
}

// The lines of a row as a text.
fn row_text(
    alloc: Global,
    p: &Program,
    s: &mut Scratch,
    n: u64,
    r: &Row,
) -> Result<Vec<u8>, NoMemory>
    requires number { n < 2 ^ 32 }
    requires made { MadeFor p.now s.old }
    requires row { InRange p.now.shape.sites p.now.shape.vars (row_of p.now.shape.sites p.now.shape.vars r.now) }
    ensures told { IfOk result (λ t. IsToldBehind p.now (row_of p.now.shape.sites p.now.shape.vars r.now) n [] t.items) }
    ensures made { MadeFor p.now s.new }
{
    let order = order_at(p.shape(), r);
    let mut text = Vec::with_capacity(alloc, ROW_ROOM)?;
    put_row(&mut text, n as u32)?;
    tell_list(p, &order, s, r, &mut text)?;
    Ok(text)
}

/// Appends what the blocks of the program tell of a row in range, as lines of a trace: `row N`; for each block of the list of the row's
/// order, up to and with the first whose value isn't 0, its exponents and its value on the row; and the sign of the last of these
/// values. Of a program that carries a predicate these are the stages of the row, with the coefficients. The filter isn't asked. On
/// `NoMemory` nothing is appended.
pub fn explain_row(
    alloc: Global,
    p: &Program,
    s: &mut Scratch,
    n: u64,
    r: &Row,
    out: &mut Vec<u8>,
) -> Result<(), NoMemory>
    requires number { (1 ≤ n) × (n < 2 ^ 32) }
    requires made { MadeFor p.now s.old }
    requires row { InRange p.now.shape.sites p.now.shape.vars (row_of p.now.shape.sites p.now.shape.vars r.now) }
    ensures ok { OnOk result (IsToldBehind p.now (row_of p.now.shape.sites p.now.shape.vars r.now) n out.old.items out.new.items) }
    ensures err { OnErr result (out.new.items ≡ out.old.items) }
    ensures made { MadeFor p.now s.new }
{
    let text = row_text(alloc, p, s, n, r)?;
    out.extend_from_slice(text.as_slice())?;
    Ok(())
}

/// Of a program that carries an expression, what the blocks tell of a row is what is explained of it: the members of the row's stage
/// list up to and with the first whose coefficient isn't 0, all where there is none, with the coefficients, and the sign.
///
/// By it the judge, who asks no program, agrees to the lines that a program appends.
pub fn blocks_are_explained()
    ensures { BlocksAreExplained }
{}
