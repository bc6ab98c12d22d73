//! The line of a record, of one predicate or of a product. The product isn't formed.
ghost use Rattle.std.specs.Prelude.{◌≡◌, ◌≤◌, ◌+◌, ◌++◌, ◌∷◌, [], length, slice_index_or, vec_len, vec_capacity, IsOk, OnOk, OnErr, true};
ghost use Rattle.ln_rows.specs.Header.{names_of};
ghost use Rattle.ln_top.specs.Target.Line.{line_room, sign_text, decider_text, said_text, stop_text, is_bare, is_bare_stop};
ghost use Rattle.ln_top.specs.Target.Line.{deciders_after, deciders_room, product_text, row_room, with_verdicts};

use crate::target::Target;
use crate::target::factors::Factors;
use itoa::Buffer;
use ln_base::{NoMemory, Sign};
use ln_code::{By, Verdict};
use ln_rows::RowStop;
use ln_tree::{Pred, Table};
use std::alloc::Global;

// Adds bytes that there is room for.
fn add_within(text: &mut Vec<u8>, bytes: &[u8])
    requires { vec_len text.old + length bytes.now ≤ vec_capacity text.old }
    ensures items { text.new.items ≡ text.old.items ++ bytes.now }
    ensures len { vec_len text.new ≡ vec_len text.old + length bytes.now }
    ensures room { vec_capacity text.old ≤ vec_capacity text.new }
{
    text.extend_from_slice(bytes).unwrap();
}

fn sign_text(sign: Sign) -> &'static [u8]
    ensures text { result.now ≡ sign_text sign }
    ensures len { length result.now ≡ 1 }
{
    match sign {
        Sign::Minus => b"-",
        Sign::Zero => b"0",
        Sign::Plus => b"+",
    }
}

// Adds the decider of a verdict.
fn add_decider(text: &mut Vec<u8>, by: By)
    requires { vec_len text.old + 40 ≤ vec_capacity text.old }
    ensures items { text.new.items ≡ text.old.items ++ decider_text by }
    ensures len { vec_len text.new ≤ vec_len text.old + 40 }
    ensures room { vec_capacity text.old ≤ vec_capacity text.new }
{
    match by {
        By::Filter => add_within(text, b"F"),
        By::Stage(place) => {
            let mut buffer = Buffer::new();
            add_within(text, buffer.format(place).as_bytes());
        }
        By::Nothing => add_within(text, b"-"),
    }
}

// Adds one byte.
fn add_byte(text: &mut Vec<u8>, byte: u8)
    requires { vec_len text.old + 1 ≤ vec_capacity text.old }
    ensures items { text.new.items ≡ text.old.items ++ byte ∷ [] }
    ensures len { vec_len text.new ≡ vec_len text.old + 1 }
    ensures room { vec_capacity text.old ≤ vec_capacity text.new }
{
    text.push(byte).unwrap();
}

// Adds a sign.
fn add_sign(text: &mut Vec<u8>, sign: Sign)
    requires { vec_len text.old + 1 ≤ vec_capacity text.old }
    ensures items { text.new.items ≡ text.old.items ++ sign_text sign }
    ensures len { vec_len text.new ≡ vec_len text.old + 1 }
    ensures room { vec_capacity text.old ≤ vec_capacity text.new }
{
    add_within(text, sign_text(sign));
}

// Adds the line of a verdict: its sign, a space and its decider. There is room for it.
fn add_verdict(text: &mut Vec<u8>, v: Verdict)
    requires { vec_len text.old + line_room ≤ vec_capacity text.old }
    ensures line { text.new.items ≡ text.old.items ++ ((sign_text v.sign ++ 32 ∷ decider_text v.by) ++ 10 ∷ []) }
    ensures room { vec_capacity text.old ≤ vec_capacity text.new }
{
    add_within(text, sign_text(v.sign));
    add_within(text, b" ");
    add_decider(text, v.by);
    add_within(text, b"\n");
}

// Adds the line of these bytes and a name.
fn add_named(text: &mut Vec<u8>, front: &[u8], name: &[u8]) -> Result<(), NoMemory>
    requires { length front.now ≤ 16 }
    ensures ok { OnOk result (text.new.items ≡ text.old.items ++ ((front.now ++ name.now) ++ 10 ∷ [])) }
    ensures err { OnErr result (text.new.items ≡ text.old.items) }
    ensures room { vec_capacity text.old ≤ vec_capacity text.new }
{
    text.reserve(front.len() + name.len() + 1)?;
    add_within(text, front);
    add_within(text, name);
    add_within(text, b"\n");
    Ok(())
}

// Adds the line of what is wrong with a column of a predicate, by the column's name.
fn add_column(
    alloc: Global,
    text: &mut Vec<u8>,
    front: &[u8],
    table: &Table,
    pred: &Pred,
    k: u8,
) -> Result<(), NoMemory>
    requires { length front.now ≤ 16 }
    ensures ok { OnOk result (text.new.items
        ≡ text.old.items ++ ((front.now ++ slice_index_or (names_of table.now pred.now) k []) ++ 10 ∷ [])) }
    ensures err { OnErr result (text.new.items ≡ text.old.items) }
    ensures room { vec_capacity text.old ≤ vec_capacity text.new }
{
    let name = pred.column(alloc, table, usize::from(k))?;
    add_named(text, front, &name)
}

/// Adds the line of why a record is invalid for a predicate of a table. Only one that names a column allocates.
pub fn add_stop(
    alloc: Global,
    text: &mut Vec<u8>,
    table: &Table,
    pred: &Pred,
    stop: RowStop,
) -> Result<(), NoMemory>
    requires { vec_len text.old + line_room ≤ vec_capacity text.old }
    ensures ok { OnOk result (text.new.items ≡ text.old.items ++ (stop_text (names_of table.now pred.now) stop ++ 10 ∷ [])) }
    ensures err { OnErr result (text.new.items ≡ text.old.items) }
    ensures room { vec_capacity text.old ≤ vec_capacity text.new }
    ensures steady { is_bare_stop stop ≡ true → IsOk result }
{
    match stop {
        RowStop::Fields => {
            add_within(text, b"! fields\n");
            Ok(())
        }
        RowStop::Number(k) => add_column(alloc, text, b"! number ", table, pred, k),
        RowStop::Range(k) => add_column(alloc, text, b"! range ", table, pred, k),
        RowStop::Index(k) => add_column(alloc, text, b"! index ", table, pred, k),
    }
}

/// Adds the line of what is said of a record. Only one that names a column allocates.
pub fn add_line(
    alloc: Global,
    text: &mut Vec<u8>,
    target: &Target<'_>,
    said: Result<Verdict, RowStop>,
) -> Result<(), NoMemory>
    requires { vec_len text.old + line_room ≤ vec_capacity text.old }
    ensures ok { OnOk result (text.new.items ≡ text.old.items ++ (said_text target.now.names said ++ 10 ∷ [])) }
    ensures err { OnErr result (text.new.items ≡ text.old.items) }
    ensures room { vec_capacity text.old ≤ vec_capacity text.new }
    ensures steady { is_bare said ≡ true → IsOk result }
{
    match said {
        Ok(v) => {
            add_verdict(text, v);
            Ok(())
        }
        Err(stop) => add_stop(alloc, text, target.table(), target.pred(), stop),
    }
}

// Adds the deciders of verdicts: a space before the first, a comma before each further one.
fn add_deciders(text: &mut Vec<u8>, verdicts: &[Verdict])
    requires few { length verdicts.now ≤ 8 }
    requires room { vec_len text.old + deciders_room ≤ vec_capacity text.old }
    ensures items { text.new.items ≡ text.old.items ++ deciders_after 32 verdicts.now }
    ensures len { vec_len text.new ≤ vec_len text.old + deciders_room }
    ensures room { vec_capacity text.old ≤ vec_capacity text.new }
{
    let mut before = b' ';
    'each: for v in verdicts {
        add_byte(text, before);
        add_decider(text, v.by);
        before = b',';
    }
}

// Adds the line of a product: its sign, and the deciders of its factors.
fn add_product(text: &mut Vec<u8>, sign: Sign, verdicts: &[Verdict])
    requires few { length verdicts.now ≤ 8 }
    requires room { vec_len text.old + row_room ≤ vec_capacity text.old }
    ensures line { text.new.items ≡ text.old.items ++ ((sign_text sign ++ deciders_after 32 verdicts.now) ++ 10 ∷ []) }
    ensures room { vec_capacity text.old ≤ vec_capacity text.new }
{
    add_sign(text, sign);
    add_deciders(text, verdicts);
    add_byte(text, b'\n');
}

/// Adds the line of what is said of a record of a product, by the verdicts of its factors. Only a line that names a column allocates.
pub fn add_product_line(
    alloc: Global,
    factors: &Factors<'_>,
    said: Result<Sign, RowStop>,
    verdicts: &[Verdict],
    text: &mut Vec<u8>,
) -> Result<(), NoMemory>
    requires few { length verdicts.now ≤ 8 }
    requires room { vec_len text.old + row_room ≤ vec_capacity text.old }
    ensures line { OnOk result (text.new.items
        ≡ text.old.items ++ (product_text factors.now.names (with_verdicts verdicts.now said) ++ 10 ∷ [])) }
    ensures err { OnErr result (text.new.items ≡ text.old.items) }
    ensures room { vec_capacity text.old ≤ vec_capacity text.new }
{
    match said {
        Ok(sign) => add_product(text, sign, verdicts),
        Err(stop) => return add_stop(alloc, text, factors.table(), factors.pred(), stop),
    }
    Ok(())
}
