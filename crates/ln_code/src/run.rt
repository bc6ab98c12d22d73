//! Runs a program on a row: the filter first, then the blocks of the row's order until one isn't 0.
ghost use Rattle.std.specs.Prelude.{◌≡◌, ◌≢◌, ◌<◌, ◌+◌, ◌++◌, ◌^◌, ℕ, List, Option, pos, MatchOption};
ghost use Rattle.std.specs.Prelude.{IfOk, IfErr, All, AllPairs, Contains, Some, length, slice_get, take};
ghost use Rattle.ln_tree.specs.Row.{InRange, AreWithin};
ghost use Rattle.ln_code.specs.Part.{Code, block_value, filter_value, ops_in_blocks};
ghost use Rattle.ln_code.specs.Errors.{left_error};
ghost use Rattle.ln_order.specs.Order.{IsOrder};
ghost use Rattle.ln_order.specs.Places.{order_places};
ghost use Rattle.ln_code.specs.Kept.{IsProgram};
ghost use Rattle.ln_code.specs.Lists.{list_of};
ghost use Rattle.ln_code.specs.Verdict.{sign_of, along, through, IsVerdict};
ghost use Rattle.ln_code.specs.Met.{HasMet, IsMet};
ghost use Rattle.ln_code.specs.Memory.{MadeFor};
ghost use Rattle.ln_code.specs.RowOf.{row_of};
ghost use Rattle.ln_code.specs.declared.verdict.By.TheVariants.{Filter};

use crate::block::Block;
use crate::filter_block::FilterBlock;
use crate::processor::{run_block, run_filter};
use crate::program::Program;
use crate::row::Row;
use crate::scratch::Scratch;
use crate::verdict::{By, Verdict};
use ln_base::Sign;
use ln_order::Order;

// What was met on a row so far: how many blocks were passed, how many of their operations were wide, and how many calls there were.
#[derive(Clone, Copy)]
pub(crate) struct Met {
    pub(crate) place: u32,
    pub(crate) wide: u32,
    pub(crate) calls: u32,
}

/// The sign of a value.
pub fn sign_of(z: i128) -> Sign
    ensures { result ≡ sign_of z }
{
    if z > 0 {
        Sign::Plus
    } else if z < 0 {
        Sign::Minus
    } else {
        Sign::Zero
    }
}

/// The sign of what isn't 0.
pub fn decided(z: i128) -> Option<Sign>
    ensures { MatchOption result (z ≡ pos 0) (λ s. (z ≢ pos 0) × (s ≡ sign_of z)) }
{
    if z > 0 {
        Some(Sign::Plus)
    } else if z < 0 {
        Some(Sign::Minus)
    } else {
        None
    }
}

// The value of a block of the program on a row with these values.
fn value_of(p: &Program, block: &Block, values: &[i64], s: &mut Scratch) -> i128
    requires program { IsProgram p.now }
    requires block { Contains p.now.blocks block.now }
    requires row { AreWithin p.now.shape.vars values.now }
    requires made { MadeFor p.now s.old }
    ensures value { block_value values.now block.now ≡ Some result }
    ensures made { MadeFor p.now s.new }
{
    run_block(
        block.ops(),
        values,
        s.stack.as_mut_slice(),
        s.locals.as_mut_slice(),
    )
}

// The value of the block with this number on a row with these values.
fn numbered_value(p: &Program, number: usize, values: &[i64], s: &mut Scratch) -> i128
    requires number { number < length p.now.blocks }
    requires row { AreWithin p.now.shape.vars values.now }
    requires made { MadeFor p.now s.old }
    ensures value { (c : Code) → slice_get p.now.blocks number ≡ Some c → block_value values.now c ≡ Some result }
    ensures made { MadeFor p.now s.new }
{
    value_of(p, &p.blocks()[number], values, s)
}

// The number that the filter of the program leaves on a row with these values.
fn filter_number(p: &Program, f: &FilterBlock, values: &[i64], s: &mut Scratch) -> i128
    requires program { IsProgram p.now }
    requires filter { p.now.filter ≡ Some f.now }
    requires row { AreWithin p.now.shape.vars values.now }
    requires made { MadeFor p.now s.old }
    ensures value { filter_value values.now f.now ≡ Some (record { number = result; error = left_error f.now.ops f.now.triples 0 0 }) }
    ensures made { MadeFor p.now s.new }
{
    run_filter(
        f.ops(),
        f.triples(),
        values,
        s.stack.as_mut_slice(),
        s.locals.as_mut_slice(),
    )
}

// Runs the blocks of a segment, the next part of the row's list, until one isn't 0: the verdict is then returned in the place of an error.
fn run_segment(
    p: &Program,
    segment: &[u32],
    met: Met,
    values: &[i64],
    s: &mut Scratch,
) -> Result<Met, Verdict>
    requires named { All (λ n. n < length p.now.blocks) segment.now }
    requires met { HasMet values.now p.now.blocks segment.now met }
    requires row { AreWithin p.now.shape.vars values.now }
    requires made { MadeFor p.now s.old }
    ensures ok { IfOk result (λ m. (answer : Option Verdict) (rest : List ℕ) →
        IsMet values.now p.now.blocks answer (segment.now ++ rest) met → IsMet values.now p.now.blocks answer rest m) }
    ensures err { IfErr result (λ v. (answer : Option Verdict) (rest : List ℕ) →
        IsMet values.now p.now.blocks answer (segment.now ++ rest) met → answer ≡ Some v) }
    ensures stages { IfErr result (λ v. v.by ≢ Filter) }
    ensures made { MadeFor p.now s.new }
{
    let mut place = met.place;
    let mut wide = met.wide;
    let mut calls = met.calls;
    'stages: for number in segment {
        let number = *number as usize;
        let z = numbered_value(p, number, values, s);
        wide += p.blocks()[number].wide() as u32;
        calls += 1;
        if let Some(sign) = decided(z) {
            return Err(Verdict {
                sign,
                by: By::Stage(place),
                wide,
                calls,
            });
        }
        place += 1;
    }
    Ok(Met { place, wide, calls })
}

// The order with one more site of the row's order in its place, if one remains.
fn next_site(o: &Order, j: u8, indices: &[i64]) -> Order
    requires { length (order_places o.now) ≡ length indices.now }
    ensures size { length (order_places result) ≡ length (order_places o.now) }
    ensures next { (u : List ℕ) → j < length (order_places o.now) → IsOrder indices.now u →
        take j (order_places o.now) ≡ take j u → take (j + 1) (order_places result) ≡ take (j + 1) u }
{
    if usize::from(j) < o.places().len() {
        o.found(j, indices)
    } else {
        *o
    }
}

// Runs the segments of the row's order until a block isn't 0, after `entered` calls. A site is found only where all blocks of the
// segment before it are 0.
#[tactic(auto, using(ln_tree::proofs::KeptLemmas::laid_out))]
fn run_segments(
    p: &Program,
    indices: &[i64],
    entered: u32,
    values: &[i64],
    s: &mut Scratch,
) -> Verdict
    requires program { IsProgram p.now }
    requires size { length indices.now ≡ p.now.shape.sites }
    requires differ { AllPairs (λ y z. y ≢ z) indices.now }
    requires room { entered + ops_in_blocks p.now.blocks < 2 ^ 32 }
    requires row { AreWithin p.now.shape.vars values.now }
    requires made { MadeFor p.now s.old }
    ensures verdict { (o : List ℕ) → IsOrder indices.now o → along values.now p.now.blocks (list_of p.now o) 0 0 entered ≡ Some result }
    ensures stages { result.by ≢ Filter }
    ensures made { MadeFor p.now s.new }
{
    let sites = p.shape().sites;
    let mut order = Order::of_arguments(sites);
    let mut met = Met {
        place: 0,
        wide: 0,
        calls: entered,
    };
    'prefixes: for j in 0..sites + 1 {
        match run_segment(p, p.segment(&order, j), met, values, s) {
            Ok(m) => met = m,
            Err(verdict) => return verdict,
        }
        order = next_site(&order, j, indices);
    }
    Verdict {
        sign: Sign::Zero,
        by: By::Nothing,
        wide: met.wide,
        calls: met.calls,
    }
}

// Runs the filter, and where it doesn't decide, the segments of the row's order.
fn run_filtered(
    p: &Program,
    f: &FilterBlock,
    indices: &[i64],
    values: &[i64],
    s: &mut Scratch,
) -> Verdict
    requires program { IsProgram p.now }
    requires filter { p.now.filter ≡ Some f.now }
    requires size { length indices.now ≡ p.now.shape.sites }
    requires differ { AllPairs (λ y z. y ≢ z) indices.now }
    requires row { AreWithin p.now.shape.vars values.now }
    requires made { MadeFor p.now s.old }
    ensures verdict { (o : List ℕ) → IsOrder indices.now o → through (Some f.now) values.now p.now.blocks (list_of p.now o) ≡ Some result }
    ensures filter { result.by ≡ Filter → (result.calls ≡ 1) × (result.wide ≡ 0) }
    ensures made { MadeFor p.now s.new }
{
    let number = filter_number(p, f, values, s);
    if number.unsigned_abs() > u128::from(f.error()) {
        return Verdict {
            sign: sign_of(number),
            by: By::Filter,
            wide: 0,
            calls: 1,
        };
    }
    run_segments(p, indices, 1, values, s)
}

// Runs the filter, if there is one, and the segments of the row's order.
fn run_through(p: &Program, indices: &[i64], values: &[i64], s: &mut Scratch) -> Verdict
    requires size { length indices.now ≡ p.now.shape.sites }
    requires differ { AllPairs (λ y z. y ≢ z) indices.now }
    requires row { AreWithin p.now.shape.vars values.now }
    requires made { MadeFor p.now s.old }
    ensures verdict { (o : List ℕ) → IsOrder indices.now o → through p.now.filter values.now p.now.blocks (list_of p.now o) ≡ Some result }
    ensures filter { result.by ≡ Filter → (result.calls ≡ 1) × (result.wide ≡ 0) }
    ensures made { MadeFor p.now s.new }
{
    match p.filter() {
        Some(f) => run_filtered(p, f, indices, values, s),
        None => run_segments(p, indices, 0, values, s),
    }
}

/// Returns the verdict on a row in range, by a scratch made for the program: exactly that of the machine over integers. Where the filter
/// decides, that is one call and no operation in 128 bits. A site of the row's order is looked for only where all blocks before it are 0. It
/// allocates nothing and refuses nothing.
#[tactic(auto, using(ln_tree::proofs::KeptLemmas::few_vars))]
pub fn run_row(p: &Program, s: &mut Scratch, r: &Row) -> Verdict
    requires made { MadeFor p.now s.old }
    requires row { InRange p.now.shape.sites p.now.shape.vars (row_of p.now.shape.sites p.now.shape.vars r.now) }
    ensures verdict { IsVerdict p.now (row_of p.now.shape.sites p.now.shape.vars r.now) result }
    ensures filter { result.by ≡ Filter → (result.calls ≡ 1) × (result.wide ≡ 0) }
    ensures made { MadeFor p.now s.new }
{
    let shape = p.shape();
    let values = &r.values[..shape.vars.len()];
    run_through(p, &r.index[..usize::from(shape.sites)], values, s)
}

/// Returns the value of a block of the program on a row in range, by a scratch made for the program: exactly that of the machine over integers.
/// No filter is asked. It allocates nothing.
#[tactic(auto, using(ln_tree::proofs::KeptLemmas::few_vars))]
pub fn block_value(b: &Block, p: &Program, s: &mut Scratch, r: &Row) -> i128
    requires block { Contains p.now.blocks b.now }
    requires made { MadeFor p.now s.old }
    requires row { InRange p.now.shape.sites p.now.shape.vars (row_of p.now.shape.sites p.now.shape.vars r.now) }
    ensures value { block_value (row_of p.now.shape.sites p.now.shape.vars r.now).values b.now ≡ Some result }
    ensures made { MadeFor p.now s.new }
{
    let _kept = p.blocks();
    let shape = p.shape();
    let values = &r.values[..shape.vars.len()];
    value_of(p, b, values, s)
}
