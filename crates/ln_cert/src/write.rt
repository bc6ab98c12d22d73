//! Writing the listing of programs.
ghost use Rattle.std.specs.Prelude.{◌≡◌, ◌<◌, ◌≤◌, ◌∷◌, ◌++◌, [], ℕ, List, Some, IfOk, IfSome, OnErr, decimal, length, map};
ghost use Rattle.ln_base.specs.Limits.{most_stages};
ghost use Rattle.ln_interval.specs.View.{range};
ghost use Rattle.ln_order.specs.Orders.{IsOrderOf, orders_of};
ghost use Rattle.ln_order.specs.Places.{order_places};
ghost use Rattle.ln_tree.specs.Exps.{IsRising};
ghost use Rattle.ln_tree.specs.Names.{name_bytes};
ghost use Rattle.ln_code.specs.Kept.{IsList, IsProgram};
ghost use Rattle.ln_code.specs.Lists.{list_from, list_of};
ghost use Rattle.ln_code.specs.Part.{Part as AnyProgram};
ghost use Rattle.ln_code.specs.Part.{lines_of};
ghost use Rattle.ln_cert.specs.declared.part.Part.{Part as AnyPart};
ghost use Rattle.ln_cert.specs.declared.part.Part.TheVariants as part;
ghost use Rattle.ln_cert.specs.Listing.{ListText};
ghost use Rattle.ln_cert.specs.Text.{Each};
ghost use Rattle.ln_cert.specs.Writing.{Puts};
ghost use Rattle.ln_cert.specs.Written.{ForBlock, ForFilter, InBlock, InFilter, WroteParts, block_lines, blocks_lines};
ghost use Rattle.ln_cert.specs.Written.{filter_line, filter_parts, listing_of, order_lines, range_line};
ghost use Rattle.ln_cert.specs.Written.{AreListableBlocks, IsListable, IsListableBlock};

use crate::put::{
    put_bare, put_block, put_filter_op, put_numbers, put_places, put_predicate, put_range_op,
};
use ln_base::NoMemory;
use ln_base::put::{put, put_word};
use ln_code::{Block, FilterBlock, Op, Program, Programs, Triple};
use ln_interval::Pair;
use ln_order::{Order, all_orders};
use ln_tree::{Exps, Name};
use std::alloc::Global;
use std::mem::replace;

fn put_filter_line(out: &mut Vec<u8>, op: Op, t: Triple) -> Result<(), NoMemory>
    requires { InFilter (record { op = op; bound = t }) }
    ensures { IfOk result (λ x. WroteParts out.old.items out.new.items (part.FilterOp op t ∷ [])) }
{
    put_filter_op(out, op, t)
}

fn put_range_line(out: &mut Vec<u8>, op: Op, p: Pair) -> Result<(), NoMemory>
    requires { InBlock (record { op = op; bound = range p }) }
    ensures { IfOk result (λ x. WroteParts out.old.items out.new.items (part.RangeOp op p.low p.high ∷ [])) }
{
    put_range_op(out, op, p.low, p.high)
}

fn put_filter_lines(out: &mut Vec<u8>, ops: &[Op], triples: &[Triple]) -> Result<(), NoMemory>
    requires same { length ops.now ≡ length triples.now }
    requires rules { Each InFilter (lines_of ops.now triples.now) }
    ensures { IfOk result (λ x. WroteParts out.old.items out.new.items (map filter_line (lines_of ops.now triples.now))) }
{
    'ops: for (i, op) in ops.iter().enumerate() {
        put_filter_line(out, *op, triples[i])?;
    }
    Ok(())
}

fn put_range_lines(out: &mut Vec<u8>, ops: &[Op], pairs: &[Pair]) -> Result<(), NoMemory>
    requires same { length ops.now ≡ length pairs.now }
    requires rules { Each InBlock (lines_of ops.now (map range pairs.now)) }
    ensures { IfOk result (λ x. WroteParts out.old.items out.new.items (map range_line (lines_of ops.now (map range pairs.now)))) }
{
    'ops: for (i, op) in ops.iter().enumerate() {
        put_range_line(out, *op, pairs[i])?;
    }
    Ok(())
}

fn put_name(out: &mut Vec<u8>, name: &Name) -> Result<(), NoMemory>
    ensures { IfOk result (λ x. WroteParts out.old.items out.new.items (part.Predicate (name_bytes name.now) ∷ [])) }
{
    put_predicate(out, name.bytes())
}

fn put_no_filter(out: &mut Vec<u8>) -> Result<(), NoMemory>
    ensures { IfOk result (λ x. WroteParts out.old.items out.new.items (part.NoFilter ∷ [])) }
{
    put_bare(out, b"nofilter".as_slice())
}

fn put_filter_head(out: &mut Vec<u8>) -> Result<(), NoMemory>
    ensures { IfOk result (λ x. WroteParts out.old.items out.new.items (part.Filter ∷ [])) }
{
    put_bare(out, b"filter".as_slice())
}

fn put_decide(out: &mut Vec<u8>) -> Result<(), NoMemory>
    ensures { IfOk result (λ x. WroteParts out.old.items out.new.items (part.Decide ∷ [])) }
{
    put_bare(out, b"decide".as_slice())
}

fn put_end(out: &mut Vec<u8>) -> Result<(), NoMemory>
    ensures { IfOk result (λ x. WroteParts out.old.items out.new.items (part.End ∷ [])) }
{
    put_bare(out, b"end".as_slice())
}

fn put_done(out: &mut Vec<u8>) -> Result<(), NoMemory>
    ensures { IfOk result (λ x. WroteParts out.old.items out.new.items (part.Done ∷ [])) }
{
    put_bare(out, b"done".as_slice())
}

fn put_some_filter(out: &mut Vec<u8>, f: &FilterBlock) -> Result<(), NoMemory>
    requires { ForFilter f.now }
    ensures wrote { IfOk result (λ x. WroteParts out.old.items out.new.items (filter_parts (Some f.now))) }
    ensures shallow { IfOk result (λ x. f.now.depth ≤ 2048) }
{
    let triples = f.triples();
    put_filter_head(out)?;
    put_filter_lines(out, f.ops(), triples)?;
    put_decide(out)
}

fn put_filter(out: &mut Vec<u8>, p: &Program) -> Result<(), NoMemory>
    requires { length p.now.shape.vars ≤ 168 }
    ensures wrote { IfOk result (λ x. WroteParts out.old.items out.new.items (filter_parts p.now.filter)) }
    ensures shallow { IfOk result (λ x. IfSome p.now.filter (λ f. f.depth ≤ 2048)) }
{
    match p.filter() {
        None => put_no_filter(out),
        Some(f) => put_some_filter(out, f),
    }
}

fn put_block_head(out: &mut Vec<u8>, n: u32, exps: &Exps) -> Result<(), NoMemory>
    requires number { n ≤ 65535 }
    requires of_vars { Each (λ p. p.0 ≤ 167) exps.now }
    ensures wrote { IfOk result (λ x. WroteParts out.old.items out.new.items (part.Block n exps.now ∷ [])) }
    ensures rising { IfOk result (λ x. IsRising exps.now) }
{
    put_block(out, n, exps.pairs())
}

fn put_block_lines(out: &mut Vec<u8>, n: u32, b: &Block) -> Result<(), NoMemory>
    requires number { n ≤ 65535 }
    requires rules { ForBlock b.now }
    ensures wrote { IfOk result (λ x. WroteParts out.old.items out.new.items (block_lines n b.now)) }
    ensures listable { IfOk result (λ x. IsListableBlock b.now) }
{
    let pairs = b.pairs();
    put_block_head(out, n, b.exps())?;
    put_range_lines(out, b.ops(), pairs)?;
    put_end(out)
}

fn put_blocks(out: &mut Vec<u8>, blocks: &[Block]) -> Result<(), NoMemory>
    requires few { length blocks.now ≤ most_stages }
    requires rules { Each ForBlock blocks.now }
    ensures wrote { IfOk result (λ x. WroteParts out.old.items out.new.items (blocks_lines 0 blocks.now)) }
    ensures listable { IfOk result (λ x. AreListableBlocks blocks.now) }
{
    'numbered: for (i, b) in blocks.iter().enumerate() {
        put_block_lines(out, i as u32, b)?;
    }
    Ok(())
}

// The list of an order, segment by segment.
fn put_list(out: &mut Vec<u8>, p: &Program, o: &Order) -> Result<(), NoMemory>
    requires { length (order_places o.now) ≡ p.now.shape.sites }
    ensures { IfOk result (λ x. Puts out.old.items out.new.items (λ r. map decimal (list_from p.now (order_places o.now) 0) ++ r)) }
{
    let sites = o.places().len() as u8;
    'segments: for j in 0..sites + 1 {
        put_numbers(out, p.segment(o, j))?;
    }
    Ok(())
}

fn put_order_line(out: &mut Vec<u8>, p: &Program, o: &Order) -> Result<(), NoMemory>
    requires order { IsOrderOf p.now.shape.sites (order_places o.now) }
    requires few { length p.now.blocks ≤ most_stages }
    requires list { IsList (length p.now.blocks) (list_of p.now (order_places o.now)) }
    ensures { IfOk result (λ x. WroteParts out.old.items out.new.items (part.Order (order_places o.now)
        (list_of p.now (order_places o.now)) ∷ [])) }
{
    put(out, b"order".as_slice())?;
    put_places(out, o.places())?;
    put_word(out, b":".as_slice())?;
    put_list(out, p, o)?;
    out.push(b'\n')?;
    Ok(())
}

fn put_orders(out: &mut Vec<u8>, p: &Program, orders: &[Order]) -> Result<(), NoMemory>
    requires all { map order_places orders.now ≡ orders_of p.now.shape.sites }
    requires few { length p.now.blocks ≤ most_stages }
    requires kept { IsProgram p.now }
    ensures { IfOk result (λ x. WroteParts out.old.items out.new.items (order_lines p.now (map order_places orders.now))) }
{
    'orders: for o in orders {
        put_order_line(out, p, o)?;
    }
    Ok(())
}

fn put_all_orders(alloc: Global, out: &mut Vec<u8>, p: &Program) -> Result<(), NoMemory>
    requires few { length p.now.blocks ≤ most_stages }
    requires kept { IsProgram p.now }
    ensures { IfOk result (λ x. WroteParts out.old.items out.new.items (order_lines p.now (orders_of p.now.shape.sites))) }
{
    let orders = all_orders(alloc, p.shape().sites)?;
    put_orders(out, p, orders.as_slice())
}

/// The listing of no programs, of version 2: the text to which programs are appended.
pub fn begin_listing(alloc: Global) -> Result<Vec<u8>, NoMemory>
    ensures { IfOk result (λ v. ListText v.items 2 (listing_of [])) }
{
    let mut out = Vec::new(alloc);
    out.extend_from_slice(b"listing 2\n".as_slice())?;
    Ok(out)
}

// Appends the lines of a program.
fn put_part(alloc: Global, out: &mut Vec<u8>, p: &Program) -> Result<(), NoMemory>
    requires few { length p.now.blocks ≤ most_stages }
    ensures listable { IfOk result (λ x. IsListable p.now) }
    ensures listed { IfOk result (λ x. (ps : List AnyProgram) → ListText out.old.items 2 (listing_of ps)
        → ListText out.new.items 2 (listing_of (ps ++ p.now ∷ []))) }
{
    let blocks = p.blocks();
    put_name(out, &p.shape().name)?;
    put_filter(out, p)?;
    put_blocks(out, blocks)?;
    put_all_orders(alloc, out, p)?;
    put_done(out)
}

/// Appends a program of at most 65,536 blocks to the listing of programs: it is the listing of these and of this one. A listing can state
/// the program: the variables of each block's exponents rise, and no stack needs more than 2,048 places. Where allocation fails, the text is
/// dropped, and `out` is empty.
pub fn put_program(alloc: Global, out: &mut Vec<u8>, p: &Program) -> Result<(), NoMemory>
    requires few { length p.now.blocks ≤ most_stages }
    ensures ok { IfOk result (λ x. (ps : List AnyProgram) → ListText out.old.items 2 (listing_of ps)
        → ListText out.new.items 2 (listing_of (ps ++ p.now ∷ []))) }
    ensures err { OnErr result (out.new.items ≡ []) }
    ensures listable { IfOk result (λ x. IsListable p.now) }
{
    let mut text = replace(out, Vec::new(alloc));
    put_part(alloc, &mut text, p)?;
    *out = text;
    Ok(())
}

/// The text of the listing of the programs, of version 2.
pub fn write_listing(alloc: Global, p: &Programs) -> Result<Vec<u8>, NoMemory>
    ensures text { IfOk result (λ v. ListText v.items 2 (listing_of p.now)) }
    ensures back { IfOk result (λ v. (w : ℕ) (qs : List AnyPart) → ListText v.items w qs → (w ≡ 2) × (qs ≡ listing_of p.now)) }
{
    let mut out = begin_listing(alloc)?;
    'programs: for program in p.as_slice() {
        put_program(alloc, &mut out, program)?;
    }
    Ok(out)
}
