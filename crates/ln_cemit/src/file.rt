//! Writes the whole file: for each program the functions of its filter and its blocks, and after them the one that calls these.
ghost use Rattle.std.specs.Prelude.{◌≡◌, ◌≤◌, ◌++◌, ◌∷◌, [], true, IfOk, OnErr, List, codes, map};
ghost use Rattle.std.specs.List.{range_with_len};
ghost use Rattle.ln_csyn.specs.Layout.{Lays};
ghost use Rattle.ln_csyn.specs.Spelling.{PutsTokens, Goes, lexeme, spell_body, spell_parameters, spell_fun};
ghost use Rattle.ln_csyn.specs.Tree.{Body, Group};
ghost use Rattle.ln_code.specs.Kept.{IsProgram};
ghost use Rattle.ln_code.specs.Lists.{segment_of};
ghost use Rattle.ln_code.specs.Part.{Part};
ghost use Rattle.ln_cemit.specs.Emitted.{BeginsFile, BeginsFileAs, IsEmitted};
ghost use Rattle.ln_cemit.specs.File.{one_fun, one_funs, two_fun};
ghost use Rattle.ln_cemit.specs.Names.{answer_name, block_name, entry_name, filter_name};
ghost use Rattle.ln_cemit.specs.Puts.{filter_funs, filter_tried};
ghost use Rattle.ln_cemit.specs.Walked.{attempt, walked};
ghost use Rattle.ln_cemit.specs.Whole.{Entered, block_body, call_body, filter_body, part_name};

use crate::body::{put_block_fun, put_filter_fun, put_may_touch_index, put_two_head};
use crate::entry::Entry;
use crate::title::{block_title, call_title, filter_title};
use crate::walk::{Prefix, name_of, put_try, put_walked};
use ln_base::NoMemory;
use ln_code::{Block, FilterBlock, Program, Programs};
use ln_csyn::layout::lay_fun;
use ln_csyn::spell::put;
use ln_order::{Order, all_orders};
use std::alloc::Global;
use std::mem::replace;

fn put_numbered_block(
    alloc: Global,
    out: &mut Vec<u8>,
    name: &[u8],
    number: usize,
    block: &Block,
) -> Result<(), NoMemory>
    ensures { IfOk result (λ x. Lays out.old.items out.new.items (one_fun (block_name name.now number) (block_body block.now) ∷ [])) }
{
    let title = block_title(alloc, name, number)?;
    let mut tokens = Vec::new(alloc);
    put_block_fun(alloc, &mut tokens, title.as_slice(), block)?;
    lay_fun(out, &mut tokens)
}

// The functions of the blocks, by number.
fn put_blocks(
    alloc: Global,
    out: &mut Vec<u8>,
    name: &[u8],
    blocks: &[Block],
) -> Result<(), NoMemory>
    ensures { IfOk result (λ x. Lays out.old.items out.new.items (one_funs (block_name name.now) 0 (map block_body blocks.now))) }
{
    'all: for (number, block) in blocks.iter().enumerate() {
        put_numbered_block(alloc, out, name, number, block)?;
    }
    Ok(())
}

fn put_filter(
    alloc: Global,
    out: &mut Vec<u8>,
    name: &[u8],
    filter: &FilterBlock,
) -> Result<(), NoMemory>
    ensures { IfOk result (λ x. Lays out.old.items out.new.items (one_fun (filter_name name.now) (filter_body filter.now) ∷ [])) }
{
    let title = filter_title(alloc, name)?;
    let mut tokens = Vec::new(alloc);
    put_filter_fun(alloc, &mut tokens, title.as_slice(), filter)?;
    lay_fun(out, &mut tokens)
}

// The function of the filter, if there is one.
fn put_filter_of(alloc: Global, out: &mut Vec<u8>, p: &Program) -> Result<(), NoMemory>
    ensures put { IfOk result (λ x. Lays out.old.items out.new.items (filter_funs (part_name p.now) p.now.filter)) }
    ensures kept { IfOk result (λ x. IsProgram p.now) }
{
    let name = name_of(p);
    match p.filter() {
        Some(filter) => put_filter(alloc, out, name, filter),
        None => Ok(()),
    }
}

fn put_blocks_of(alloc: Global, out: &mut Vec<u8>, p: &Program) -> Result<(), NoMemory>
    ensures { IfOk result (λ x. Lays out.old.items out.new.items
        (one_funs (block_name (part_name p.now)) 0 (map block_body p.now.blocks))) }
{
    let name = name_of(p);
    put_blocks(alloc, out, name, p.blocks())
}

fn put_filter_try(alloc: Global, out: &mut Vec<u8>, name: &[u8]) -> Result<(), NoMemory>
    ensures { IfOk result (λ x. (b : Body) → Goes out.old.items out.new.items (spell_body b)
        (spell_body (Group 2 (attempt answer_name (filter_name name.now)) b))) }
{
    let title = filter_title(alloc, name)?;
    put_try(out, title.as_slice())
}

// The call of the filter, if there is one.
fn put_may_filter(alloc: Global, out: &mut Vec<u8>, p: &Program) -> Result<(), NoMemory>
    ensures { IfOk result (λ x. (b : Body) → Goes out.old.items out.new.items (spell_body b)
        (spell_body (filter_tried (part_name p.now) p.now.filter b))) }
{
    let name = name_of(p);
    match p.filter() {
        Some(_) => put_filter_try(alloc, out, name),
        None => Ok(()),
    }
}

// The statements after the call of the filter.
fn put_all_sites(alloc: Global, out: &mut Vec<u8>, p: &Program, sites: u8) -> Result<(), NoMemory>
    requires few { sites ≤ 5 }
    requires sites { sites ≡ p.now.shape.sites }
    ensures { IfOk result (λ x. PutsTokens out.old.items out.new.items
        (spell_body (walked (block_name (part_name p.now)) answer_name (segment_of p.now) sites [] (range_with_len 0 sites)))) }
{
    let orders = all_orders(alloc, sites)?;
    let all = Order::of_arguments(sites);
    let at = Prefix {
        program: p,
        orders: orders.as_slice(),
        front: &[],
        left: all.places(),
    };
    put_walked(alloc, out, &at, sites)
}

// The body of the function with two parameters.
fn put_call_body(alloc: Global, out: &mut Vec<u8>, p: &Program) -> Result<(), NoMemory>
    ensures { IfOk result (λ x. PutsTokens out.old.items out.new.items (spell_body (call_body p.now))) }
{
    let sites = p.shape().sites;
    put_may_touch_index(out, 2 <= sites)?;
    put_may_filter(alloc, out, p)?;
    put_all_sites(alloc, out, p, sites)
}

fn put_call_head(
    alloc: Global,
    out: &mut Vec<u8>,
    p: &Program,
    entry: Entry,
) -> Result<(), NoMemory>
    ensures { IfOk result (λ x. PutsTokens out.old.items out.new.items (λ r. lexeme (codes "int") ∷ lexeme (entry_name entry (part_name p.now))
        ∷ lexeme (codes "(") ∷ spell_parameters true (lexeme (codes ")") ∷ r))) }
{
    let name = name_of(p);
    let title = call_title(alloc, entry, name)?;
    put_two_head(out, title.as_slice())
}

fn put_call_fun(alloc: Global, out: &mut Vec<u8>, p: &Program, entry: Entry) -> Result<(), NoMemory>
    ensures { IfOk result (λ x. PutsTokens out.old.items out.new.items (spell_fun (two_fun (entry_name entry (part_name p.now)) (call_body p.now)))) }
{
    put_call_head(alloc, out, p, entry)?;
    put(out, b"{")?;
    put_call_body(alloc, out, p)?;
    put(out, b"}")
}

fn put_call(alloc: Global, out: &mut Vec<u8>, p: &Program, entry: Entry) -> Result<(), NoMemory>
    ensures { IfOk result (λ x. Lays out.old.items out.new.items (two_fun (entry_name entry (part_name p.now)) (call_body p.now) ∷ [])) }
{
    let mut tokens = Vec::new(alloc);
    put_call_fun(alloc, &mut tokens, p, entry)?;
    lay_fun(out, &mut tokens)
}

/// Returns the C of no programs, its first line.
pub fn begin_file(alloc: Global) -> Result<Vec<u8>, NoMemory>
    ensures { IfOk result (λ v. BeginsFile v.items []) }
{
    let mut out = Vec::new(alloc);
    out.extend_from_slice(b"#include <stdint.h>\n".as_slice())?;
    Ok(out)
}

// Appends the functions of a program.
fn put_funs(alloc: Global, out: &mut Vec<u8>, p: &Program, entry: Entry) -> Result<(), NoMemory>
    ensures { IfOk result (λ x. (xs : List Entered) → BeginsFileAs out.old.items xs
        → BeginsFileAs out.new.items (xs ++ record { entry = entry; part = p.now } ∷ [])) }
{
    put_filter_of(alloc, out, p)?;
    put_blocks_of(alloc, out, p)?;
    put_call(alloc, out, p, entry)
}

/// Appends the functions of a program to the C of others. For programs whose names differ, each with at most 65,536 blocks, the text is
/// then what `emit` returns for all of them (`laws::file_is_emitted`). Where allocation fails, the text is dropped, and `out` is empty.
pub fn put_program(alloc: Global, out: &mut Vec<u8>, p: &Program) -> Result<(), NoMemory>
    ensures ok { IfOk result (λ x. (ps : List Part) → BeginsFile out.old.items ps → BeginsFile out.new.items (ps ++ p.now ∷ [])) }
    ensures err { OnErr result (out.new.items ≡ []) }
{
    put_program_as(alloc, out, p, Entry::EveryRow)
}

/// Appends the functions of a program to the C of others, as `put_program`, where the one that is called from outside has the name of `entry`.
pub fn put_program_as(
    alloc: Global,
    out: &mut Vec<u8>,
    p: &Program,
    entry: Entry,
) -> Result<(), NoMemory>
    ensures ok { IfOk result (λ x. (xs : List Entered) → BeginsFileAs out.old.items xs
        → BeginsFileAs out.new.items (xs ++ record { entry = entry; part = p.now } ∷ [])) }
    ensures err { OnErr result (out.new.items ≡ []) }
{
    let mut text = replace(out, Vec::new(alloc));
    put_funs(alloc, &mut text, p, entry)?;
    *out = text;
    Ok(())
}

/// Returns the C of these programs: a text of the subset in which each program `NAME` has the function
/// `int ln_NAME(const int64_t *x, const int64_t *v)`. On each row in range, its indices in `x` and its values in `v`, the call has a
/// meaning: the sign -1, 0 or 1 of the verdict of `run_row`, with as many calls of other functions as the verdict has, and no operation
/// in `__int128` where the filter decides. The text has a statement a line, indented by its braces.
pub fn emit(alloc: Global, p: &Programs) -> Result<Vec<u8>, NoMemory>
    ensures { IfOk result (λ v. IsEmitted p.now v.items) }
{
    let mut out = begin_file(alloc)?;
    'programs: for program in p.as_slice() {
        put_program(alloc, &mut out, program)?;
    }
    Ok(out)
}
