//! Parses a source: it returns the table, or the first fault of the text and its place.
ghost use Rattle.std.specs.Prelude.{◌≡◌, ◌≤◌, ◌<◌, ◌^◌, ◌⊎◌, ℕ, List, All, length, IfOk, IfErr};
ghost use Rattle.ln_base.specs.Limits.{most_source, most_tokens};
ghost use Rattle.ln_lex.specs.Tokens.{IsSlice, Lexed};
ghost use Rattle.ln_syntax.specs.Raw.{items};
ghost use Rattle.ln_names.specs.Nodes.{BodiesAre};
ghost use Rattle.ln_tree.specs.Table.{TableOf, table_of};
ghost use Rattle.ln_parse.specs.declared.source.ParseStop.{ParseStop as Stop};
ghost use Rattle.ln_parse.specs.Text.{TextOf};
ghost use Rattle.ln_parse.specs.Fault.{one_byte, place_of, stop_of, TextFault, IsFaultless, IsRefusal, IsWithoutTable};

use crate::build::build;
use ln_base::{NoMemory, Seq, Span};
use ln_lex::{LexStop, Token, tokens};
use ln_names::{Body, Fault, Found, LimitWhat, NameWhat, NamesStop, check_names};
use ln_syntax::items::span_of;
use ln_syntax::{RawItem, nesting_fault, read_items, syntax_fault};
use ln_tree::Table;
use std::alloc::Global;

/// Why a source has no table, and where: a byte that begins no token, a limit that it breaks, a token with which no
/// file goes on, a name; or out of memory.
#[derive(Clone, Copy, PartialEq, Eq)]
pub enum ParseStop {
    Lexical(Span),
    Limit(LimitWhat, Span),
    Syntax(Span),
    Name(NameWhat, Span),
    NoMemory(NoMemory),
}

/// The table of a source; or the first fault of its text and its place, and then no table has the text.
pub fn parse(alloc: Global, bytes: &[u8]) -> Result<Table, ParseStop>
    requires { length bytes.now ≤ most_source }
    ensures ok { IfOk result (λ t. TextOf bytes.now (table_of t.sites t.params t.preds)) }
    ensures err { IfErr result (λ e. IsRefusal bytes.now e) }
    ensures no_table { IfErr result (λ e. IsWithoutTable bytes.now e) }
{
    let list = scanned(alloc, bytes)?;
    let ts = list.as_slice();
    let file = checked(alloc, bytes, ts)?;
    match build(alloc, bytes, ts, &file.items, file.nodes.as_slice()) {
        Ok(table) => Ok(table),
        Err(e) => Err(ParseStop::NoMemory(e)),
    }
}

// The tokens of a source.
fn scanned(alloc: Global, bytes: &[u8]) -> Result<Seq<Token>, ParseStop>
    requires { length bytes.now ≤ most_source }
    ensures lexed { IfOk result (λ ts. Lexed bytes.now ts) }
    ensures few { IfOk result (λ ts. length ts ≤ most_tokens) }
    ensures slices { IfOk result (λ ts. All (IsSlice bytes.now) ts) }
    ensures err { IfErr result (λ e. IsRefusal bytes.now e) }
{
    match tokens(alloc, bytes) {
        Ok(ts) => Ok(ts),
        Err(LexStop::Lexical(at)) => Err(ParseStop::Lexical(byte_at(at))),
        Err(LexStop::Limit(at)) => Err(ParseStop::Limit(LimitWhat::Tokens, byte_at(at))),
        Err(LexStop::NoMemory(e)) => Err(ParseStop::NoMemory(e)),
    }
}

// The items of a file without a fault, and the nodes of their expressions.
#[derive(Drop)]
struct File {
    items: Vec<RawItem>,
    nodes: Seq<Body>,
}

// The items of tokens without a fault, and their nodes.
fn checked(alloc: Global, bytes: &[u8], ts: &[Token]) -> Result<File, ParseStop>
    requires lexed { Lexed bytes.now ts.now }
    requires few { length ts.now ≤ most_tokens }
    requires short { length bytes.now ≤ most_source }
    ensures ok { IfOk result (λ f. IsFaultless bytes.now ts.now (items f.items.items)) }
    ensures nodes { IfOk result (λ f. BodiesAre bytes.now ts.now (items f.items.items) f.nodes) }
    ensures err { IfErr result (λ e. IsRefusal bytes.now e) }
{
    if let Some(at) = nesting_fault(ts) {
        return Err(ParseStop::Limit(LimitWhat::Nesting, span_of(ts, at)));
    }
    if let Some(at) = syntax_fault(ts) {
        return Err(ParseStop::Syntax(fault_place(bytes, ts, at)));
    }
    let its = match read_items(alloc, ts) {
        Ok(its) => its,
        Err(e) => return Err(ParseStop::NoMemory(e)),
    };
    match check_names(alloc, bytes, ts, &its) {
        Ok(nodes) => Ok(File { items: its, nodes }),
        Err(NamesStop::Found(found)) => Err(stop_of(found)),
        Err(NamesStop::NoMemory(e)) => Err(ParseStop::NoMemory(e)),
    }
}

// The refusal for a fault of names and limits.
fn stop_of(found: Found) -> ParseStop
    ensures { result ≡ stop_of found.fault found.at }
{
    match found.fault {
        Fault::Limit(what) => ParseStop::Limit(what, found.at),
        Fault::Named(what) => ParseStop::Name(what, found.at),
    }
}

// The span of the token at a place, or the empty span at the end of the source.
fn fault_place(bytes: &[u8], ts: &[Token], at: usize) -> Span
    requires { length bytes.now ≤ most_source }
    ensures { result ≡ place_of bytes.now ts.now at }
{
    if at < ts.len() {
        return span_of(ts, at);
    }
    let end = bytes.len() as u32;
    Span { start: end, end }
}

// The span of one byte.
fn byte_at(at: u32) -> Span
    requires { at < 2 ^ 20 }
    ensures { result ≡ one_byte at }
{
    Span {
        start: at,
        end: at + 1,
    }
}

/// A law: every text has one table or one first fault, and not both.
pub fn one_answer()
    ensures table { (bytes : List ℕ) (t u : TableOf) → TextOf bytes t → TextOf bytes u → t ≡ u }
    ensures fault { (bytes : List ℕ) (e f : Stop) → TextFault bytes e → TextFault bytes f → e ≡ f }
    ensures not_both { (bytes : List ℕ) (t : TableOf) (e : Stop) → TextOf bytes t → TextFault bytes e → ⊥ }
    ensures either { (bytes : List ℕ) → ((t : TableOf) × TextOf bytes t) ⊎ ((e : Stop) × TextFault bytes e) }
{}
