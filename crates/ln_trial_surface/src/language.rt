//! Tokens of a source, its table, and why it has none.
use ln_base::{NoMemory, Seq};
use ln_lex::{LexStop, Token, tokens};
use ln_parse::{ParseStop, parse, print};
use ln_tree::Table;
use std::alloc::Global;

#[test]
fn calls_of_the_language_have_their_types(_rt: HostRuntime) {
    let _: fn(Global, &[u8]) -> Result<Seq<Token>, LexStop> = tokens;
    let _: fn(Global, &[u8]) -> Result<Table, ParseStop> = parse;
    let _: fn(Global, &Table) -> Result<Vec<u8>, NoMemory> = print;
}
