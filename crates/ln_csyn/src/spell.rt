//! Appends tokens to a text, each with a blank after it. The writer appends a file from its tree with these functions, and a caller without a tree
//! may append tokens one by one: by the contracts these tokens are between the old text and the new one.
ghost use Rattle.std.specs.Prelude.{[], ◌∷◌, IfOk, decimal};
ghost use Rattle.ln_csyn.specs.Spelling.{PutsTokens, lexeme, tokens_in, type_text, op_text};

use crate::tree::{COp, CType};
use crate::word::op_word;
use itoa::Buffer;
use ln_base::NoMemory;

/// Appends a token and a blank.
pub fn put(out: &mut Vec<u8>, text: &[u8]) -> Result<(), NoMemory>
    ensures { IfOk result (λ x. PutsTokens out.old.items out.new.items (λ r. lexeme text.now ∷ r)) }
{
    out.extend_from_slice(text)?;
    out.push(b' ')?;
    Ok(())
}

/// Appends tokens, which are parted by blanks in the text, and a blank after the last.
pub fn put_tokens(out: &mut Vec<u8>, text: &[u8]) -> Result<(), NoMemory>
    ensures { IfOk result (λ x. PutsTokens out.old.items out.new.items (tokens_in [] text.now)) }
{
    put(out, text)
}

/// Appends a NUMBER.
pub fn put_number(out: &mut Vec<u8>, n: u64) -> Result<(), NoMemory>
    ensures { IfOk result (λ x. PutsTokens out.old.items out.new.items (λ r. lexeme (decimal n) ∷ r)) }
{
    let mut buffer = Buffer::new();
    put(out, buffer.format(n).as_bytes())
}

/// Appends a type.
pub fn put_type(out: &mut Vec<u8>, kind: CType) -> Result<(), NoMemory>
    ensures { IfOk result (λ x. PutsTokens out.old.items out.new.items (λ r. lexeme (type_text kind) ∷ r)) }
{
    match kind {
        CType::Int => put(out, b"int".as_slice()),
        CType::Int64 => put(out, b"int64_t".as_slice()),
        CType::Int128 => put(out, b"__int128".as_slice()),
    }
}

/// Appends an operation.
pub fn put_op(out: &mut Vec<u8>, op: COp) -> Result<(), NoMemory>
    ensures { IfOk result (λ x. PutsTokens out.old.items out.new.items (λ r. lexeme (op_text op) ∷ r)) }
{
    put(out, op_word(op))
}
