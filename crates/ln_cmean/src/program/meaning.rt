//! The meanings of calls, as lines.
ghost use Rattle.std.specs.Prelude.{◌≡◌, ◌++◌, ◌⊎◌, ℕ, true, false, map, IfErr, IfOk};
ghost use Rattle.ln_base.specs.Outside.{refused};
ghost use Rattle.ln_csyn.specs.View.{fun_tree};
ghost use Rattle.ln_cmean.specs.Answered.{told};
ghost use Rattle.ln_cmean.specs.Room.{MadeFor};
ghost use Rattle.ln_cmean.specs.Carrying.Calls.{AreMeanings, IsFirstOther, IsNoCall, IsPut, meaning_words, sign_words, undefined_words};
ghost use Rattle.ln_cmean.specs.declared.program.stop.Stop.TheVariants.{Call, Memory};

use crate::program::calls::{call_of, next_line};
use crate::program::stop::Stop;
use crate::{CAnswer, CFault, CScratch, call};
use itoa::Buffer;
use ln_base::NoMemory;
use ln_base::put::{put, put_number};
use ln_csyn::CFile;
use std::alloc::Global;

// Appends a sign and the two counts.
fn put_sign(out: &mut Vec<u8>, a: CAnswer) -> Result<(), NoMemory>
    ensures { IfOk result (λ x. out.new.items ≡ out.old.items ++ sign_words a.sign a.wide a.calls) }
{
    let mut digits = Buffer::new();
    put(out, digits.format(a.sign).as_bytes())?;
    put_number(out, u128::from(a.wide))?;
    put_number(out, u128::from(a.calls))
}

// Appends the line at which a call has no meaning.
fn put_undefined(out: &mut Vec<u8>, line: u32) -> Result<(), NoMemory>
    ensures { IfOk result (λ x. out.new.items ≡ out.old.items ++ undefined_words line) }
{
    put(out, b"undefined")?;
    put_number(out, u128::from(line))
}

// Appends the meaning of a call.
fn put_meaning(out: &mut Vec<u8>, meaning: Result<CAnswer, CFault>) -> Result<(), NoMemory>
    ensures { IfOk result (λ x. out.new.items ≡ out.old.items ++ meaning_words (told meaning)) }
{
    match meaning {
        Ok(a) => put_sign(out, a),
        Err(CFault::Undefined(line)) => put_undefined(out, line),
        Err(CFault::NoFunction) => put(out, b"none"),
    }
}

// Appends the meaning of the call that a line is, and a line feed; or returns that the line isn't a call.
fn put_line<'a>(
    alloc: Global,
    file: &'a CFile,
    line: &[u8],
    scratch: &mut CScratch<'a>,
    out: &mut Vec<u8>,
) -> Result<bool, NoMemory>
    requires { MadeFor (map fun_tree file.now.funs) scratch.old }
    ensures made { MadeFor (map fun_tree file.now.funs) scratch.new }
    ensures line { IfOk result (λ is. is ≡ true → IsPut (map fun_tree file.now.funs) line.now out.old.items out.new.items) }
    ensures other { IfOk result (λ is. is ≡ false → IsNoCall line.now) }
{
    let Some(c) = call_of(alloc, line)? else {
        return Ok(false);
    };
    let meaning = call(file, c.name, &c.index, &c.values, scratch);
    put_meaning(out, meaning)?;
    out.push(b'\n')?;
    Ok(true)
}

// Returns the meanings of the calls that are the lines of a text, by a scratch that was made for the file.
fn lines<'a>(
    alloc: Global,
    file: &'a CFile,
    calls: &[u8],
    scratch: &mut CScratch<'a>,
) -> Result<Vec<u8>, Stop>
    requires { MadeFor (map fun_tree file.now.funs) scratch.old }
    ensures all { IfOk result (λ v. AreMeanings (map fun_tree file.now.funs) calls.now v.items) }
    ensures stop { IfErr result (λ s. (s ≡ Memory refused) ⊎ ((n : ℕ) × (s ≡ Call n) × IsFirstOther calls.now n)) }
{
    let mut out = Vec::new(alloc);
    let mut rest = calls;
    let mut n = 0u64;
    'lines: while rest.len() > 0 {
        n += 1;
        let (line, later) = next_line(rest);
        let is_call = put_line(alloc, file, line, scratch, &mut out)?;
        if !is_call {
            return Err(Stop::Call(n));
        }
        rest = later;
    }
    Ok(out)
}

/// Returns the meanings of the calls that are the lines of a text, a line each; or stops at the first line that isn't a call.
pub fn meanings(alloc: Global, file: CFile, calls: Vec<u8>) -> Result<Vec<u8>, Stop>
    ensures all { IfOk result (λ v. AreMeanings (map fun_tree file.funs) calls.items v.items) }
    ensures stop { IfErr result (λ s. (s ≡ Memory refused) ⊎ ((n : ℕ) × (s ≡ Call n) × IsFirstOther calls.items n)) }
{
    let mut scratch = CScratch::new(alloc, &file)?;
    lines(alloc, &file, calls.as_slice(), &mut scratch)
}
