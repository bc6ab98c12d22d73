//! The reader of functions: one function for each function of specs/Reading.antt.
ghost use Rattle.std.specs.Prelude.{◌≡◌, ◌<◌, suc, None, Some, IfOk, IfErr, Option, option_map, length, map};
ghost use Rattle.ln_csyn.specs.Seen.{tokens_of};
ghost use Rattle.ln_csyn.specs.View.{fun_tree};
ghost use Rattle.ln_csyn.specs.declared.stop.CStop.TheVariants.{NotSubset};
ghost use Rattle.ln_csyn.specs.Reading.{block_at, pointer_at, both_rest, parameters_at, words_at, head_at, fun_at, funs_at};

use crate::body::{Depths, block};
use crate::expr::copied;
use crate::stop::CStop;
use crate::token::{eat, is_end, name_at};
use crate::tokens::Tokens;
use crate::tree::CFun;
use std::alloc::Global;

fn pointer_at<'a>(tokens: Tokens<'a>) -> Option<Tokens<'a>>
    ensures { option_map tokens_of result ≡ pointer_at (tokens_of tokens.entry) }
{
    let rest = eat(tokens, b"const".as_slice())?;
    let rest = eat(rest, b"int64_t".as_slice())?;
    eat(rest, b"*".as_slice())
}

fn both_rest<'a>(tokens: Tokens<'a>) -> Option<(bool, Tokens<'a>)>
    ensures { option_map (λ y. (y.0, tokens_of y.1)) result ≡ both_rest (tokens_of tokens.entry) }
{
    let rest = eat(tokens, b"x".as_slice())?;
    let rest = eat(rest, b",".as_slice())?;
    let rest = pointer_at(rest)?;
    let rest = eat(rest, b"v".as_slice())?;
    Some((true, rest))
}

fn parameters_at<'a>(tokens: Tokens<'a>) -> Option<(bool, Tokens<'a>)>
    ensures { option_map (λ y. (y.0, tokens_of y.1)) result ≡ parameters_at (tokens_of tokens.entry) }
{
    let rest = pointer_at(tokens)?;
    if let Some(rest) = eat(rest, b"v".as_slice()) {
        return Some((false, rest));
    }
    both_rest(rest)
}

// Returns the words before a body: the name, and whether there is the parameter `x`.
fn words_at<'a>(tokens: Tokens<'a>) -> Option<(&'a [u8], bool, Tokens<'a>)>
    ensures { option_map (λ y. (y.0.now, y.1, tokens_of y.2)) result ≡ words_at (tokens_of tokens.entry) }
{
    let rest = eat(tokens, b"int".as_slice())?;
    let (name, rest) = name_at(rest)?;
    let rest = eat(rest, b"(".as_slice())?;
    let (indexed, rest) = parameters_at(rest)?;
    let rest = eat(rest, b")".as_slice())?;
    Some((name, indexed, rest))
}

fn head_at<'a>(
    alloc: Global,
    own: bool,
    tokens: Tokens<'a>,
    depths: Depths,
    braces: u32,
) -> Result<(CFun, Tokens<'a>), CStop>
    requires { depths.outer ≡ suc depths.inner }
    ensures ok { IfOk result (λ y. head_at (block_at depths.outer depths.inner braces) own (tokens_of tokens.entry)
        ≡ Some (fun_tree y.0, tokens_of y.1)) }
    ensures err { IfErr result (λ e. e ≡ NotSubset →
        head_at (block_at depths.outer depths.inner braces) own (tokens_of tokens.entry) ≡ None) }
{
    let Some((name, indexed, rest)) = words_at(tokens) else {
        return Err(CStop::NotSubset);
    };
    let name = copied(alloc, name)?;
    let (body, end, rest) = block(alloc, rest, depths, braces)?;
    let f = CFun {
        own,
        name,
        indexed,
        body,
        end,
    };
    Ok((f, rest))
}

fn fun_at<'a>(
    alloc: Global,
    tokens: Tokens<'a>,
    depths: Depths,
    braces: u32,
) -> Result<(CFun, Tokens<'a>), CStop>
    requires { depths.outer ≡ suc depths.inner }
    ensures ok { IfOk result (λ y. fun_at (block_at depths.outer depths.inner braces) (tokens_of tokens.entry)
        ≡ Some (fun_tree y.0, tokens_of y.1)) }
    ensures err { IfErr result (λ e. e ≡ NotSubset → fun_at (block_at depths.outer depths.inner braces) (tokens_of tokens.entry) ≡ None) }
{
    if let Some(rest) = eat(tokens, b"static".as_slice()) {
        return head_at(alloc, true, rest, depths, braces);
    }
    head_at(alloc, false, tokens, depths, braces)
}

/// The functions of a file.
pub fn funs<'a>(
    alloc: Global,
    tokens: Tokens<'a>,
    depths: Depths,
    braces: u32,
) -> Result<Vec<CFun>, CStop>
    requires depths { depths.outer ≡ suc depths.inner }
    requires braces { 0 < braces }
    ensures ok { IfOk result (λ y. funs_at (block_at depths.outer depths.inner braces) (suc (length (tokens_of tokens.entry)))
        (tokens_of tokens.entry) ≡ Some (map fun_tree y.items)) }
    ensures err { IfErr result (λ e. e ≡ NotSubset → funs_at (block_at depths.outer depths.inner braces)
        (suc (length (tokens_of tokens.entry))) (tokens_of tokens.entry) ≡ None) }
{
    let mut funs = Vec::new(alloc);
    let mut rest = tokens;
    'funs: loop {
        if is_end(rest) {
            return Ok(funs);
        }
        let (f, next) = fun_at(alloc, rest, depths, braces)?;
        funs.push(f)?;
        rest = next;
    }
}
