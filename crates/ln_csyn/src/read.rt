//! Reads the file of the subset that bytes are, and refuses all other bytes.
ghost use Rattle.std.specs.Prelude.{◌≡◌, ℕ, true, ◌<◌, ◌^◌, ◌++◌, List, IfOk, IfErr, IfSome, IfNone, length, map};
ghost use Rattle.ln_csyn.specs.Tree.{Fun};
ghost use Rattle.ln_csyn.specs.Seen.{tokens_of};
ghost use Rattle.ln_csyn.specs.View.{fun_tree};
ghost use Rattle.ln_csyn.specs.Text.{Spelt, CText, first_line, is_file};
ghost use Rattle.ln_csyn.specs.declared.stop.CStop.TheVariants.{NotSubset};

use crate::body::Depths;
use crate::file::funs;
use crate::keep::keeps;
use crate::scan::{after, front, tokens_from};
use crate::stop::CStop;
use crate::tokens::Tokens;
use crate::tree::CFun;
use ln_base::Seq;
use std::alloc::Global;

/// A file of the subset: its functions, which keep the side conditions.
#[derive(Drop)]
pub struct CFile {
    pub funs: Seq<CFun>,
    ghost kept: { is_file (map fun_tree funs) ≡ true },
}

fn file(alloc: Global, tokens: Tokens<'_>, depths: Depths, braces: u32) -> Result<Vec<CFun>, CStop>
    requires outer { depths.outer ≡ 16 }
    requires inner { depths.inner ≡ 15 }
    requires braces { braces ≡ 64 }
    ensures ok { IfOk result (λ fs. Spelt (tokens_of tokens.entry) (map fun_tree fs.items)) }
    ensures err { IfErr result (λ e. e ≡ NotSubset → (gs : List Fun) → Spelt (tokens_of tokens.entry) gs → ⊥) }
{
    let fs = funs(alloc, tokens, depths, braces)?;
    let kept = keeps(alloc, fs.as_slice())?;
    if kept { Ok(fs) } else { Err(CStop::NotSubset) }
}

fn behind_first(bytes: &[u8]) -> Option<&[u8]>
    ensures some { IfSome result (λ r. bytes.now ≡ first_line ++ r.now) }
    ensures none { IfNone result ((r : List ℕ) → bytes.now ≡ first_line ++ r → ⊥) }
{
    if bytes.len() < 20 {
        return None;
    }
    if front(bytes, 20) == b"#include <stdint.h>\n".as_slice() {
        Some(after(bytes, 20))
    } else {
        None
    }
}

/// The file that the bytes are. `NotSubset` exactly where they are none of the subset.
pub fn read_c(alloc: Global, bytes: &[u8]) -> Result<CFile, CStop>
    requires { length bytes.now < 2 ^ 32 }
    ensures ok { IfOk result (λ f. CText bytes.now (map fun_tree f.funs)) }
    ensures err { IfErr result (λ e. e ≡ NotSubset → (gs : List Fun) → CText bytes.now gs → ⊥) }
{
    let Some(rest) = behind_first(bytes) else {
        return Err(CStop::NotSubset);
    };
    let depths = Depths {
        outer: 16,
        inner: 15,
    };
    let funs = file(alloc, tokens_from(rest, 2), depths, 64)?;
    Ok(CFile {
        funs: Seq::from_vec(funs),
    })
}
