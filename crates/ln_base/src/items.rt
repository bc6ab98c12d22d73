//! Lists whose items are words: exponents, places of sites, and numbers of blocks.
ghost use Rattle.std.specs.Prelude.{◌≡◌, ◌∷◌, ◌++◌, ℕ, List, IfOk, IfSome, IfNone, MatchOption, codes, map};
ghost use Rattle.ln_base.specs.Exponents.{Each};
ghost use Rattle.ln_base.specs.Lines.{words_from};

use crate::numeral::{exponent, number};
use crate::scan::word;
use crate::{NoMemory, Seq};
use std::alloc::Global;

/// An item of a list, which is a word.
pub trait Item: Copy {
    ghost word: { Self → List ℕ };

    ghost is: { Self → Type 0 };

    /// The item that the word is.
    fn of_word(w: &[u8]) -> Option<Self>
        ensures some { IfSome result (λ x. is x × (w.now ≡ word x)) }
        ensures none { IfNone result ((x : Self) → is x → w.now ≡ word x → ⊥) };
}

/// A variable and its exponent.
impl Item for (u8, u8) {
    ghost use Rattle.ln_base.specs.Exponents.{IsExponent, exponent_word};

    ghost word = { exponent_word };

    ghost is = { IsExponent };

    fn of_word(w: &[u8]) -> Option<(u8, u8)> {
        exponent(w)
    }
}

/// The place of a site.
impl Item for u8 {
    ghost use Rattle.std.specs.Prelude.{◌≤◌, decimal};

    ghost word = { decimal };

    ghost is = { λ n. n ≤ 4 };

    fn of_word(w: &[u8]) -> Option<u8> {
        let n = number(w, 4)?;
        Some(n as u8)
    }
}

/// The number of a block.
impl Item for u32 {
    ghost use Rattle.std.specs.Prelude.{◌≤◌, decimal};

    ghost word = { decimal };

    ghost is = { λ n. n ≤ 65535 };

    fn of_word(w: &[u8]) -> Option<u32> {
        let n = number(w, 65535)?;
        Some(n as u32)
    }
}

/// The items from a place on, up to the last word.
pub fn items<T: Item>(alloc: Global, bytes: &[u8], at: usize) -> Result<Option<Seq<T>>, NoMemory>
    ensures { IfOk result (λ o. MatchOption o ((xs : List T) → Each T.is xs → words_from at bytes.now ≡ map T.word xs → ⊥)
        (λ xs. Each T.is xs × (words_from at bytes.now ≡ map T.word xs))) }
{
    let mut all = Vec::new(alloc);
    let mut here = at;
    'words: while here <= bytes.len() {
        let (w, next) = word(bytes, here);
        let Some(item) = T::of_word(w) else {
            return Ok(None);
        };
        all.push(item)?;
        here = next;
    }
    Ok(Some(Seq::from_vec(all)))
}

/// The items from a place on, up to a colon, which is the word of no item, and the place after the colon.
pub fn items_to_colon<T: Item>(
    alloc: Global,
    bytes: &[u8],
    at: usize,
) -> Result<Option<(Seq<T>, usize)>, NoMemory>
    requires { (x : T) → T.is x → T.word x ≡ codes ":" → ⊥ }
    ensures { IfOk result (λ o. MatchOption o
        ((xs : List T) (ws : List (List ℕ)) → Each T.is xs → words_from at bytes.now ≡ map T.word xs ++ codes ":" ∷ ws → ⊥)
        (λ x. Each T.is x.0 × (words_from at bytes.now ≡ map T.word x.0 ++ codes ":" ∷ words_from x.1 bytes.now))) }
{
    let mut all = Vec::new(alloc);
    let mut here = at;
    'words: while here <= bytes.len() {
        let (w, next) = word(bytes, here);
        if w == b":".as_slice() {
            return Ok(Some((Seq::from_vec(all), next)));
        }
        let Some(item) = T::of_word(w) else {
            return Ok(None);
        };
        all.push(item)?;
        here = next;
    }
    Ok(None)
}
