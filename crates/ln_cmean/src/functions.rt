//! The functions of a file, found by their names.
ghost use Rattle.std.specs.Prelude.{◌≡◌, true, take, length, map};
ghost use Rattle.ln_csyn.specs.Keeps.{distinct, names_of};
ghost use Rattle.ln_csyn.specs.Sets.{names_in};
ghost use Rattle.ln_csyn.specs.View.{fun_tree};

use indexmap::IndexSet;
use ln_csyn::CFun;

/// The first functions of a file, and the names of all its functions.
#[derive(Clone, Copy)]
pub struct Functions<'a, 'n> {
    pub funs: &'a [CFun],
    pub names: &'n IndexSet<&'a [u8]>,
    pub ghost named: { take (length funs.now) (names_in names.now) ≡ names_of (map fun_tree funs.now) },
    pub ghost differ: { distinct (names_in names.now) ≡ true },
}

impl<'a, 'n> Functions<'a, 'n> {
    ghost use Rattle.std.specs.Prelude.{false, IfSome, IfNone, ◌<◌};
    ghost use Rattle.std.specs.List.{list_any};
    ghost use Rattle.ln_cmean.specs.Places.{IsFirst, test};

    /// Returns the place of the first of these functions that has two parameters, or one, and the name.
    pub fn place(&self, indexed: bool, name: &[u8]) -> Option<usize>
        ensures some { IfSome result (λ i. IsFirst (test indexed name.now) self.now.funs.now i) }
        ensures within { IfSome result (λ i. i < length self.now.funs.now) }
        ensures none { IfNone result (list_any (test indexed name.now) (map fun_tree self.now.funs.now) ≡ false) }
    {
        let at = self.names.get_index_of(&name)?;
        if at < self.funs.len() && self.funs[at].indexed == indexed {
            Some(at)
        } else {
            None
        }
    }

    /// The functions before one of these.
    pub fn before(&self, at: usize) -> Functions<'a, 'n>
        requires { at < length self.now.funs.now }
        ensures { result.funs.now ≡ take at self.now.funs.now }
    {
        Functions {
            funs: &self.funs[..at],
            names: self.names,
        }
    }
}
