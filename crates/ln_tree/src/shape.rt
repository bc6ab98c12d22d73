//! The variables of a predicate.
ghost use Rattle.std.specs.Prelude.{◌≡◌, true};
ghost use Rattle.ln_tree.specs.Variables.{is_laid_out};

use crate::name::Name;
use ln_base::{NoMemory, Seq};
use std::alloc::Global;

/// A variable of a predicate: the place of its argument among all arguments, that of its site among the site
/// arguments (none for a param), that of its coordinate in the site (0 for a param), and its range, ends included.
#[derive(Clone, Copy)]
pub struct VarInfo {
    pub arg: u8,
    pub site: Option<u8>,
    pub coord: u8,
    pub lo: i64,
    pub hi: i64,
}

/// The name of a predicate, the number of its sites, and its variables by number: in order of the arguments, for a site
/// its coordinates in declared order, for a param the param itself.
#[derive(Drop)]
pub struct Shape {
    pub name: Name,
    pub sites: u8,
    pub vars: Seq<VarInfo>,
    ghost kept: { is_laid_out sites vars ≡ true },
}

impl Shape {
    ghost use Rattle.std.specs.Prelude.{◌≡◌, IfOk};

    /// An equal shape.
    pub fn copy(&self, alloc: Global) -> Result<Shape, NoMemory>
        ensures { IfOk result (λ s. s ≡ self.now) }
    {
        let vars = self.vars.as_slice().to_vec(alloc)?;
        Ok(Shape {
            name: self.name,
            sites: self.sites,
            vars: Seq::from_vec(vars),
        })
    }
}
