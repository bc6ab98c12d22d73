//! Defines a predicate of a table, with its arguments, its lets and the expression of its sign.
ghost use Rattle.std.specs.Prelude.{◌≡◌, true, length};
ghost use Rattle.ln_tree.specs.Kept.{is_pred};

use crate::expr::{Expr, Var};
use crate::items::Arg;
use crate::layout::number_in;
use crate::name::Name;
use crate::shape::Shape;
use ln_base::{Seq, Span};

/// A predicate. `at` is where its name is; `shape` has its variables by number; `root` is the expression of its sign.
#[derive(Drop)]
pub struct Pred {
    pub name: Name,
    pub at: Span,
    pub args: Seq<Arg>,
    pub shape: Shape,
    pub lets: Seq<Expr>,
    pub let_names: Seq<Name>,
    pub root: Expr,
    ghost kept: { is_pred args shape.vars lets (length let_names) root ≡ true },
}

impl Pred {
    ghost use Rattle.std.specs.Prelude.{◌≡◌, ◌<◌, length};
    ghost use Rattle.ln_tree.specs.Variables.{number_or_end};

    /// The number of a variable of the predicate, from 0 in order of its arguments.
    pub fn number(&self, v: Var) -> u8
        requires { number_or_end self.now.shape.vars v.arg v.coord < length self.now.shape.vars }
        ensures { result ≡ number_or_end self.now.shape.vars v.arg v.coord }
    {
        number_in(self.shape.vars.as_slice(), v) as u8
    }
}
