//! Tables: the site types, params and predicates of a source.
ghost use Rattle.std.specs.Prelude.{◌≡◌, true};
ghost use Rattle.ln_tree.specs.Table.{is_table, table_of};
ghost use Rattle.ln_tree.specs.Whole.{is_whole};

use crate::items::{Param, Site};
use crate::pred::Pred;
use ln_base::Seq;

/// The table of a source: its site types, params and predicates, each kind in order of the text. Its names differ as the
/// language wants them to, its predicates' variables are those of their arguments, and its canonical text is within the
/// limits on tokens and parentheses.
#[derive(Drop)]
pub struct Table {
    pub sites: Seq<Site>,
    pub params: Seq<Param>,
    pub preds: Seq<Pred>,
    ghost kept: { is_table sites params preds ≡ true },
    ghost whole: { is_whole (table_of sites params preds) ≡ true },
}
