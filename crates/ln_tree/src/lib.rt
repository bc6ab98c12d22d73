//! The tables that sources are read into: site types, params, predicates and their expressions.
//!
//! The types keep the limits and rules of the source language that speak of them alone, so that a call on a predicate needs no table: `Pred`
//! keeps the invariants that its inputs are variables of its own arguments and that a let's name in it is an earlier let, and a limit on its
//! nodes; `Shape` keeps the rule that numbers its variables.
#![tactic(auto)]

pub mod columns;
pub mod expr;
pub mod exps;
pub mod items;
pub mod laws;
pub mod layout;
pub mod name;
pub mod pred;
pub mod shape;
pub mod table;

pub use columns::arg_width;
pub use expr::{Expr, Node, Var};
pub use exps::{Exps, exponent_of};
pub use items::{Arg, Coord, Param, Site};
pub use layout::is_shape;
pub use name::Name;
pub use pred::Pred;
pub use shape::{Shape, VarInfo};
pub use table::Table;
