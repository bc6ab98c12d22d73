//! Expressions whose names are resolved.
use ln_base::Span;

/// An input of a predicate: the place of its argument among all arguments, and the place of its coordinate in the
/// argument's site type, from 0; for a param the coordinate is 0.
#[derive(Clone, Copy)]
pub struct Var {
    pub arg: u8,
    pub coord: u8,
}

/// An expression. `at` is where the node's own token is.
#[cycle(tree)]
#[derive(Drop)]
pub struct Expr {
    pub at: Span,
    pub node: Node,
}

/// What an expression is: a literal, an input, the let of this number, or an operation on expressions.
#[cycle(tree)]
#[derive(Drop)]
pub enum Node {
    Num(i128),
    Input(Var),
    Name(u8),
    Neg(Box<Expr>),
    Add(Box<Expr>, Box<Expr>),
    Sub(Box<Expr>, Box<Expr>),
    Mul(Box<Expr>, Box<Expr>),
    Pow(Box<Expr>, u8),
}
