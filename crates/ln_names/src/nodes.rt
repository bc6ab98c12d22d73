//! The nodes of expressions, each after its operands.
use ln_base::{Seq, Span};
use std::alloc::Global;

/// An operation whose right operand comes after its token.
#[derive(Clone, Copy)]
pub enum Operation {
    /// `-` before its operand.
    Negation,
    Sum,
    Difference,
    Product,
}

/// What a node is, with its names resolved and its literals read.
#[derive(Clone, Copy)]
pub enum What {
    /// A NUMBER.
    Number(i128),
    /// The let of this number.
    Let(usize),
    /// The argument at this place, and its coordinate; of a param argument coordinate 0.
    Input(usize, usize),
    /// An operation on the nodes before it.
    Apply(Operation),
    /// The node before it to the power of a number of at most 16.
    Power(u8),
}

/// A node, and its own token.
#[derive(Clone, Copy)]
pub struct Node {
    pub what: What,
    pub at: Span,
}

/// The nodes of an item's lets and of its sign expression; none of a site type or a param.
#[derive(Drop)]
pub struct Body {
    pub lets: Seq<Seq<Node>>,
    pub root: Seq<Node>,
}

impl Body {
    /// No nodes.
    pub fn none(alloc: Global) -> Body {
        Body {
            lets: Seq::new(alloc),
            root: Seq::new(alloc),
        }
    }
}

/// What waits while an expression is read: a parenthesis for the one that closes it, or an operation for its right operand.
#[derive(Clone, Copy)]
pub enum Waiting {
    Open,
    For(Operation, Span),
}
