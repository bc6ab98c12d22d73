//! From typed trees to blocks.
//!
//! `lower` writes the operations of a tree and its lets. The block has the tree's value on every row in range; what its
//! operations push are polynomials of nodes of the tree and its lets, each computed in its node's width.
#![tactic(auto)]

pub mod blocks;
pub(crate) mod distinct;
pub(crate) mod keys;
pub(crate) mod marks;

pub use blocks::lower;
