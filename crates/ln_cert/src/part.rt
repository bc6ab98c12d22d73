//! The content of the lines of a listing.
use ln_base::Seq;
use ln_bound::Width;
use ln_code::{Op, Triple};

/// The content of a line of a listing after the first one.
#[derive(Drop)]
pub enum Part {
    /// `predicate NAME`.
    Predicate(Seq<u8>),
    /// `nofilter`.
    NoFilter,
    /// `filter`.
    Filter,
    /// An operation of a filter, at 64 bits, with its triple; zeros for a `set`.
    FilterOp(Op, Triple),
    /// `decide`, the end of a filter.
    Decide,
    /// `block N` with exponents, as variable and exponent.
    Block(u32, Seq<(u8, u8)>),
    /// An operation of a block of version 1, with its bound; 0 for a `set`.
    BlockOp(Op, u128),
    /// An operation of a block of version 2, with its low and its high end; 0 and 0 for a `set`.
    RangeOp(Op, i128, i128),
    /// `end`, the end of a block.
    End,
    /// `order`: the places of the sites, and the numbers of the blocks of the order's list.
    Order(Seq<u8>, Seq<u32>),
    /// `done`, the end of a predicate.
    Done,
}

/// The content of a line, and its number: lines count from 1, and the first one names the version.
#[derive(Drop)]
pub struct Entry {
    pub line: u32,
    pub part: Part,
}

/// An operation without its number.
#[derive(Clone, Copy)]
pub enum Verb {
    Push,
    Input,
    Get,
    Set,
    Add(Width),
    Sub(Width),
    Mul(Width),
    Neg(Width),
    Cut,
}

/// The meaning of the first word of a line, at its place.
#[derive(Clone, Copy)]
pub enum Kind {
    Predicate,
    NoFilter,
    Filter,
    FilterOp(Verb),
    Decide,
    Block,
    BlockOp(Verb),
    RangeOp(Verb),
    End,
    Order,
    Done,
}

/// The end of the lines so far: the end of a predicate or the first line, a predicate's name, operations of a filter, a filter's
/// end, operations of a block, a block's end, an order.
#[derive(Clone, Copy)]
pub enum State {
    Top,
    Opened,
    InFilter,
    Planned,
    InBlock,
    Blocks,
    Orders,
}
