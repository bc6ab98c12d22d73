//! Defines the verdict of a program on a row: the sign, what decided it, and how many wide operations and calls that took.
use ln_base::Sign;

/// What decided: the filter, the block at this place of the row's list, from 0, or nothing, where all blocks are 0.
#[derive(Clone, Copy)]
pub enum By {
    Filter,
    Stage(u32),
    Nothing,
}

/// The sign of a row and what decided it. `wide` counts the sums, differences, products and negations done at 128 bits, `calls`
/// the filter and the blocks that were entered.
#[derive(Clone, Copy)]
pub struct Verdict {
    pub sign: Sign,
    pub by: By,
    pub wide: u32,
    pub calls: u32,
}
