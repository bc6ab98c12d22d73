//! Defines the operations of blocks and filters, and the triple that an operation of a filter carries.
use ln_bound::Width;

/// An operation of a block or a filter. `Push`, `Input` and `Get` push a number, the value of a variable, a local; `Set` takes
/// the last value off the stack into a local; `Add`, `Sub`, `Mul` and `Neg` take their operands off and push the result, which
/// is computed in the width; `Cut(n)` divides by `2^n`, towards 0, and is used in filters alone.
#[derive(Clone, Copy, PartialEq, Eq)]
pub enum Op {
    Push(i128),
    Input(u8),
    Get(u8),
    Set(u8),
    Add(Width),
    Sub(Width),
    Mul(Width),
    Neg(Width),
    Cut(u8),
}

/// What is known of a truncated number h that stands for a value v: h is at most `h` in absolute value, and v is within
/// `e * 2^k` of `h * 2^k`.
#[derive(Clone, Copy, PartialEq, Eq)]
pub struct Triple {
    pub k: u8,
    pub h: u64,
    pub e: u64,
}
