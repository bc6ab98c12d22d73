//! The place of a value of the stack or a local, what is declared, and what has to be known of a line.
use ln_bound::Width;
use ln_csyn::COp;

/// A declaration by its number, and its width.
#[derive(Clone, Copy)]
pub struct Slot {
    pub at: usize,
    pub width: Width,
}

/// The right side of a declaration: a number, a value of the row, another declaration, its opposite, an operation on two of them, or the
/// quotient of one by a power of 2.
#[derive(Clone, Copy)]
pub enum Side {
    Number(i128),
    Value(u64),
    Same(Slot),
    Opposite(Slot),
    Both(COp, Slot, Slot),
    Quotient(u8, Slot),
}

/// Of a line: by which power of 2 the number that it pushes is divided, and the width of what it pushes from outside.
#[derive(Clone, Copy)]
pub struct Way {
    pub shift: u8,
    pub width: Width,
}
