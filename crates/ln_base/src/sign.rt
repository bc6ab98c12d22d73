//! Defines the sign of a number: minus, zero or plus.

/// The sign of a number.
#[derive(Clone, Copy, PartialEq, Eq)]
pub enum Sign {
    Minus,
    Zero,
    Plus,
}
