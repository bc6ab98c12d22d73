//! Trees whose nodes carry the two ends and the width of their values.
ghost use Rattle.std.specs.Prelude.{◌≡◌};
ghost use Rattle.ln_bound.specs.Typed.{operation};
ghost use Rattle.ln_bound.specs.View.{typed};
ghost use Rattle.ln_bound.specs.Widths.{limit, least, wider};

use ln_interval::Pair;
use ln_interval::pair::MOST;

/// How wide a value is: 64 or 128 bits with a sign.
#[derive(Clone, Copy, Debug, PartialEq, Eq, Hash)]
pub enum Width {
    W64,
    W128,
}

impl Width {
    /// The largest absolute value of the width: `2^63 - 1` or `2^127 - 1`.
    pub fn limit(self) -> u128
        ensures { result ≡ limit self }
    {
        match self {
            Width::W64 => 9223372036854775807,
            Width::W128 => MOST,
        }
    }

    /// The least width that fits all values up to a largest absolute value, which is at most `2^127 - 1`.
    pub fn least(bound: u128) -> Width
        ensures { result ≡ least bound }
    {
        if bound <= 9223372036854775807 {
            Width::W64
        } else {
            Width::W128
        }
    }

    /// The wider of two widths.
    pub fn wider(self, other: Width) -> Width
        ensures { result ≡ wider self other }
    {
        match self {
            Width::W64 => other,
            Width::W128 => Width::W128,
        }
    }
}

/// The operations on two operands: sum, difference, product.
#[derive(Clone, Copy, PartialEq, Eq, Hash)]
pub enum Two {
    Plus,
    Minus,
    Times,
}

/// A tree over the variables of a shape. Each node has a pair of ends, between which its value is, and the width in which
/// it is computed. It is plain data: whether the pairs are true is said by `Sound`.
#[cycle(fitted)]
#[derive(Drop)]
pub struct Fitted {
    pub op: FitOp,
    pub pair: Pair,
    pub width: Width,
}

/// What a node is: a number, the variable of this number, the let of this number, or an operation.
#[cycle(fitted)]
#[derive(Drop)]
pub enum FitOp {
    Num(i128),
    Input(u8),
    Let(u8),
    Neg(Box<Fitted>),
    Add(Box<Fitted>, Box<Fitted>),
    Sub(Box<Fitted>, Box<Fitted>),
    Mul(Box<Fitted>, Box<Fitted>),
    Pow(Box<Fitted>, u8),
}

impl Fitted {
    /// Which operation on two the tree is, where it is one; else a sum.
    pub fn operation(&self) -> Two
        ensures { result ≡ operation (typed self.now) }
    {
        match &self.op {
            FitOp::Sub(_, _) => Two::Minus,
            FitOp::Mul(_, _) => Two::Times,
            _ => Two::Plus,
        }
    }
}
