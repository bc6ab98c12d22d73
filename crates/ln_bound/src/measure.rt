//! The measure of a node.
ghost use Rattle.std.specs.Prelude.{◌≡◌, ◌≤ℤ◌};

use ln_interval::Pair;
use ln_tree::VarInfo;

/// What is known of a node before any row is seen: the range of its values, and its size, which bounds the coefficients of
/// its normal polynomial.
#[derive(Clone, Copy)]
pub struct Measure {
    pub pair: Pair,
    pub size: u128,
}

/// The declared range of a variable.
pub(crate) fn declared(i: &VarInfo) -> Pair
    requires { i.now.lo ≤ℤ i.now.hi }
    ensures low { result.low ≡ i.now.lo }
    ensures high { result.high ≡ i.now.hi }
{
    let low = i128::from(i.lo);
    let high = i128::from(i.hi);
    Pair { low, high }
}
