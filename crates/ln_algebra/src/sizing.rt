//! States how the size of an expression bounds the coefficients of its polynomial.

ghost use Rattle.ln_algebra.specs.Sizes.{CoefficientsAreWithinTheRunningSize, CoefficientsAreWithinTheSize};
ghost use Rattle.ln_algebra.specs.Sizes.{RunningSizesAreWithinSizes, SizesAreWithinWeights};

/// The absolute coefficients of the normal polynomial are together at most
/// the expression's running size, and so at most its size.
///
/// On it rests that the coefficients of every node fit their width, which doesn't follow from the range of a value.
pub fn coefficients_are_within_sizes()
    ensures running { CoefficientsAreWithinTheRunningSize }
    ensures size { CoefficientsAreWithinTheSize }
    ensures between { RunningSizesAreWithinSizes }
{}

/// The size is at most the weight, where each variable weighs at least 2.
///
/// On it rests that what is accepted by weight is accepted by size.
pub fn sizes_are_within_weights()
    ensures { SizesAreWithinWeights }
{}
