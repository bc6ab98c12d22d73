//! All ways to write a vector as a sum.

ghost use Rattle.ln_algebra.specs.VectorLaw.{CoveredByIsAll, SplitsAreAllSums, WaysAreAllSums};

/// `splits` has each pair of vectors with a given sum exactly once.
///
/// On it rests the definition of a product's coefficients, which sums over
/// `splits`: no pair is left out, and none counts twice.
pub fn splits_are_all_sums()
    ensures { SplitsAreAllSums }
{}

/// `ways` has each list of n vectors with a given sum exactly once.
///
/// On it rests the law of products of any number of factors, and so the sign
/// of a product of several predicates.
pub fn ways_are_all_sums()
    ensures { WaysAreAllSums }
{}

/// `covered_by` has each vector that a given one covers exactly once.
///
/// On it rests the law of weights, which sums over `covered_by`.
pub fn covered_by_is_all()
    ensures { CoveredByIsAll }
{}
