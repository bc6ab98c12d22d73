//! States how the weight of an expression bounds the values of every stage.

ghost use Rattle.ln_algebra.specs.WeightLaw.{DerivativesWeighTheWhole, EachDerivativeWeighsLess};
ghost use Rattle.ln_algebra.specs.WeightLaw.{NormalWeighsAtMostTheTree, ValuesAreWithinWeights};

/// Weighted sums bound values.
///
/// On it rests that the values of each stage on a row in range fit the widths
/// of a compiled predicate.
pub fn values_are_within_weights()
    ensures { ValuesAreWithinWeights }
{}

/// The weighted sums of all scaled derivatives add up to the weighted sum of
/// the polynomial where each weight is larger by 1.
///
/// On it rests that one test of a predicate's weight bounds the values of
/// every stage.
pub fn derivatives_weigh_the_whole()
    ensures sum { DerivativesWeighTheWhole }
    ensures each { EachDerivativeWeighsLess }
{}

/// The weighted sum of the normal polynomial is at most the expression's
/// weight.
///
/// On it rests that the test can be made on the source, before anything is
/// expanded.
pub fn normal_weighs_at_most_the_tree()
    ensures { NormalWeighsAtMostTheTree }
{}
