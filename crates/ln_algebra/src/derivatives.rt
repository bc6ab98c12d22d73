//! States the laws of scaled derivatives, whose values on a row are the perturbed coefficients.

ghost use Rattle.ln_algebra.specs.Law.{DerivativesAreCoefficients, DerivativesOnRows};
ghost use Rattle.ln_algebra.specs.Law.{DerivedCoefficients, ProductRule, ProductRuleOfValues};

/// The coefficients of a scaled derivative.
///
/// On it rests the check of a listing, which compares polynomials by their
/// coefficients.
pub fn derived_coefficients()
    ensures { DerivedCoefficients }
{}

/// The scaled derivative of a product is the sum, over all ways to write the
/// vector as a sum of two, of the products of the factors' derivatives.
///
/// It is why a scaled derivative agrees with the coefficients of a product,
/// case by case, and why a derivative without the scaling doesn't.
pub fn product_rule()
    ensures coefficients { ProductRule }
    ensures values { ProductRuleOfValues }
{}

/// The value on a row of the scaled derivative of the normal polynomial is the
/// perturbed coefficient.
///
/// On it rests every block of a compiled predicate, each of which computes one
/// derivative, and the check of a listing's blocks.
pub fn derivatives_are_coefficients()
    ensures { DerivativesAreCoefficients }
{}

/// The same, as it is used on a row: the value of a stage's derivative is the
/// perturbed coefficient at the stage.
///
/// On it rests that the blocks of a row's list compute the coefficients among
/// which the first that isn't 0 decides.
pub fn derivatives_on_rows()
    ensures { DerivativesOnRows }
{}
