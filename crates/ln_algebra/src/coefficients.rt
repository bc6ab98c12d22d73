//! Laws of the coefficients of an expression at a perturbed point.

ghost use Rattle.ln_algebra.specs.Law.{CoefficientsVanishAboveDegree, ProductsAreSumsOverWays};

/// The coefficient of a product of any number of factors is a sum over all
/// ways to write the vector as a sum of one vector for each factor.
///
/// On it rests the sign of a product of several predicates.
pub fn products_are_sums_over_ways()
    ensures { ProductsAreSumsOverWays }
{}

/// Every coefficient above the syntactic degree is 0.
///
/// On it rests that the first vector may be looked for up to the degree alone,
/// and that a normal polynomial has finitely many monomials.
pub fn coefficients_vanish_above_degree()
    ensures { CoefficientsVanishAboveDegree }
{}
