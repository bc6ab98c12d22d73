//! Worked values of the definitions.

ghost use Rattle.ln_algebra.specs.Worked.{CoefficientOfPy, CollinearCoefficients, DerivativeOfCube, DerivativeOfOrientation};
ghost use Rattle.ln_algebra.specs.Worked.{IndicesDecide, LastCoordinateIsLargest, SignPastAParam, SignsOfOrientation};
ghost use Rattle.ln_algebra.specs.Worked.{SignsOfSquares, SignsWithAParam, SixTermsAreNormal, SmallestInfinitesimalDecides};
ghost use Rattle.ln_algebra.specs.Worked.{StagesOfOrientation, StagesOfSquares, StagesPastAParam, WeightOfOrientation};

/// Coefficients and normal polynomial of the orientation of three points.
pub fn worked_coefficients()
    ensures of_py { CoefficientOfPy }
    ensures collinear { CollinearCoefficients }
    ensures normal { SixTermsAreNormal }
    ensures weight { WeightOfOrientation }
{}

/// Scaled derivatives: without the scaling, the derivative of the cube is another one.
pub fn worked_derivatives()
    ensures cube { DerivativeOfCube }
    ensures orientation { DerivativeOfOrientation }
{}

/// The order: one with the first coordinate as the largest, one by the order of the arguments, and one that compares from the largest
/// infinitesimal are each distinguished from it.
pub fn worked_orders()
    ensures last_coordinate { LastCoordinateIsLargest }
    ensures indices { IndicesDecide }
    ensures smallest { SmallestInfinitesimalDecides }
{}

/// Stage lists: a cut at the first derivative without a variable of a site
/// would end one of them too early.
pub fn worked_stages()
    ensures squares { StagesOfSquares }
    ensures orientation { StagesOfOrientation }
    ensures past_a_param { StagesPastAParam }
{}

/// Perturbed signs of rows whose plain value is 0.
pub fn worked_signs()
    ensures squares { SignsOfSquares }
    ensures orientation { SignsOfOrientation }
    ensures past_a_param { SignPastAParam }
    ensures with_a_param { SignsWithAParam }
{}
