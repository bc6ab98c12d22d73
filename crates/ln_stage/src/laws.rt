//! Laws of coefficients, of stages and of the cut.
ghost use Rattle.ln_algebra.specs.Law.{CoefficientsVanishAboveDegree, DerivativesAreCoefficients, DerivativesOnRows};
ghost use Rattle.ln_algebra.specs.Law.{ProductRule, ProductRuleOfValues, ProductsAreSumsOverWays};
ghost use Rattle.ln_algebra.specs.StageLaw.{FirstIsStage, FirstNonzeroStageIsFirst, LastIsConstant, NonzeroHasFirst};
ghost use Rattle.ln_algebra.specs.StageLaw.{SignAlongTheStages, UncoveredIsZero, WithoutParamsThereIsFirst};
ghost use Rattle.ln_algebra.specs.StageLaw.{ZeroStagesHaveNoFirst};
ghost use Rattle.ln_stage.specs.Sighted.{FirstSeenAreSighted};
ghost use Rattle.ln_stage.specs.StageList.{ListIsUnique, ListsAreThoseOfTrees};

/// The stage lists of a polynomial are those of each expression whose normal polynomial it is.
///
/// On it rests that the laws of stages, which speak of expressions, hold for the lists that `stages` returns.
pub fn lists_are_those_of_trees()
    ensures { ListsAreThoseOfTrees }
{}

/// An order of the sites has at most one stage list.
///
/// On it rests that the stage count, the stage weight and the numbers of blocks are those of the polynomial alone.
pub fn list_is_unique()
    ensures { ListIsUnique }
{}

/// The vectors that are first seen are the members of the lists, each once, in the order in which one comes upon them.
///
/// On it rests that the blocks of a program are the distinct stages, numbered by first sight.
pub fn first_seen_are_sighted()
    ensures { FirstSeenAreSighted }
{}

/// The scaled derivative of a normal polynomial by a vector has at every point the perturbed coefficient of the vector, and on
/// a row that of the row; no vector above the syntactic degree has one that isn't 0.
///
/// On it rests that the value of a block, which computes one derivative, is the coefficient at its stage.
pub fn derivatives_are_coefficients()
    ensures points { DerivativesAreCoefficients }
    ensures rows { DerivativesOnRows }
    ensures degree { CoefficientsVanishAboveDegree }
{
    ln_algebra::derivatives_are_coefficients();
    ln_algebra::derivatives_on_rows();
    ln_algebra::coefficients_vanish_above_degree();
}

/// The product rule of scaled derivatives, and the coefficients of a product of any number of factors.
///
/// On it rests the sign of a product of predicates.
pub fn product_rule()
    ensures coefficients { ProductRule }
    ensures values { ProductRuleOfValues }
    ensures ways { ProductsAreSumsOverWays }
{
    ln_algebra::product_rule();
    ln_algebra::products_are_sums_over_ways();
}

/// The stages of an order are all that has to be looked at, on every row: a vector that no monomial covers has the
/// coefficient 0, the coefficient at the cut is a constant that isn't 0, and the sign along the list is the perturbed
/// sign.
///
/// On it rest the perturbed sign of a row, the check of a listing, products, the order by total degree and traces.
pub fn cut_loses_nothing()
    ensures uncovered { UncoveredIsZero }
    ensures last { LastIsConstant }
    ensures first { FirstIsStage }
    ensures found { FirstNonzeroStageIsFirst }
    ensures nothing { ZeroStagesHaveNoFirst }
    ensures sign { SignAlongTheStages }
{
    ln_algebra::cut_loses_nothing();
}

/// There is a first vector where any coefficient isn't 0, and so on every row of a predicate without params.
pub fn there_is_a_first()
    ensures nonzero { NonzeroHasFirst }
    ensures without_params { WithoutParamsThereIsFirst }
{
    ln_algebra::there_is_a_first();
}
