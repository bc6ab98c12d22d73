//! Laws of stages and of the cut.

ghost use Rattle.ln_algebra.specs.Layers.{LayersListTheStages, OutOfReachIsEmpty};
ghost use Rattle.ln_algebra.specs.StageLaw.{FirstIsStage, FirstNonzeroStageIsFirst, LastIsConstant};
ghost use Rattle.ln_algebra.specs.StageLaw.{NonzeroHasFirst, SignAlongTheStages, UncoveredIsZero};
ghost use Rattle.ln_algebra.specs.StageLaw.{WalkListsTheStages, WithoutParamsThereIsFirst, ZeroStagesHaveNoFirst};

/// The stages of an order are all that has to be looked at, on every row.
///
/// On it rests that a row is decided by the blocks of its order's list alone,
/// in turn, and that the verdict "nothing" is right at the list's end.
pub fn cut_loses_nothing()
    ensures uncovered { UncoveredIsZero }
    ensures last { LastIsConstant }
    ensures first { FirstIsStage }
    ensures found { FirstNonzeroStageIsFirst }
    ensures nothing { ZeroStagesHaveNoFirst }
    ensures sign { SignAlongTheStages }
{}

/// There is a first vector where any coefficient isn't 0, and so on every row
/// of a predicate without params.
///
/// On it rests that such a predicate never has the sign 0.
pub fn there_is_a_first()
    ensures nonzero { NonzeroHasFirst }
    ensures without_params { WithoutParamsThereIsFirst }
{}

/// The depth-first walk over the exponents, with its cut, returns the stage list.
///
/// On it rest the lists of a compiled predicate, and the check of the lists of
/// a listing.
pub fn walk_lists_the_stages()
    ensures { WalkListsTheStages }
{}

/// The walk over total degrees, layer by layer, with its cut, returns the stage list by total degree first; and where no monomial
/// reaches a degree it lists nothing, so a branch without stages may be skipped.
///
/// On it rest the lists of a program by total degree.
pub fn layers_list_the_stages()
    ensures stages { LayersListTheStages }
    ensures reach { OutOfReachIsEmpty }
{}
