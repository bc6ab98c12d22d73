//! Laws of both orders of infinitesimals: by the smallest one that differs, and
//! by total degree first.
//!
//! A clause can't range over a relation, so the laws range over the two orders
//! by name; the lemmas that prove them hold for any relation that is admissible.

ghost use Rattle.ln_algebra.specs.RankLaw.{BothAreAdmissible, FirstIsStageIn, FirstIsUniqueIn, FirstNonzeroStageIsFirstIn};
ghost use Rattle.ln_algebra.specs.RankLaw.{FirstOfProduct, FirstOfProductIsSum, NoFirstOfProduct, NonzeroHasFirstIn};
ghost use Rattle.ln_algebra.specs.RankLaw.{SignAlongTheStagesIn, SignIsUniqueIn, SignOfProduct, StageListIsUniqueIn};
ghost use Rattle.ln_algebra.specs.RankLaw.{SumsCancel, WithoutParamsThereIsFirstIn, ZeroProducts, ZeroStagesHaveNoFirstIn};

/// Both orders are total, have the vector of zeros first, and are kept by sums
/// and by differences: they are admissible (Yap 1990).
///
/// On it rests that each law of the perturbed sign holds in either.
pub fn both_are_admissible()
    ensures orders { BothAreAdmissible }
    ensures cancel { SumsCancel }
{}

/// In either order there is at most one first vector, one sign and one stage
/// list.
///
/// On it rests that the sign which is printed is the only right one, in either
/// order.
pub fn one_answer_in_either()
    ensures vector { FirstIsUniqueIn }
    ensures sign { SignIsUniqueIn }
    ensures list { StageListIsUniqueIn }
{}

/// In either order there is a first vector where any coefficient isn't 0, and
/// so on every row of a predicate without params.
pub fn a_first_in_either()
    ensures nonzero { NonzeroHasFirstIn }
    ensures without_params { WithoutParamsThereIsFirstIn }
{}

/// In either order the stages up to the cut are all that has to be looked at.
///
/// On it rests that a row is decided by the blocks of its order's list alone.
pub fn the_cut_in_either()
    ensures first { FirstIsStageIn }
    ensures found { FirstNonzeroStageIsFirstIn }
    ensures nothing { ZeroStagesHaveNoFirstIn }
    ensures sign { SignAlongTheStagesIn }
{}

/// In either order the first vector of a product is the sum of the factors'
/// first vectors, and its sign the product of their signs, which is 0 exactly
/// where one of them is.
///
/// On it rests the sign of a product of several predicates.
pub fn products_have_sums()
    ensures first { FirstOfProduct }
    ensures none { NoFirstOfProduct }
    ensures sum { FirstOfProductIsSum }
    ensures sign { SignOfProduct }
    ensures zero { ZeroProducts }
{}
