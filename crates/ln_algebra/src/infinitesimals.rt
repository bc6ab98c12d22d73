//! Laws of the order of infinitesimals.

ghost use Rattle.ln_algebra.specs.OrderLaw.{EarlierIsIrreflexive, EarlierIsKeptBySums, EarlierIsTotal, EarlierIsTransitive};
ghost use Rattle.ln_algebra.specs.OrderLaw.{FirstIsUnique, InOrderIsOnce, PerturbedSignIsUnique, StageListIsUnique};
ghost use Rattle.ln_algebra.specs.OrderLaw.{ZeroIsEarliest};

/// `Earlier` is a total order on the vectors over the variables of sites, has
/// the vector of zeros first, and is kept where one vector is added to both
/// sides: it is admissible.
///
/// On it rest the order of stage lists, and, by `sums`, that the first vector
/// of a product is the sum of the factors' first vectors.
pub fn earlier_is_an_order()
    ensures irreflexive { EarlierIsIrreflexive }
    ensures transitive { EarlierIsTransitive }
    ensures total { EarlierIsTotal }
    ensures sums { EarlierIsKeptBySums }
    ensures zero { ZeroIsEarliest }
{}

/// A row has at most one first vector, and at most one perturbed sign.
///
/// On it rests that the sign which is printed is the only right one.
pub fn first_is_unique()
    ensures vector { FirstIsUnique }
    ensures sign { PerturbedSignIsUnique }
{}

/// An order of sites has at most one stage list, and each stage is in it once.
///
/// On it rests that counts of stages, and the place at which a row is decided,
/// are those of any list that has the stages in order.
pub fn stage_list_is_unique()
    ensures unique { StageListIsUnique }
    ensures once { InOrderIsOnce }
{}
