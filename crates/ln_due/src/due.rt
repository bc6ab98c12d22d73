//! What the verdict of a part is, in either order of infinitesimals: the perturbed sign.
ghost use Rattle.ln_due.specs.DueLaw.{BlocksRun, CutLosesNothing, DueIsUnique, PlainBlocksCarryTheWhole};
ghost use Rattle.ln_due.specs.DueLaw.{SignsArePerturbed, StagesAreCoefficients, VerdictsAreDue, WithoutParamsNeverZero};
ghost use Rattle.ln_due.specs.Plain.{PlainValuesDecide, ZerosHaveTheValue};

/// In a part that carries an expression each block has, on every row in range, the perturbed coefficient at its stage; and the
/// stages of a row's order lose nothing. A block without exponents has the polynomial of the whole.
///
/// On it rests that the blocks of a row's list, in turn, find the first coefficient that isn't 0.
pub fn stages_are_coefficients()
    ensures values { StagesAreCoefficients }
    ensures whole { PlainBlocksCarryTheWhole }
    ensures cut { CutLosesNothing }
{}

/// Every block of a part runs on every row in range with all its values in their pairs and widths.
///
/// On it rests that no operation leaves its certified width, in blocks that a row's order doesn't name too.
pub fn blocks_run()
    ensures { BlocksRun }
{}

/// The machine's verdict on a row in range is the required one: the sign of the first coefficient that isn't 0, in the
/// order of infinitesimals, its place, and the calls up to it; or the same sign from the filter, where that decides.
///
/// On it rests the sign that is printed for a row, the place beside it, and the number of calls.
pub fn verdicts_are_due()
    ensures verdicts { VerdictsAreDue }
    ensures signs { SignsArePerturbed }
{}

/// An expression without params requires the sign 0 on no row in range.
///
/// On it rests that a degenerate row is decided all the same, as long as the predicate has no params.
pub fn without_params_never_zero()
    ensures { WithoutParamsNeverZero }
{}

/// Where the value of the expression on a row in range isn't 0, that value decides: the required verdict has its sign, and comes
/// from the filter or from the first stage. It is the coefficient at the vector of zeros.
///
/// On it rests that only degenerate rows are decided by an infinitesimal.
pub fn plain_values_decide()
    ensures zeros { ZerosHaveTheValue }
    ensures due { PlainValuesDecide }
{}

/// A row in range requires at most one sign, by one decider, with one number of calls.
///
/// On it rests that what is printed for a row is the only right output.
pub fn due_is_unique()
    ensures { DueIsUnique }
{}
