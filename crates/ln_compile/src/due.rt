//! The laws on the verdict of a predicate's program: it is the required one.
ghost use Rattle.ln_compile.specs.Filtered.{OneIsDueIn, PartsAnswerDue, ProgramsAnswerDue};

/// The verdict of a predicate's program on a row in range is the one that is required by what the predicate's filter does on it, and
/// there is no other. So is that of any part that carries the predicate's root in either order of infinitesimals, in that order.
///
/// On it rests whether the decider is the filter or a stage.
pub fn programs_answer_due()
    ensures due { ProgramsAnswerDue }
    ensures parts { PartsAnswerDue }
    ensures one { OneIsDueIn }
{}
