//! The laws of `due` by the smallest infinitesimal that differs, by which `run` decides rows.
ghost use Rattle.ln_due.specs.Run.{DueIsPerturbed, RunIsDue, RunIsNeverZero, RunIsPerturbed, RunIsUnique};
ghost use Rattle.ln_due.specs.Plain.{RunIsPlain};

/// The machine's verdict on a row in range is the required one, and there is no other; its sign is the perturbed sign,
/// which isn't 0 without params. Where the value on the row isn't 0, it decides.
///
/// On it rests the headline: what is printed for a row is the sign of the first coefficient that isn't 0 of the predicate at perturbed
/// inputs.
pub fn run_is_due()
    ensures due { RunIsDue }
    ensures perturbed { RunIsPerturbed }
    ensures sign { DueIsPerturbed }
    ensures never_zero { RunIsNeverZero }
    ensures plain { RunIsPlain }
    ensures unique { RunIsUnique }
{}
