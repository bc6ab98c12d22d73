//! Laws of traces: what a trace tells of one row, what an agreed trace says of all records, and the loop over the lines.
ghost use Rattle.ln_trace.specs.Signs.{AgreedTracesGiveSigns, ExplainedIsAgreed};
ghost use Rattle.ln_trace.specs.ToldLaw.{AllAreLeft, FirstLeftStands, FirstLeftTells, NoneLeftTells, OtherStands};
ghost use Rattle.ln_trace.specs.ToldLaw.{StageListsAreTold, ToldSignsArePerturbed};
ghost use Rattle.ln_trace.specs.WalkLaw.{EndsWell, GoesOn, Lacks, OneAnswer, Stops};

/// A row whose lines keep the rules has the perturbed sign; a stage list written up to its first coefficient that isn't 0 goes by them.
#[tactic(auto, using(crate::proofs::Telling::told_signed, crate::proofs::Telling::list_told))]
pub fn rows_are_told()
    ensures sound { ToldSignsArePerturbed }
    ensures complete { StageListsAreTold }
{}

/// The members that haven't stood are the end of the stage list, so its first one decides.
#[tactic(auto, using(crate::proofs::Telling::all_left, crate::proofs::Telling::first_stands))]
pub fn rest_decides()
    ensures begin { AllAreLeft }
    ensures first { FirstLeftTells }
    ensures none { NoneLeftTells }
    ensures stands { FirstLeftStands }
    ensures other { OtherStands }
{}

/// An agreed trace has the perturbed sign of each record that is a row.
pub fn agreed_traces_give_signs()
    ensures { AgreedTracesGiveSigns }
{}

/// A trace that explains records is agreed.
pub fn explained_is_agreed()
    ensures { ExplainedIsAgreed }
{}

/// The loop over the lines goes on, stops, ends well or lacks a record, exactly.
pub fn lines_are_walked()
    ensures on { GoesOn }
    ensures stops { Stops }
    ensures ends { EndsWell }
    ensures lacks { Lacks }
    ensures one { OneAnswer }
{}
