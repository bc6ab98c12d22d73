//! The machine's verdict, step by step.
ghost use Rattle.ln_due.specs.Steps.{VerdictsAreTold};

/// The verdict of a part on a row is the filter's where what it leaves is above its error. Else, along the list of the row's order,
/// the blocks before place k have the value 0 and block k hasn't: its sign is the verdict's, k is the place, each block up to it is
/// called once, and the wide operations are those of these blocks. Where all have the value 0 the sign is 0.
///
/// On it rests that a reader can take the verdict for what Simulation of Simplicity does, without the machine's own recursion.
pub fn verdicts_are_told()
    ensures { VerdictsAreTold }
{}
