//! Laws of the text of traces.
ghost use Rattle.ln_trace.specs.FormLaw.{ExplainedIsSmall, ExplainedIsTrace, FaultsAreNoTraces, OneFormFault, OneTrace, RecordsAreTraces};

/// No bytes are two traces.
///
/// By it a reader returns the one trace of the bytes, and what was written is read back.
#[tactic(auto, using(crate::proofs::Reading::Whole::one_text))]
pub fn one_trace()
    ensures { OneTrace }
{}

/// Bytes that have a form fault are no trace, and they have one form fault at most.
///
/// By it the line of a fault is decided by the bytes alone.
pub fn one_form_fault()
    ensures none { FaultsAreNoTraces }
    ensures one { OneFormFault }
{}

/// The first line and whole records after it are the text of a trace, and so is what is explained.
pub fn records_are_traces()
    ensures records { RecordsAreTraces }
    ensures explained { ExplainedIsTrace }
{}

/// The values in what is explained of a predicate that isn't too large are within 2^127 - 1.
///
/// By it the trace of an accepted predicate has the text that the judge reads.
pub fn explained_values_are_small()
    ensures { ExplainedIsSmall }
{}
