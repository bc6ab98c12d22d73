//! The law of the verdicts of a program by total degree.
ghost use Rattle.ln_graded.specs.Graded.{GradedIsDue, GradedListsAreOne};

/// The verdict of a program by total degree on a row in range is the one that the row requires in that order of infinitesimals, by what
/// its filter does on the row.
///
/// The lines that `graded` prints depend on it.
pub fn graded_is_due()
    ensures { GradedIsDue }
{}

/// A polynomial has one set of stage lists by total degree.
///
/// By it the two limits are those of the polynomial alone, however its lists are found.
pub fn graded_lists_are_one()
    ensures { GradedListsAreOne }
{}
