//! States what a filter promises: its number is within its error of the plain value, and where it decides it has the value's sign.
ghost use Rattle.ln_filter.specs.Law.{NeverWrong, NumbersStand};

/// On every row in range the truncated number of a predicate stands for its plain value; where the filter decides, the plain
/// value isn't 0 and has the truncated number's sign.
pub fn filter_is_never_wrong()
    ensures stand { NumbersStand }
    ensures decided { NeverWrong }
{}
