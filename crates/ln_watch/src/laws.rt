//! Lines of panels that were worked out by hand, as the definitions have them.
ghost use Rattle.ln_watch.specs.Worked.{FiveRowsAre, ThreeRowsAre};

/// The lines of three watchers over five rows that a stage after stage 0 decides, and of two that leave round one that stays.
pub fn lines_are_as_worked_out()
    ensures five { FiveRowsAre }
    ensures three { ThreeRowsAre }
{}
