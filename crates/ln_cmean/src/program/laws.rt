//! Laws of texts of calls: contracts of functions with nothing to do.
ghost use Rattle.ln_cmean.specs.Carrying.Laws.{AsManyLines, LinesAreMeanings, OneCall};

/// No line is two calls. So one line has one meaning.
pub fn one_call()
    ensures { OneCall }
{}

/// Line by line, what is written for a text of calls is their meanings.
pub fn lines_are_meanings()
    ensures lines { LinesAreMeanings }
    ensures number { AsManyLines }
{}
