//! States what is promised of the emitted functions.
ghost use Rattle.ln_cemit.specs.Checked.{EmittedMeans};
ghost use Rattle.ln_cemit.specs.Law.{BlocksSay, FiltersSay};
ghost use Rattle.ln_cemit.specs.Conditions.{FunsKeep, BlocksKeep, FiltersKeep};
ghost use Rattle.ln_cemit.specs.Names.{NamesServe};
ghost use Rattle.ln_cemit.specs.Emitted.{BegunIsEmitted, FileIsEmitted};

/// Where the machine as C has it has a result, the emitted body returns its sign, and no line fails.
pub fn emitted_means()
    ensures { EmittedMeans }
{}

/// On a row in range the function of a block that follows the rules returns the sign of the block's value; that of a filter 0
/// where the filter doesn't decide, else the sign, with no operation at 128 bits.
pub fn functions_say()
    ensures blocks { BlocksSay }
    ensures filters { FiltersSay }
{}

/// The functions of blocks keep the conditions of the subset, and those of filters where there is a row in range.
pub fn functions_keep()
    ensures all { FunsKeep }
    ensures blocks { BlocksKeep }
    ensures filters { FiltersKeep }
{}

/// The letter n and a number serve as names of declarations, where the functions' names begin with l.
pub fn names_serve()
    ensures { NamesServe }
{}

/// The text of the file of programs is of the subset, and its calls return the signs of the machine's verdicts.
pub fn file_is_emitted()
    ensures file { FileIsEmitted }
    ensures begun { BegunIsEmitted }
{}
