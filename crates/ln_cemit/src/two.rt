//! The C function with two parameters, by prefixes of orders.

ghost use Rattle.ln_cemit.specs.Chosen.{CallsAreCounted, FindsTheOrder, OrientCalls};
ghost use Rattle.ln_cemit.specs.File.{FileMeans};

/// The function returns what the blocks of the row's order return, one segment after the other.
pub fn finds_the_order()
    ensures { FindsTheOrder }
{}

/// The result is the first sign that isn't 0, after as many calls as blocks were entered.
pub fn calls_are_counted()
    ensures { CallsAreCounted }
{}

/// Each prefix has its calls once.
pub fn orient_calls()
    ensures { OrientCalls }
{}

/// A call in the whole file returns the sign along the row's order, with its count of calls.
pub fn file_means()
    ensures { FileMeans }
{}
