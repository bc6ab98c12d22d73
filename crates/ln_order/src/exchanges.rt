//! Laws of rows whose sites are exchanged: for an expression that neighbouring sites keep or turn, the sign of each row follows from that of
//! the row with its indices in rising order.
ghost use Rattle.ln_order.specs.Exchanged.{AlikeAreShifted, ExchangedRowSign, RisingIsInOrder, RowsSort, ShiftsAreAlike, SignAlongSteps};

/// The perturbed sign of a row with two sites exchanged, or exchanged to and fro, is turned as the polynomial is.
///
/// On it rests that a program of one order of the sites decides all rows.
pub fn exchanges_turn_row_signs()
    ensures two { ExchangedRowSign }
    ensures all { SignAlongSteps }
{}

/// Exchanges of neighbouring sites lead from each row in range to one whose indices rise, one exchange for each inversion.
///
/// On it rests that a row is decided by sorting its sites and counting inversions.
pub fn rows_sort()
    ensures sorted { RowsSort }
    ensures order { RisingIsInOrder }
{}

/// Two neighbouring sites are of one type exactly where their coordinates, with the same ranges, are as many variables apart as their first ones.
///
/// On it rests that one pass over the variables tests it.
pub fn neighbours_of_one_type()
    ensures shifted { ShiftsAreAlike }
    ensures only { AlikeAreShifted }
{}
