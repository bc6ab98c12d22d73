//! Defines for which rows the function of a predicate that is called from outside is right, which its name says.

/// The rows for which the function of a program that is called from outside is meant. `ln_NAME` is for every row in range; `la_NAME` and
/// `ls_NAME` are for rows in range whose indices rise, of a predicate whose sign each exchange of two sites turns, or keeps.
#[derive(Clone, Copy)]
pub enum Entry {
    EveryRow,
    Alternating,
    Symmetric,
}
