//! Laws of rows: their order, their stages and their sign.
ghost use Rattle.ln_order.specs.Rows.{OrderExists, OrderIsUnique, OrdersDiffer, RowFirstIsUnique};
ghost use Rattle.ln_order.specs.Rows.{RowSignExists, RowSignIsUnique, RowsDiffer, StagesAreThoseOfRows};

/// Indices that differ have exactly one order.
///
/// On it rests that each row in range has a list of blocks, and one alone.
pub fn rows_have_one_order()
    ensures exists { OrderExists }
    ensures unique { OrderIsUnique }
{}

/// The sites of an order, and those of a row in range, differ in their indices.
///
/// On it rests that first vectors, signs and stage lists are unique.
pub fn sites_differ()
    ensures orders { OrdersDiffer }
    ensures rows { RowsDiffer }
{}

/// The stage list of the order of a row's sites is that of the row's own indices.
///
/// On it rests that a row is decided by the stage list of its order.
pub fn stages_are_those_of_rows()
    ensures { StagesAreThoseOfRows }
{}

/// A row in range has at most one first vector and one perturbed sign, in either order of infinitesimals.
///
/// On it rests that the sign which is printed for a row is the only right one.
pub fn row_sign_is_unique()
    ensures vector { RowFirstIsUnique }
    ensures sign { RowSignIsUnique }
{}

/// A row in range has a perturbed sign, in either order of infinitesimals.
///
/// On it rests that each row in range has a right sign: with the law before it, exactly one.
pub fn row_sign_exists()
    ensures { RowSignExists }
{}
