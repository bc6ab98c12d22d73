//! Rows that records say.
ghost use Rattle.std.specs.Prelude.{IfOk, IfSome};
ghost use Rattle.ln_tree.specs.Row.{InRange};
ghost use Rattle.ln_code.specs.RowOf.{row_of};

use csv::ByteRecord;
use ln_base::NoMemory;
use ln_code::Row;
use ln_rows::{Rows, row};
use ln_tree::Pred;
use std::alloc::Global;

/// The row of a record, the first of a text; none where there is no record or it is no row.
pub fn row_of(alloc: Global, p: &Pred, record: &str) -> Result<Option<Row>, NoMemory>
    ensures { IfOk result (λ o. IfSome o (λ r. InRange p.now.shape.sites p.now.shape.vars (row_of p.now.shape.sites p.now.shape.vars r))) }
{
    let mut rows = Rows::new(alloc, record.as_bytes())?;
    let mut fields = ByteRecord::new(alloc);
    if !rows.next(&mut fields)? {
        return Ok(None);
    }
    match row(p, &fields) {
        Ok(r) => Ok(Some(r)),
        Err(_) => Ok(None),
    }
}
