//! The state of the judge while it reads.
ghost use Rattle.std.specs.Prelude.{◌≡◌, ◌↔◌, ◌+◌, false, IfOk, IsTrue};
ghost use Rattle.ln_trace.specs.Here.{IsNextOf};

use crate::next::Last;
use crate::pointer::Spot;
use ln_base::{NoMemory, Sign};
use ln_code::Row;
use ln_order::Order;
use ln_rows::Rows;
use ln_tree::Pred;

/// The state: whether a row is open, how many records stood, the last row that was read and the order of its sites, where the
/// members of the list of that order begin that haven't stood, the vector that stood last, and the sign of its value.
#[derive(Drop)]
pub struct Progress {
    pub inside: bool,
    pub seen: u32,
    pub row: Row,
    pub order: Order,
    pub spot: Spot,
    pub last: Last,
    pub sign: Sign,
}

/// The next record: there is none, it is invalid, or it is a row.
#[derive(Clone, Copy, PartialEq, Eq)]
pub enum Next {
    Nothing,
    Fault,
    Read,
}

/// Returns the state before the first line.
pub fn fresh_progress() -> Progress
    ensures inside { result.inside ≡ false }
    ensures seen { result.seen ≡ 0 }
{
    Progress {
        inside: false,
        seen: 0,
        row: Row {
            index: [0; 5],
            values: [0; 168],
        },
        order: Order::of_arguments(0),
        spot: Spot { sites: 0, at: 0 },
        last: Last {
            exps: None,
            zero: true,
        },
        sign: Sign::Zero,
    }
}

/// Is no row open, and is it the number of the next record?
pub fn is_next(state: &Progress, n: u32) -> bool
    ensures { IsTrue result ↔ ((state.now.inside ≡ false) × (n ≡ state.now.seen + 1)) }
{
    if state.inside {
        return false;
    }
    if n == 0 {
        return false;
    }
    n - 1 == state.seen
}

/// Takes the next record, and reads the row that it says.
pub fn taken(p: &Pred, rows: &mut Rows<'_>, row: &mut Row) -> Result<Next, NoMemory>
    ensures { IfOk result (λ x. IsNextOf p.now.shape.sites p.now.shape.vars x rows.old rows.new row.new) }
{
    let next = rows.next_row(p, row)?;
    match next {
        None => Ok(Next::Nothing),
        Some(Ok(())) => Ok(Next::Read),
        Some(Err(_)) => Ok(Next::Fault),
    }
}

/// Is it this?
pub fn is(next: Next, x: Next) -> bool
    ensures { IsTrue result ↔ (next ≡ x) }
{
    next == x
}
