//! Reads the number of a field, which has to be in the range of its column.
ghost use Rattle.std.specs.Prelude.{◌≡◌, ◌==◌, Some};
ghost use Rattle.ln_rows.specs.Number.{within, number_in, is_lowest};

use ln_base::Reading;
use ln_base::decimal::{integer, unsigned};

/// Why a field isn't a number of its column.
#[derive(Clone, Copy)]
pub enum NumberStop {
    /// It isn't an optional `-` and one or more digits.
    Number,
    /// It is such a number, outside the range of the column.
    Range,
}

// A number that has to be from lo to hi.
pub(crate) fn within(z: i64, lo: i64, hi: i64) -> Result<i64, NumberStop>
    ensures { result ≡ within lo hi (Some z) }
{
    if lo <= z && z <= hi {
        Ok(z)
    } else {
        Err(NumberStop::Range)
    }
}

// A minus sign and digits of 2^63?
fn is_lowest(field: &[u8]) -> bool
    ensures { result ≡ is_lowest field.now }
{
    match field {
        [b, digits @ ..] => *b == b'-' && unsigned(digits) == 1 << 63,
        [] => false,
    }
}

/// The number that a field says, which has to be from `lo` to `hi`. `-0` is 0, and leading zeros count for nothing.
pub fn number(field: &[u8], lo: i64, hi: i64) -> Result<i64, NumberStop>
    ensures { result ≡ number_in lo hi field.now }
{
    match integer(field) {
        Reading::NotANumber => Err(NumberStop::Number),
        Reading::Value(z) => within(z, lo, hi),
        Reading::Outside => {
            if lo == i64::MIN && is_lowest(field) {
                Ok(lo)
            } else {
                Err(NumberStop::Range)
            }
        }
    }
}
