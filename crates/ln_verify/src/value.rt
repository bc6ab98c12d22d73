//! Values on the judge's stack, in a block and in a filter.
ghost use Rattle.std.specs.Prelude.{◌≤◌};
ghost use Rattle.ln_interval.specs.Range.{most};
ghost use Rattle.ln_poly.specs.Sparse.{size_of};

use crate::shared_poly::SharedPoly;

/// A value on the judge's stack: its limits, which are its range and its width in a block and its triple in a filter, its running size
/// and the polynomial that it carries. The size is at most `2^127 - 1`, and at least the sum of the polynomial's absolute factors: so sums
/// and products are known to fit before they are worked out.
#[derive(Drop)]
pub struct Value<L> {
    pub limits: L,
    pub size: u128,
    pub poly: SharedPoly,
    ghost small: { size ≤ most },
    ghost heavy: { size_of poly ≤ size },
}
