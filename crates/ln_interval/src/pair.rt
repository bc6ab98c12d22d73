//! Defines pairs: ranges of integers by their two ends, which are at most 2^127 - 1 in absolute value.
ghost use Rattle.std.specs.Prelude.{◌≤◌, ◌≤ℤ◌, unsigned_abs};
ghost use Rattle.ln_interval.specs.Range.{most};

/// The largest absolute value of an end: `2^127 - 1`, so that each end and its opposite fit 128 bits.
pub const MOST: u128 = 170141183460469231731687303715884105727;

/// A range of values, from `low` to `high`, both of them in it. Low isn't above high, and both are within `2^127 - 1` in
/// absolute value.
#[derive(Clone, Copy)]
pub struct Pair {
    pub low: i128,
    pub high: i128,
    ghost ordered: { low ≤ℤ high },
    ghost low_small: { unsigned_abs low ≤ most },
    ghost high_small: { unsigned_abs high ≤ most },
}
