//! The limits of what is accepted.

/// The most bytes of a source.
pub const MOST_SOURCE: usize = 1_048_576;

/// The most bytes of any other file.
pub const MOST_FILE: usize = 67_108_864;

/// The most tokens of a source.
pub const MOST_TOKENS: usize = 65_536;

/// The largest number, without its sign: `2^127 - 1`.
pub const MOST_LITERAL: u128 = 170141183460469231731687303715884105727;

/// The most stages that the lists of all orders of a predicate's sites have together.
pub const MOST_STAGES: u64 = 65_536;

/// The same by total degree.
pub const MOST_GRADED: u64 = 262_144;

/// The largest stage weight, in either order of infinitesimals.
pub const MOST_WEIGHT: u64 = 131_072;
