//! The two versions of listings.

/// The version of a listing: one bound for each operation of a block, or a low and a high end.
#[derive(Clone, Copy, PartialEq, Eq)]
pub enum Version {
    One,
    Two,
}
