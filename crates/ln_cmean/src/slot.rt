//! A declaration in the memory of a call.
use ln_csyn::CType;

/// A declaration: its name, its type, its number once it has one, the bucket of its name, and how many declarations there are up to the one
/// before it in that bucket.
#[derive(Clone, Copy)]
pub struct Slot<'a> {
    pub name: &'a [u8],
    pub kind: CType,
    pub number: Option<i128>,
    pub bucket: usize,
    pub below: usize,
}
