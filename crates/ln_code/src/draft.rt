//! Defines drafts: operations as they are written, and which subtrees are kept.
ghost use Rattle.std.specs.Prelude.{◌≡◌, ◌+◌, [], ℕ, IfSome, slice_get, Some};

use crate::builder::Builder;
use ln_base::Seq;
use std::alloc::Global;

/// Operations with what bounds each, and the numbers of the subtrees that are kept, from local 65 on.
#[derive(Drop)]
pub struct Draft<B> {
    pub code: Builder<B>,
    pub kept: Seq<usize>,
}

impl<B> Draft<B> {
    /// No operations.
    pub fn new(alloc: Global) -> Draft<B>
        ensures code { result.code ≡ [] }
        ensures kept { result.kept ≡ [] }
    {
        Draft {
            code: Builder::new(alloc),
            kept: Seq::new(alloc),
        }
    }

    /// The local in which a subtree is kept.
    pub fn local_of(&self, k: usize) -> Option<u8>
        ensures { IfSome result (λ j. (i : ℕ) × (slice_get self.now.kept i ≡ Some k) × (j ≡ 65 + i)) }
    {
        'kept: for (i, n) in self.kept.as_slice().iter().enumerate() {
            if *n == k && i < 191 {
                return Some(65 + i as u8);
            }
        }
        None
    }
}
