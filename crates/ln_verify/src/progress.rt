//! The state of the judge while it reads.
use crate::ranged::BlockStack;
use crate::triple::FilterStack;
use ln_base::Seq;
use ln_tree::Exps;

/// The state: the number of whole parts, the exponents of the blocks, those of the one at hand last, the stacks, and
/// the number of lists.
#[derive(Drop)]
pub struct Progress {
    pub parts: usize,
    pub exps: Seq<Exps>,
    pub block_stack: BlockStack,
    pub filter_stack: FilterStack,
    pub lists: usize,
}
