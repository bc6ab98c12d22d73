//! What a command asks of its named predicates.

/// What is asked of named predicates together, after they are found and before the further files are read.
#[derive(Clone, Copy)]
pub enum Asked {
    /// Nothing.
    Nothing,
    /// The same arguments, in order.
    SameArgs,
    /// Three sites of one type, and no other argument.
    ThreeSites,
    /// Few stages by total degree, of the first of them; its program in that order is kept for the work.
    FewStages,
}
