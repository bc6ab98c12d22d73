//! The declarations that are visible, in memory that was made beforehand.
ghost use Rattle.std.specs.Prelude.{◌<◌, length, reverse};
ghost use Rattle.ln_cmean.specs.Chains.{IsTopped, IsLinked};

use crate::slot::Slot;

/// The declarations, of which those below the base are the caller's, and for each bucket how many there are up to the last one in it.
#[derive(Drop)]
pub struct Stack<'a> {
    pub base: usize,
    pub slots: Vec<Slot<'a>>,
    pub tops: Vec<usize>,
    pub ghost some: { 0 < length tops.items },
    pub ghost topped: { IsTopped (reverse slots.items) tops.items },
    pub ghost linked: { IsLinked (length tops.items) (reverse slots.items) },
}
