//! The list of the calls that files in memory were asked, which tests read.

/// A read that files in memory were asked for.
#[derive(Clone, Copy)]
pub struct Call {
    /// The place of the first file of that name among the files, from 0; none where the name isn't there.
    pub file: Option<usize>,
    /// The place in the file from which on bytes were asked.
    pub at: u64,
}

// How many calls are kept.
const KEPT: usize = 64;

// The first 64 calls. The list is kept in place, so a call allocates nothing.
#[derive(Drop)]
pub(crate) struct Calls {
    kept: [Call; KEPT],
    len: usize,
}

impl Calls {
    pub(crate) fn new() -> Calls {
        Calls {
            kept: [Call { file: None, at: 0 }; KEPT],
            len: 0,
        }
    }

    pub(crate) fn add(&mut self, call: Call) {
        if self.len < KEPT {
            self.kept[self.len] = call;
            self.len += 1;
        }
    }

    pub(crate) fn as_slice(&self) -> &[Call] {
        &self.kept[..self.len.min(KEPT)]
    }
}
