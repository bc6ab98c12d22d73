//! The verdict on a trace.

/// The verdict on a trace.
#[derive(Clone, Copy)]
pub enum Judged {
    /// It is agreed, over this many records.
    Agreed(u32),
    /// This line, from 1, is the first whose rule fails. At the end of the trace it is one more than there are lines.
    Wrong(u32),
}
