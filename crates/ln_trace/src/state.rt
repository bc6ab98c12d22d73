//! Kinds of lines, and what the lines so far end in.

/// The meaning of the first word of a line.
#[derive(Clone, Copy)]
pub enum Kind {
    Refused,
    Row,
    At,
    Sign,
}

/// The end of the lines so far: the first line or the end of a record, a `row` line, an `at` line.
#[derive(Clone, Copy)]
pub enum State {
    Between,
    Opened,
    Within,
}
