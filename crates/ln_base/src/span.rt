//! Defines a span: the bytes of a source from one place up to another.

/// A stretch of a source's bytes: from byte `start` up to byte `end`, counted from 0; `end` is past the last.
#[derive(Clone, Copy, PartialEq, Eq, Debug)]
pub struct Span {
    pub start: u32,
    pub end: u32,
}
