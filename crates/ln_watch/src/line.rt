//! The line of a watcher.
ghost use Rattle.std.specs.Prelude.{◌≡◌, ◌+◌, ◌≤◌, [], ◌++◌, length, decimal};
ghost use Rattle.std.specs.Str.{IsAscii};

use itoa::Buffer;
use std::marker::Model;

/// How many bytes a line has at most.
pub const LINE_LEN: usize = 160;

/// A text of at most 160 ASCII bytes, seen as the list of its bytes. It allocates nothing.
#[derive(Drop)]
pub struct Line {
    bytes: [u8; 160],
    len: usize,
}

impl Model for Line {
    ghost use Rattle.std.specs.Prelude.{ℕ, List, ◌≤◌, take};
    ghost use Rattle.std.specs.Str.{IsAscii};

    ghost Value = { List ℕ };

    ghost view = { λ l. take l.len l.bytes };

    ghost invariant = { λ l. (l.len ≤ 160) × IsAscii (take l.len l.bytes) };
}

impl Line {
    /// The empty line.
    pub fn new() -> Line
        ensures { result ≡ [] }
    {
        Line {
            bytes: [0; 160],
            len: 0,
        }
    }

    /// Empties the line.
    pub fn clear(&mut self)
        ensures { self.new ≡ [] }
    {
        self.len = 0;
    }

    /// Appends bytes.
    pub fn put(&mut self, bytes: &[u8])
        requires ascii { IsAscii bytes.now }
        requires fits { length self.old + length bytes.now ≤ 160 }
        ensures { self.new ≡ self.old ++ bytes.now }
    {
        let end = self.len + bytes.len();
        self.bytes[self.len..end].copy_from_slice(bytes);
        self.len = end;
    }

    /// The bytes.
    pub fn bytes(&self) -> &[u8]
        ensures bytes { result.now ≡ self.now }
        ensures len { length result.now ≤ 160 }
        ensures ascii { IsAscii result.now }
    {
        &self.bytes[..self.len]
    }

    // Appends a number of 64 bits, in decimal.
    pub(crate) fn put_number(&mut self, n: u64)
        requires { length self.old + 20 ≤ 160 }
        ensures text { self.new ≡ self.old ++ decimal n }
        ensures len { length self.new ≤ length self.old + 20 }
    {
        let mut buffer = Buffer::new();
        self.put(buffer.format(n).as_bytes());
    }
}
