//! Defines names of the source language, of 1 to 32 bytes, which are held without an allocation.
ghost use Rattle.std.specs.Prelude.{◌≡◌, ◌≤◌, length, take, true};
ghost use Rattle.ln_base.specs.Words.{is_name};

/// A name of the source language: a letter or `_`, then letters, digits and `_`, no keyword, 1 to 32 bytes.
#[derive(Clone, Copy)]
pub struct Name {
    bytes: [u8; 32],
    len: u8,
    ghost within: { len ≤ 32 },
    ghost named: { is_name (take len bytes) ≡ true },
}

impl Name {
    ghost use Rattle.ln_tree.specs.Names.{name_bytes};

    /// The name of these bytes.
    pub fn of(bytes: &[u8]) -> Name
        requires short { length bytes.now ≤ 32 }
        requires named { is_name bytes.now ≡ true }
        ensures { name_bytes result ≡ bytes.now }
    {
        let mut own = [0u8; 32];
        let len = bytes.len();
        own[..len].copy_from_slice(bytes);
        Name {
            bytes: own,
            len: len as u8,
        }
    }

    /// Its bytes.
    pub fn bytes(&self) -> &[u8]
        ensures { result.now ≡ name_bytes self.now }
    {
        &self.bytes[..usize::from(self.len)]
    }
}
