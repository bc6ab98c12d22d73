//! Defines a listing as it was read: its version and, by number, what each of its lines says.
ghost use Rattle.std.specs.Prelude.{◌≡◌, ◌⊎◌};
ghost use Rattle.ln_cert.specs.Listing.{Kept};

use crate::part::Entry;
use ln_base::Seq;
use std::marker::Model;

/// A listing: its version, and for each line after the first one its number and what it says. Some bytes, at most 67,108,864, are
/// its text.
#[derive(Drop)]
pub struct Listing {
    version: u8,
    entries: Seq<Entry>,
}

impl Model for Listing {
    ghost use Rattle.ln_cert.specs.Listing.{Listed, Kept};

    ghost Value = { Listed };

    ghost view = { λ l. record { version = l.version; entries = l.entries } };

    ghost invariant = { λ l. Kept (record { version = l.version; entries = l.entries }) };
}

impl Listing {
    // The listing of these entries.
    pub(crate) fn of(version: u8, entries: Seq<Entry>) -> Listing
        requires { Kept (record { version = version; entries = entries }) }
        ensures { result ≡ record { version = version; entries = entries } }
    {
        Listing { version, entries }
    }

    /// Returns the version, 1 or 2. Allocates nothing.
    pub fn version(&self) -> u8
        ensures value { result ≡ self.now.version }
        ensures known { (result ≡ 1) ⊎ (result ≡ 2) }
    {
        self.version
    }

    /// Returns the lines after the first one. Allocates nothing.
    pub fn entries(&self) -> &[Entry]
        ensures value { result.now ≡ self.now.entries }
        ensures kept { Kept self.now }
    {
        self.entries.as_slice()
    }
}
