//! The lines of a listing, one after the other.
ghost use Rattle.std.specs.Prelude.{◌≡◌, IfOk, OnErr};
ghost use Rattle.ln_cert.specs.Unread.{Takes};

use crate::kinds::is_end;
use crate::line::line;
use crate::part::{Entry, Part, State};
use ln_base::NoMemory;
use ln_base::lines::{Grammar, Rest, Source, next};
use std::alloc::Global;
use std::marker::Model;

/// The form of listings of a version.
#[derive(Clone, Copy)]
pub(crate) struct Listings {
    pub(crate) version: u8,
}

impl Grammar<State, Part> for Listings {
    ghost use Rattle.ln_cert.specs.Reading.{list_rules};

    ghost rules = { λ f. list_rules f.version };

    fn start(&self) -> State {
        State::Top
    }

    fn is_end(&self, state: State) -> bool {
        is_end(state)
    }

    fn line(
        &self,
        alloc: Global,
        state: State,
        bytes: &[u8],
    ) -> Result<Option<(Part, State)>, NoMemory> {
        line(alloc, self.version, state, bytes)
    }
}

/// The lines of a listing that are still to be read, which contracts see as the remaining text. None of them is kept.
#[derive(Drop)]
pub struct Lines<'a> {
    pub(crate) version: u8,
    pub(crate) rest: Rest<'a, State>,
}

impl<'a> Model for Lines<'a> {
    ghost use Rattle.ln_cert.specs.Unread.{IsUnread, Unread};

    ghost Value = { Unread };

    ghost view = { λ l. record { version = l.version; state = l.rest.state; line = l.rest.line; text = l.rest.text } };

    ghost invariant = { λ l. IsUnread (record { version = l.version; state = l.rest.state; line = l.rest.line; text = l.rest.text }) };
}

impl<'a> Lines<'a> {
    /// Returns the version of the listing, 1 or 2. Allocates nothing.
    pub fn version(&self) -> u8
        ensures { result ≡ self.now.version }
    {
        self.version
    }

    /// Returns the number of the next line; where none remains, it is one more than the listing has lines. Allocates nothing.
    pub fn number(&self) -> u32
        ensures { result ≡ self.now.line }
    {
        self.rest.number()
    }

    /// The next line and its number, or none at the end. Allocates for this line alone. After `NoMemory` the same lines remain.
    pub fn next(&mut self, alloc: Global) -> Result<Option<Entry>, NoMemory>
        ensures takes { IfOk result (λ o. Takes self.old o self.new) }
        ensures err { OnErr result (self.new ≡ self.old) }
    {
        let line = self.rest.number();
        let form = Listings {
            version: self.version,
        };
        let Some(part) = next(alloc, &form, &mut self.rest)? else {
            return Ok(None);
        };
        Ok(Some(Entry { line, part }))
    }
}

impl<'a> Source<Entry> for Lines<'a> {
    type Taken = Entry;

    ghost use Rattle.std.specs.Prelude.{length};
    ghost use Rattle.ln_cert.specs.Unread.{HaveEntries};

    ghost line = { λ e. e };

    ghost left = { HaveEntries };

    ghost next = { λ u. u.line };

    ghost size = { λ u. length u.text };

    fn number(&self) -> u32 {
        self.number()
    }

    fn take(&mut self, alloc: Global) -> Result<Option<Entry>, NoMemory> {
        self.next(alloc)
    }

    fn lent(taken: &Entry) -> &Entry
        ensures { result.now ≡ taken.now }
    {
        taken
    }
}
