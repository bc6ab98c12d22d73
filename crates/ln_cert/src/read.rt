//! Reads the bytes of a listing, at once or line by line, or finds the first line at which they are no listing.
ghost use Rattle.std.specs.Prelude.{◌≡◌, ◌≤◌, ◌⊎◌, IfOk, IfErr, List, MatchOption, length, ℕ};
ghost use Rattle.ln_base.specs.Limits.{most_file};
ghost use Rattle.ln_cert.specs.Listing.{AreNumbered, ListText, first_line, parts_of};
ghost use Rattle.ln_cert.specs.Stop.{Stops};
ghost use Rattle.ln_cert.specs.Unread.{AreLeft, IsOpened};
ghost use Rattle.ln_cert.specs.declared.part.Part.{Part as AnyPart};

use crate::lines::{Lines, Listings};
use crate::listing::Listing;
use crate::part::Entry;
use ln_base::lines::{first_line, opened};
use ln_base::{NoMemory, Seq};
use std::alloc::Global;

/// Why bytes are no listing.
pub use ln_base::lines::TextStop as ListStop;

fn version(first: &[u8]) -> Option<u8>
    ensures { MatchOption result ((v : ℕ) → (v ≡ 1) ⊎ (v ≡ 2) → first.now ≡ first_line v → ⊥)
        (λ v. ((v ≡ 1) ⊎ (v ≡ 2)) × (first.now ≡ first_line v)) }
{
    if first == b"listing 1\n".as_slice() {
        Some(1)
    } else if first == b"listing 2\n".as_slice() {
        Some(2)
    } else {
        None
    }
}

/// The lines of the listing that the bytes are. The form of the whole text is checked first, and no line is kept: each is read once more
/// where it is taken. It takes time in proportion to the number of bytes, and memory for one line.
pub fn listing_lines<'a>(alloc: Global, bytes: &'a [u8]) -> Result<Lines<'a>, ListStop>
    requires { length bytes.now ≤ most_file }
    ensures ok { IfOk result (λ l. IsOpened bytes.now l) }
    ensures err { IfErr result (λ e. Stops bytes.now e) }
{
    let Some((first, behind)) = first_line(bytes) else {
        return Err(ListStop::Form(1));
    };
    let Some(version) = version(first) else {
        return Err(ListStop::Form(1));
    };
    let rest = opened(alloc, &Listings { version }, bytes, behind)?;
    Ok(Lines { version, rest })
}

// All remaining lines, with their numbers.
fn entries_of(alloc: Global, lines: &mut Lines<'_>) -> Result<Seq<Entry>, NoMemory>
    ensures parts { IfOk result (λ es. (ps : List AnyPart) → AreLeft lines.old ps → parts_of es ≡ ps) }
    ensures numbers { IfOk result (λ es. AreNumbered lines.old.line es) }
{
    let mut entries = Vec::new(alloc);
    'lines: while let Some(entry) = lines.next(alloc)? {
        entries.push(entry)?;
    }
    Ok(Seq::from_vec(entries))
}

/// The listing that the bytes are. It takes time in proportion to their number, and memory for an entry for each line.
pub fn read_listing(alloc: Global, bytes: &[u8]) -> Result<Listing, ListStop>
    requires { length bytes.now ≤ most_file }
    ensures ok { IfOk result (λ l. ListText bytes.now l.version (parts_of l.entries)) }
    ensures err { IfErr result (λ e. Stops bytes.now e) }
{
    let mut lines = listing_lines(alloc, bytes)?;
    let version = lines.version();
    let entries = entries_of(alloc, &mut lines)?;
    Ok(Listing::of(version, entries))
}
