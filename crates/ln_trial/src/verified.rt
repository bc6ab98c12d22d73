//! What the library's `verify` says of listings that are read whole first. The program's command judges line by line, with the same rules.
ghost use Rattle.std.specs.Prelude.{◌≤◌, length, map};
ghost use Rattle.ln_base.specs.Limits.{most_source};
ghost use Rattle.ln_tree.specs.Table.{pred_of};
ghost use Rattle.ln_compile.specs.Accepted.{AreSound};

use crate::listings::listing_of;
use crate::support::written;
use ln_base::limits::MOST_SOURCE;
use ln_base::{NoMemory, Port};
use ln_cert::Listing;
use ln_compile::{Checked, Refusal, check};
use ln_tree::Table;
use ln_trial_programs::sample::{BLOCKS, ORIENT, RANGES, SQUARES};
use ln_verify::{Judged, VerifyStop, verify};
use std::alloc::Global;
use std::test::Fail;

/// The table of an accepted source.
pub fn accepted(c: &Checked) -> &Table
    requires { AreSound (map pred_of c.now.table.preds) }
    ensures { AreSound (map pred_of result.now.preds) }
{
    c.table()
}

// What a listing is for a source; none where the source is refused.
fn judged(alloc: Global, source: &[u8], listing: &Listing) -> Result<Option<Judged>, NoMemory>
    requires { length source.now ≤ most_source }
{
    match check(alloc, source) {
        Ok(c) => {
            match verify(alloc, accepted(&c), listing) {
                Ok(judged) => Ok(Some(judged)),
                Err(VerifyStop::NoMemory(e)) => Err(e),
            }
        }
        Err(Refusal::NoMemory(e)) => Err(e),
        Err(_) => Ok(None),
    }
}

// The first line of a listing that fails for a source, 0 where none does; none where the source is refused or the text is no listing.
fn first_failing(alloc: Global, source: &str, text: &[u8]) -> Result<Option<u32>, NoMemory> {
    let source = source.as_bytes();
    if source.len() > MOST_SOURCE {
        return Ok(None);
    }
    let Some(listing) = listing_of(alloc, text)? else {
        return Ok(None);
    };
    match judged(alloc, source, &listing)? {
        Some(Judged::Valid) => Ok(Some(0)),
        Some(Judged::Invalid(line)) => Ok(Some(line)),
        None => Ok(None),
    }
}

// A source, the version and the rest of a listing in which a text stands for another; and the first line that fails, 0 where none does.
type Want = (
    &'static str,
    u32,
    &'static str,
    &'static str,
    &'static str,
    u32,
);

const WANTED: &[Want] = &[
    ("", 1, "", "", "", 0),
    ("", 2, "", "", "", 0),
    ("", 1, BLOCKS, "", "", 2),
    (SQUARES, 1, "", "", "", 2),
    (SQUARES, 1, BLOCKS, "", "", 0),
    (SQUARES, 2, RANGES, "", "", 0),
    // Another source's listing.
    (ORIENT, 1, BLOCKS, "", "", 2),
    // A product that passes its bound; a wider one; another product than the derivative.
    (SQUARES, 1, BLOCKS, "mul64 20", "mul64 19", 28),
    (SQUARES, 1, BLOCKS, "mul64 20", "mul128 20", 0),
    (
        SQUARES,
        1,
        BLOCKS,
        "push 2 2\ninput 0 10\nmul64 20",
        "push 3 3\ninput 0 10\nmul64 30",
        29,
    ),
    (SQUARES, 2, RANGES, "mul64 -20 20", "mul64 -20 19", 28),
];

fn is_judged(alloc: Global, want: &Want) -> Result<bool, NoMemory> {
    let (source, version, listing, old, new, line) = *want;
    let mut text = format!(in alloc; "listing {version}\n")?;
    text.push_str(&listing.replacen(alloc, old, new, 1)?)?;
    Ok(first_failing(alloc, source, text.as_bytes())? == Some(line))
}

// Are those of the table judged so, and what `list` writes for the orientation as valid?
fn are_judged(alloc: Global) -> Result<bool, NoMemory> {
    for want in WANTED {
        if !is_judged(alloc, want)? {
            return Ok(false);
        }
    }
    let turns = written(alloc, "list s.ln", ORIENT)?;
    Ok(first_failing(alloc, ORIENT, turns.bytes(Port::Out))? == Some(0))
}

#[test]
fn listings_that_are_read_whole_are_judged(rt: HostRuntime) -> Result<(), Fail> {
    assert!(rt; are_judged(rt.alloc())?);
    Ok(())
}
