//! Listings: how they are written, read and judged.
use ln_base::NoMemory;
use ln_base::limits::MOST_FILE;
use ln_cert::{ListStop, Listing, read_listing, write_listing};
use ln_code::Programs;
use ln_tree::Table;
use ln_verify::{Judged, VerifyStop, verify};
use std::alloc::Global;

#[test]
fn calls_of_listings_have_their_types(_rt: HostRuntime) {
    let _: fn(Global, &Programs) -> Result<Vec<u8>, NoMemory> = write_listing;
    let _: fn(Global, &[u8]) -> Result<Listing, ListStop> = read_listing;
    let _: fn(&Listing) -> u8 = Listing::version;
    let _: fn(Global, &Table, &Listing) -> Result<Judged, VerifyStop> = verify;
}

// The version of a text's listing, and how many entries it has; or the line at which it is none, and 0 where memory ran out.
fn read(alloc: Global, text: &[u8]) -> Result<(u8, usize), u32> {
    if text.len() > MOST_FILE {
        return Err(0);
    }
    match read_listing(alloc, text) {
        Ok(l) => Ok((l.version(), l.entries().len())),
        Err(ListStop::Form(line)) => Err(line),
        Err(ListStop::NoMemory(_)) => Err(0),
    }
}

#[test]
fn a_first_line_alone_is_an_empty_listing_of_its_version(rt: HostRuntime) {
    let alloc = rt.alloc();
    assert!(rt; read(alloc, b"listing 1\n") == Ok((1, 0)));
    assert!(rt; read(alloc, b"listing 2\n") == Ok((2, 0)));
    assert!(rt; read(alloc, b"listing 3\n") == Err(1));
}
