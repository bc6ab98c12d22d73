//! Listings: the text of compiled stack programs with a certificate at each operation, both ways. docs/LISTING.md has the grammar.
//!
//! `ListText bytes version parts` says that the bytes are the text of this listing (`specs/Text.antt` has the lines,
//! `specs/Listing.antt` the grammar). `read_listing` decides it: it returns the listing of the bytes, and `Form` with the line of their form fault
//! exactly where they are none. `listing_lines` decides the same, and returns the lines one after the other without keeping any. `write_listing`
//! returns the text of the listing of programs (`specs/Written.antt`); `begin_listing` and `put_program` write it program by program, so that each
//! may be dropped before the next is made. By `laws::one_listing` no bytes are two listings.
#![tactic(auto)]

pub mod args;
pub mod kinds;
pub mod laws;
pub mod line;
pub mod lines;
pub mod listing;
pub mod operation;
pub mod part;
pub mod put;
pub mod read;
pub mod write;

pub use lines::Lines;
pub use listing::Listing;
pub use part::{Entry, Part};
pub use read::{ListStop, listing_lines, read_listing};
pub use write::{begin_listing, put_program, write_listing};
