//! The judge of listings: the rules for each kind of line, in both versions, and what they promise.
//!
//! A value on the abstract stack carries an expression, whose polynomial is what the rules speak of; so a part that is judged
//! valid carries its predicate as a compiled program does, and the laws of verdicts hold of both.
#![tactic(auto)]

pub mod allowed;
pub mod case;
pub mod cases;
pub mod derived;
pub mod fits;
pub mod joined;
pub mod judge;
pub mod kinds;
pub mod laws;
pub mod limits;
pub mod listings;
pub mod made;
pub mod orders;
pub mod progress;
pub mod ranged;
pub mod shared_poly;
pub mod stacks;
pub mod steps;
pub mod triple;
pub mod value;
pub mod version;

pub use listings::{Judged, VerifyStop, verify, verify_lines, verify_text};
