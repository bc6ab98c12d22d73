//! The syntax of sources: which tokens are a file, where they stop being one, and the places of its parts.
//!
//! `read_items` returns the items of a file with the spans of their names and numbers and the token places of
//! their expressions, or the first fault: a parenthesis that is nested too deep, else the first token that
//! no file goes on with.
#![tactic(auto)]

pub mod items;
pub mod nesting;
pub mod place;
pub mod raw;
pub mod unique;

pub use items::read_items;
pub use nesting::{nesting_fault, one_depth};
pub use place::{one_place, syntax_fault};
pub use raw::{Places, RawArg, RawCoord, RawEnd, RawItem, RawLet, RawRange};
pub use unique::{one_spelling, one_tree};
