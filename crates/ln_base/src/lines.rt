//! The lines of a text, one after the other.

pub mod grammar;
pub mod kinds;
pub mod reading;
pub mod rest;
pub mod source;
pub mod stop;

pub use grammar::Grammar;
pub use kinds::{either, only};
pub use reading::{first_line, next, opened};
pub use rest::Rest;
pub use source::{Held, Source};
pub use stop::TextStop;
