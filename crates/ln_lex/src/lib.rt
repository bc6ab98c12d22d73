//! Tokens of the source language.
//!
//! `tokens` cuts a source into names, numbers, keywords and signs, each the longest at its place, with only blanks and
//! comments between them. It refuses at the first byte that begins neither blank, comment nor token, or at which token
//! 65,537 begins. By `one_answer` no bytes have two results.
#![tactic(auto)]

pub mod byte;
pub mod scan;
pub mod token;

pub use scan::{LexStop, one_answer, tokens};
pub use token::{Kind, Token};
