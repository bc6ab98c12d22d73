//! The commands that judge: `verify` a listing, `audit` a trace, and `edges` each pair of points.
//!
//! Each has a file with its work, whose result is complete before its first byte is written.

pub mod audit;
pub mod edges;
pub mod three;
pub mod verify;
