//! The C subset: its trees, its text both ways, and what a call of one of its functions means (`specs/Meaning.antt`).
//!
//! `CText bytes file` says that the bytes are this file: the grammar with all side conditions, as a relation (`specs/Text.antt`,
//! `specs/Grammar.antt`, `specs/Keeps.antt`). `read_c` decides it: it returns the file of the bytes, and `NotSubset` exactly where they are no file.
//! `write_c` returns a text of a file, up to lines, laid out (`specs/Layout.antt`). By `laws::one_text` no bytes have two
//! files. The type `CFile` keeps all conditions.
#![tactic(auto)]

pub mod body;
pub mod expr;
pub mod file;
pub mod keep;
pub mod laws;
pub mod layout;
pub(crate) mod names;
pub mod read;
pub mod scan;
pub mod spell;
pub mod stop;
pub mod token;
pub mod tokens;
pub mod tree;
pub mod word;
pub mod write;

pub use read::{CFile, read_c};
pub use stop::CStop;
pub use tree::{CExpr, CForm, CFun, COp, CPrim, CStmt, CType};
pub use write::write_c;
