//! Defines the rows on which programs run: an index for each site and a value for each variable.

/// A row of any predicate: an index for each site, by place, and a value for each variable, by number. Places past those of
/// the predicate at hand are 0.
#[derive(Clone, Copy)]
pub struct Row {
    pub index: [i64; 5],
    pub values: [i64; 168],
}
