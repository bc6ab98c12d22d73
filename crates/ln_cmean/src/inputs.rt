//! What a function can speak of besides its declarations.
use crate::functions::Functions;

/// The arguments of a function: the values, and the indices where it has the parameter `x`; and the functions before it.
#[derive(Clone, Copy)]
pub struct Inputs<'a, 'i> {
    pub values: &'i [i64],
    pub index: Option<&'i [i64]>,
    pub before: Functions<'a, 'i>,
}
