//! Site types, params and the arguments of predicates.
use crate::name::Name;
use ln_base::Seq;

/// A coordinate of a site type, and its range, ends included.
#[derive(Clone, Copy)]
pub struct Coord {
    pub name: Name,
    pub lo: i64,
    pub hi: i64,
}

/// A site type: its coordinates in declared order.
#[derive(Drop)]
pub struct Site {
    pub name: Name,
    pub coords: Seq<Coord>,
}

/// A param, and its range, ends included.
#[derive(Clone, Copy)]
pub struct Param {
    pub name: Name,
    pub lo: i64,
    pub hi: i64,
}

/// An argument of a predicate: a site with its name and the number of its type, or the param of this number.
#[derive(Clone, Copy)]
pub enum Arg {
    Site(Name, u8),
    Param(u8),
}
