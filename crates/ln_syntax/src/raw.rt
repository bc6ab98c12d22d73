//! The result of a derivation: items whose names are unresolved, and expressions as ranges of token places.
ghost use Rattle.std.specs.Prelude.{◌≡◌, Some};
ghost use Rattle.ln_syntax.specs.Raw.{item, item_name, is_site, is_param, is_pred, coords_in};

use ln_base::Span;

/// An end of a range: a NUMBER, with a minus sign before it or without.
#[derive(Clone, Copy)]
pub struct RawEnd {
    pub negative: bool,
    pub at: Span,
}

/// A range, both ends included.
#[derive(Clone, Copy)]
pub struct RawRange {
    pub low: RawEnd,
    pub high: RawEnd,
}

/// A coordinate of a site type.
#[derive(Clone, Copy)]
pub struct RawCoord {
    pub name: Span,
    pub range: RawRange,
}

/// An argument of a predicate: `kind` is the NAME or `param` after the colon.
#[derive(Clone, Copy)]
pub struct RawArg {
    pub name: Span,
    pub kind: Span,
    pub is_param: bool,
}

/// The tokens of an expression, from place `from` up to place `to`.
#[derive(Clone, Copy)]
pub struct Places {
    pub from: usize,
    pub to: usize,
}

/// A let of a predicate, and the places of its expression.
#[derive(Clone, Copy)]
pub struct RawLet {
    pub name: Span,
    pub value: Places,
}

/// An item of a file: a site type, a param, or a predicate with its arguments, lets and sign expression.
#[derive(Drop)]
pub enum RawItem {
    Site(Span, Vec<RawCoord>),
    Param(Span, RawRange),
    Pred(Span, Vec<RawArg>, Vec<RawLet>, Places),
}

impl RawItem {
    /// Is it a site type?
    pub fn is_site(&self) -> bool
        ensures { result ≡ is_site (item self.now) }
    {
        matches!(self, RawItem::Site(_, _))
    }

    /// Is it a param?
    pub fn is_param(&self) -> bool
        ensures { result ≡ is_param (item self.now) }
    {
        matches!(self, RawItem::Param(_, _))
    }

    /// Is it a predicate?
    pub fn is_pred(&self) -> bool
        ensures { result ≡ is_pred (item self.now) }
    {
        matches!(self, RawItem::Pred(_, _, _, _))
    }

    /// The coordinates of a site type; of another item none.
    pub fn coords(&self) -> &[RawCoord]
        ensures { result.now ≡ coords_in (Some (item self.now)) }
    {
        match self {
            RawItem::Site(_, coords) => coords,
            _ => &[],
        }
    }

    /// The place of its name.
    pub fn name(&self) -> Span
        ensures { result ≡ item_name (item self.now) }
    {
        match self {
            RawItem::Site(name, _) => *name,
            RawItem::Param(name, _) => *name,
            RawItem::Pred(name, _, _, _) => *name,
        }
    }
}
