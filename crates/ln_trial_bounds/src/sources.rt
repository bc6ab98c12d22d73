//! Parses the sources of this crate's tests to their tables.
ghost use Rattle.std.specs.Prelude.{IfOk, length};
ghost use Rattle.ln_poly.specs.Sparse.{AreBelow};

use ln_base::limits::MOST_SOURCE;
use ln_bound::BoundStop;
use ln_bound::weigh::weigh;
use ln_parse::parse;
use ln_poly::{Poly, PolyStop, normal};
use ln_tree::{Pred, Table};
use std::alloc::Global;

/// The table of a source, where it isn't refused.
pub(crate) fn table(alloc: Global, source: &str) -> Option<Table> {
    let bytes = source.as_bytes();
    if bytes.len() > MOST_SOURCE {
        return None;
    }
    match parse(alloc, bytes) {
        Ok(t) => Some(t),
        Err(_) => None,
    }
}

/// The normal polynomial of a predicate, whose ranges and sizes have to fit; a node that is too large counts as one of too many terms.
pub(crate) fn poly_of(alloc: Global, p: &Pred) -> Result<Poly, PolyStop>
    ensures { IfOk result (AreBelow (length p.now.shape.vars)) }
{
    match weigh(alloc, p) {
        Ok(_) => normal(alloc, p),
        Err(stop) => Err(poly_stop(stop)),
    }
}

/// The stop that stands for that of a predicate whose ranges and sizes don't fit.
fn poly_stop(stop: BoundStop) -> PolyStop {
    match stop {
        BoundStop::Bound(at) => PolyStop::Terms(at),
        BoundStop::NoMemory(e) => PolyStop::NoMemory(e),
    }
}
