//! Edges of a set of points.
ghost use Rattle.std.specs.Prelude.{◌≡◌, ◌≢◌, ◌↔◌, ◌≤◌, ◌<◌, ◌∷◌, [], length, IsTrue};
ghost use Rattle.ln_tree.specs.Row.{InRange};
ghost use Rattle.ln_code.specs.Memory.{MadeFor};
ghost use Rattle.ln_code.specs.RowOf.{row_of};
ghost use Rattle.ln_edges.specs.Points.{Holds, point_of};
ghost use Rattle.ln_edges.specs.Edges.{ArePointsFor, HoldsPair, IsMachineEdge, IsPlus, IsPlusOn, points_in, width};

use crate::point::{Point, put_point};
use ln_base::Sign;
use ln_code::{Program, Row, Scratch, run_row};

fn is_plus(sign: Sign) -> bool
    ensures { IsTrue result ↔ (sign ≡ Sign.Plus) }
{
    match sign {
        Sign::Plus => true,
        Sign::Minus | Sign::Zero => false,
    }
}

// Is the program's sign on the row plus?
fn has_plus(p: &Program, s: &mut Scratch, row: &Row) -> bool
    requires made { MadeFor p.now s.old }
    requires row { InRange p.now.shape.sites p.now.shape.vars (row_of p.now.shape.sites p.now.shape.vars row.now) }
    ensures plus { IsTrue result ↔ IsPlus p.now (row_of p.now.shape.sites p.now.shape.vars row.now) }
    ensures made { MadeFor p.now s.new }
{
    is_plus(run_row(p, s, row).sign)
}

// The number of coordinates of each of the three sites of the program.
fn width(p: &Program) -> usize
    ensures { result ≡ width p.now.shape.vars }
{
    p.shape().vars.len() / 3
}

// The row of two points, with room for a third.
fn pair_row(width: usize, a: &Point, b: &Point) -> Row
    requires { width ≤ 32 }
    ensures { Holds width (point_of width a.now ∷ point_of width b.now ∷ []) result }
{
    let mut row = Row {
        index: [0; 5],
        values: [0; 168],
    };
    put_point(&mut row, 0, width, a);
    put_point(&mut row, 1, width, b);
    row
}

// An ordered pair of places.
#[derive(Clone, Copy)]
struct Pair {
    from: usize,
    to: usize,
}

// Is point k one of the pair, or is the program's sign on the row of the three plus? The row holds the pair, before
// and after.
fn is_passed(
    p: &Program,
    s: &mut Scratch,
    row: &mut Row,
    points: &[Point],
    pair: Pair,
    k: usize,
) -> bool
    requires made { MadeFor p.now s.old }
    requires points { ArePointsFor p.now points.now }
    requires first { pair.from < length points.now }
    requires second { pair.to < length points.now }
    requires third { k < length points.now }
    requires differ { pair.from ≢ pair.to }
    requires held { HoldsPair p.now points.now pair.from pair.to row.old }
    ensures passed { IsTrue result ↔ (k ≢ pair.from → k ≢ pair.to →
        IsPlusOn p.now (points_in p.now.shape.vars points.now) pair.from pair.to k) }
    ensures held { HoldsPair p.now points.now pair.from pair.to row.new }
    ensures made { MadeFor p.now s.new }
{
    if k == pair.from || k == pair.to {
        return true;
    }
    put_point(row, 2, width(p), &points[k]);
    has_plus(p, s, row)
}

/// Returns whether the program's sign is plus on the row of points i, j and k for every other place k. For a compiled
/// program this is the perturbed sign, so the pair is an edge. It stops at the first point that isn't on the plus
/// side, since one refutes the pair. It allocates nothing and refuses nothing.
pub fn is_edge(p: &Program, s: &mut Scratch, points: &[Point], i: usize, j: usize) -> bool
    requires made { MadeFor p.now s.old }
    requires points { ArePointsFor p.now points.now }
    requires first { i < length points.now }
    requires second { j < length points.now }
    requires differ { i ≢ j }
    ensures edge { IsTrue result ↔ IsMachineEdge p.now (points_in p.now.shape.vars points.now) i j }
    ensures made { MadeFor p.now s.new }
{
    let mut row = pair_row(width(p), &points[i], &points[j]);
    'others: for k in 0..points.len() {
        if !is_passed(p, s, &mut row, points, Pair { from: i, to: j }, k) {
            return false;
        }
    }
    true
}
