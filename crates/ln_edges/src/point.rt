//! Points, and rows of them.
ghost use Rattle.std.specs.Prelude.{◌≡◌, ◌≤◌, ◌<◌, ◌++◌, ◌∷◌, [], List, length};
ghost use Rattle.ln_edges.specs.Points.{Holds, PointOf, point_of};

use ln_code::Row;

/// A point of a site type: its index, from 0 to `2^63 - 1`, and its coordinates in declared order, each in its
/// declared range. The places after those of the type are 0.
#[derive(Clone, Copy)]
pub struct Point {
    pub index: i64,
    pub values: [i64; 32],
}

// Writes a point of this many coordinates into the place of a site of a row, after the points that the row holds.
pub(crate) fn put_point(row: &mut Row, place: usize, width: usize, point: &Point)
    requires place { place < 5 }
    requires width { width ≤ 32 }
    ensures more { (before : List PointOf) → length before ≡ place → Holds width before row.old
        → Holds width (before ++ point_of width point.now ∷ []) row.new }
    ensures kept { (before : List PointOf) → length before ≡ place → Holds width before row.old
        → Holds width before row.new }
{
    let from = place * width;
    row.index[place] = point.index;
    row.values[from..from + width].copy_from_slice(&point.values[..width]);
}
