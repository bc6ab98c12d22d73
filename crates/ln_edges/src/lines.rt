//! The lines of the edges.
ghost use Rattle.std.specs.Prelude.{◌≡◌, ◌↔◌, ◌++◌, ◌<◌, ◌+◌, ℕ, List, length, IfOk, IsTrue};
ghost use Rattle.ln_code.specs.Memory.{MadeFor};
ghost use Rattle.ln_edges.specs.Edges.{ArePointsFor, points_in};
ghost use Rattle.ln_edges.specs.Lines.{AreEdgeLines, EdgesSoFar, ProgramEdge, edge_line, index_text};
ghost use Rattle.ln_edges.specs.Pairs.{pair};

use crate::edge::is_edge;
use crate::point::Point;
use itoa::Buffer;
use ln_base::NoMemory;
use ln_code::{Program, Scratch};
use std::alloc::Global;

// Appends the index of a point.
fn add_index(text: &mut Vec<u8>, point: &Point) -> Result<(), NoMemory>
    ensures { IfOk result (λ x. text.new.items ≡ text.old.items ++ index_text point.now.index) }
{
    let mut buffer = Buffer::new();
    text.extend_from_slice(buffer.format(point.index.unsigned_abs()).as_bytes())?;
    Ok(())
}

// Appends the line of a pair.
fn add_line(
    p: &Program,
    text: &mut Vec<u8>,
    points: &[Point],
    i: usize,
    j: usize,
) -> Result<(), NoMemory>
    requires first { i < length points.now }
    requires second { j < length points.now }
    ensures { IfOk result (λ x. text.new.items
        ≡ text.old.items ++ edge_line (points_in p.now.shape.vars points.now) (pair i j)) }
{
    add_index(text, &points[i])?;
    text.push(b' ')?;
    add_index(text, &points[j])?;
    text.push(b'\n')?;
    Ok(())
}

// Are i and j different places, and the points there an edge?
fn is_pair(p: &Program, s: &mut Scratch, points: &[Point], i: usize, j: usize) -> bool
    requires made { MadeFor p.now s.old }
    requires points { ArePointsFor p.now points.now }
    requires first { i < length points.now }
    requires second { j < length points.now }
    ensures edge { IsTrue result ↔ ProgramEdge p.now (points_in p.now.shape.vars points.now) i j }
    ensures made { MadeFor p.now s.new }
{
    if i == j {
        return false;
    }
    is_edge(p, s, points, i, j)
}

// Appends the line of the pair, where it is an edge.
fn add_pair(
    p: &Program,
    s: &mut Scratch,
    points: &[Point],
    i: usize,
    j: usize,
    text: &mut Vec<u8>,
) -> Result<(), NoMemory>
    requires made { MadeFor p.now s.old }
    requires points { ArePointsFor p.now points.now }
    requires first { i < length points.now }
    requires second { j < length points.now }
    ensures adds { IfOk result (λ x. (start : List ℕ) → EdgesSoFar p.now points.now start i j text.old.items
        → EdgesSoFar p.now points.now start i (j + 1) text.new.items) }
    ensures made { MadeFor p.now s.new }
{
    if is_pair(p, s, points, i, j) {
        add_line(p, text, points, i, j)?;
    }
    Ok(())
}

// Appends the lines of the edges from point i.
fn add_from(
    p: &Program,
    s: &mut Scratch,
    points: &[Point],
    i: usize,
    text: &mut Vec<u8>,
) -> Result<(), NoMemory>
    requires made { MadeFor p.now s.old }
    requires points { ArePointsFor p.now points.now }
    requires first { i < length points.now }
    ensures adds { IfOk result (λ x. (start : List ℕ) → EdgesSoFar p.now points.now start i 0 text.old.items
        → EdgesSoFar p.now points.now start (i + 1) 0 text.new.items) }
    ensures made { MadeFor p.now s.new }
{
    'second: for j in 0..points.len() {
        add_pair(p, s, points, i, j, text)?;
    }
    Ok(())
}

/// Returns a line `I J` of the two indices for each ordered pair that is an edge, in order of the first point and
/// then of the second. `NoMemory` if an allocation fails; the points are as they were.
pub fn edge_lines(
    alloc: Global,
    p: &Program,
    s: &mut Scratch,
    points: &[Point],
) -> Result<Vec<u8>, NoMemory>
    requires made { MadeFor p.now s.old }
    requires points { ArePointsFor p.now points.now }
    ensures { IfOk result (λ v. AreEdgeLines p.now points.now v.items) }
{
    let mut text = Vec::new(alloc);
    'first: for i in 0..points.len() {
        add_from(p, s, points, i, &mut text)?;
    }
    Ok(text)
}
