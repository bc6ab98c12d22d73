//! Tests which pairs of points are edges of their hull, without a command.
ghost use Rattle.std.specs.Prelude.{◌≡◌, ◌≤◌, ◌∷◌, [], true, ℕ, List, length, map, IfSome};
ghost use Rattle.ln_tree.specs.Table.{SiteArg, arg_of};
ghost use Rattle.ln_code.specs.Memory.{MadeFor};
ghost use Rattle.ln_edges.specs.Edges.{ArePointsFor, three_of};
ghost use Rattle.ln_edges.specs.Read.{coords_of};

use crate::sample::{ORIENT, compiled};
use ln_base::NoMemory;
use ln_code::{Program, Scratch};
use ln_compile::Compiled;
use ln_edges::{Found, Point, is_edge, read_points};
use ln_rows::Rows;
use ln_tree::{Arg, Pred, Site};
use std::alloc::Global;
use std::test::Fail;

// The corners of a square, and the middle of its lower side, which moves less than they do.
const POINTS: &[u8] = b"2,0,0\n3,2,0\n4,2,2\n5,0,2\n9,1,0\n";

// Two of these points by their places, and whether they are an edge of the hull.
type Pair = (usize, usize, bool);

const PAIRS: &[Pair] = &[
    (0, 1, false),
    (0, 2, false),
    (0, 3, false),
    (0, 4, true),
    (1, 0, false),
    (1, 2, true),
    (1, 3, false),
    (1, 4, false),
    (2, 0, false),
    (2, 1, false),
    (2, 3, true),
    (2, 4, false),
    (3, 0, true),
    (3, 1, false),
    (3, 2, false),
    (3, 4, false),
    (4, 0, false),
    (4, 1, true),
    (4, 2, false),
    (4, 3, false),
];

// Is the argument a site of the first type?
fn is_first(a: &Arg) -> bool
    ensures { result ≡ true → (n : List ℕ) × (arg_of a.now ≡ SiteArg n 0) }
{
    match a {
        Arg::Site(_, kind) => *kind == 0,
        Arg::Param(_) => false,
    }
}

// Are the arguments three sites of the first type?
fn are_three(args: &[Arg]) -> bool
    ensures { result ≡ true → (a b c : List ℕ) × (map arg_of args.now ≡ SiteArg a 0 ∷ SiteArg b 0 ∷ SiteArg c 0 ∷ []) }
{
    match args {
        [a, b, c] => is_first(a) && is_first(b) && is_first(c),
        _ => false,
    }
}

// Is it two of the points, and an edge where it has to be one?
fn is_pair(p: &Program, s: &mut Scratch, points: &[Point], pair: &Pair) -> bool
    requires made { MadeFor p.now s.old }
    requires points { ArePointsFor p.now points.now }
    ensures made { MadeFor p.now s.new }
{
    let (i, j, want) = *pair;
    i < points.len() && j < points.len() && i != j && is_edge(p, s, points, i, j) == want
}

// Are the pairs those that they have to be?
fn are_pairs(p: &Program, s: &mut Scratch, points: &[Point]) -> bool
    requires made { MadeFor p.now s.old }
    requires points { ArePointsFor p.now points.now }
{
    'pairs: for pair in PAIRS {
        if !is_pair(p, s, points, pair) {
            return false;
        }
    }
    true
}

// Has the program, over three sites of the type, the edges of the points?
fn have_edges(alloc: Global, site: &Site, program: &Program) -> Result<bool, NoMemory>
    requires { (program.now.shape.sites ≡ 3) × (program.now.shape.vars ≡ three_of (coords_of site.now))
        × (length (coords_of site.now) ≤ 32) }
{
    let mut rows = Rows::new(alloc, POINTS)?;
    let mut s = Scratch::new(alloc, program)?;
    match read_points(alloc, site, &mut rows)? {
        Found::Points(points) => Ok(are_pairs(program, &mut s, points.as_slice())),
        _ => Ok(false),
    }
}

// The type, the predicate and the program of a source, where there is one of each.
fn one_of_each(c: &Compiled) -> Option<(&Site, &Pred, &Program)>
    ensures { IfSome result (λ all. (c.now.table.sites ≡ all.0.now ∷ []) × (c.now.table.preds ≡ all.1.now ∷ [])
        × (all.2.now.shape.sites ≡ all.1.now.shape.sites) × (all.2.now.shape.vars ≡ all.1.now.shape.vars)) }
{
    match (
        c.table().sites.as_slice(),
        c.table().preds.as_slice(),
        c.programs().as_slice(),
    ) {
        ([site], [pred], [program]) => Some((site, pred, program)),
        _ => None,
    }
}

// The same of the one type, the one predicate and the one program of a source.
fn has_edges(alloc: Global, c: &Compiled) -> Result<bool, NoMemory> {
    let Some((site, pred, program)) = one_of_each(c) else {
        return Ok(false);
    };
    if !are_three(pred.args.as_slice()) {
        return Ok(false);
    }
    have_edges(alloc, site, program)
}

fn has_edges_of_a_hull(alloc: Global) -> Result<bool, NoMemory> {
    match compiled(alloc, ORIENT)? {
        Some(c) => has_edges(alloc, &c),
        None => Ok(false),
    }
}

#[test]
fn a_hull_has_exactly_its_edges(rt: HostRuntime) -> Result<(), Fail> {
    assert!(rt; has_edges_of_a_hull(rt.alloc())?);
    Ok(())
}
