//! The work of `edges`: a line for each ordered pair of points that has every other point on the plus side of the predicate.
ghost use Rattle.std.specs.Prelude.{◌≡◌, ◌≤◌, ◌<◌, ◌∷◌, length, map, true, IfOk, IfErr, Some, slice_get};
ghost use Rattle.ln_tree.specs.Table.{arg_of, site_of};
ghost use Rattle.ln_rows.specs.Left.{Records};
ghost use Rattle.ln_edges.specs.Read.{points_for};
ghost use Rattle.ln_top.specs.Judges.Three.{is_three};
ghost use Rattle.ln_top.specs.Frame.Carried.{CarriesOut, Halts, NoPart};
ghost use Rattle.ln_top.specs.Judges.Edges.{AreOfType, EdgesSaid, HoldsPoints, IsTypeOf, ReadsPoints, StopsPoints, point_names, edges_signature};
ghost use Rattle.ln_top.specs.Frame.Ready.{IsReadyFor, StandsFor};
ghost use Rattle.ln_top.specs.Frame.Said.{OnConsole, whole};
ghost use Rattle.ln_top.specs.Frame.Given.{Given, gives};

use crate::frame::ready::{Ready, named, one_text};
use crate::frame::status::{Early, End};
use crate::frame::stop::{Stop, Why, put_text, say};
use crate::judges::three::type_of;
use ln_base::{Console, NoMemory};
use ln_code::Scratch;
use ln_edges::{Found, Point, edge_lines, read_points};
use ln_rows::Rows;
use ln_tree::{Pred, Site, Table};
use std::alloc::Global;

// The number of the type of the predicate's three sites.
fn type_number(p: &Pred) -> u8
    requires { is_three (map arg_of p.now.args) ≡ true }
    ensures { AreOfType result (map arg_of p.now.args) }
{
    match type_of(&p.args.as_slice()[0]) {
        Some(kind) => kind,
        None => unreachable!(),
    }
}

// The type of this number.
fn type_at(t: &Table, kind: u8) -> &Site
    requires { kind < length t.now.sites }
    ensures { slice_get t.now.sites kind ≡ Some result.now }
{
    &t.sites.as_slice()[usize::from(kind)]
}

// The type of the three sites of the named predicate.
fn point_type(ready: &Ready) -> &Site
    requires { IsReadyFor edges_signature ready.now }
    ensures few { length result.now.coords ≤ 32 }
    ensures is { (g : Given) → StandsFor ready.now g → IsTypeOf g (site_of result.now) }
{
    let kind = type_number(named(ready).pred());
    type_at(ready.compiled.table(), kind)
}

// The points of the records after the header.
fn points_after(alloc: Global, site: &Site, rows: &mut Rows<'_>) -> Result<Vec<Point>, Stop>
    requires { length site.now.coords ≤ 32 }
    ensures ok { IfOk result (λ v. (all : Records) → all ≡ point_names (site_of site.now) ∷ rows.old
        → ReadsPoints (site_of site.now) all (gives (points_for site.now v.items))) }
    ensures err { IfErr result (λ s. (all : Records) → all ≡ point_names (site_of site.now) ∷ rows.old
        → Halts (ReadsPoints (site_of site.now) all) ⊥ s) }
{
    match read_points(alloc, site, rows) {
        Ok(Found::Points(points)) => Ok(points),
        Ok(Found::Many) => Err(Stop::Tell(Why::Many)),
        Ok(Found::NoPoint(n)) => Err(Stop::Tell(Why::Point(n))),
        Err(e) => Err(Stop::Memory(e)),
    }
}

// The points of the points file.
fn points(alloc: Global, ready: &Ready) -> Result<Vec<Point>, Stop>
    requires { IsReadyFor edges_signature ready.now }
    ensures ok { IfOk result (λ v. (g : Given) → StandsFor ready.now g → HoldsPoints g v.items) }
    ensures err { IfErr result (λ s. (g : Given) → StandsFor ready.now g → StopsPoints g s) }
{
    let site = point_type(ready);
    let mut rows = Rows::new(alloc, one_text(ready))?;
    let points = match rows.point_header(site) {
        Ok(true) => points_after(alloc, site, &mut rows),
        Ok(false) => Err(Stop::Tell(Why::Header)),
        Err(e) => Err(Stop::Memory(e)),
    };
    drop(rows);
    points
}

// The lines of the edges, by the program of the named predicate, which is made here.
fn lines(alloc: Global, ready: &Ready, points: &[Point]) -> Result<Vec<u8>, NoMemory>
    requires ready { IsReadyFor edges_signature ready.now }
    requires points { (g : Given) → StandsFor ready.now g → HoldsPoints g points.now }
    ensures { IfOk result (λ v. (g : Given) → StandsFor ready.now g → EdgesSaid g (whole End.Done v.items)) }
{
    let program = ready.compiled.program(alloc, ready.numbers.as_slice()[0])?;
    // The contract of `blocks` states that the program follows the rules.
    let _blocks = program.blocks();
    let lines = match Scratch::new(alloc, &program) {
        Ok(mut scratch) => edge_lines(alloc, &program, &mut scratch, points),
        Err(e) => Err(e),
    };
    drop(program);
    lines
}

// Writes the lines of the edges.
fn put_edges<C: Console>(
    alloc: Global,
    con: &mut C,
    ready: &Ready,
    points: &[Point],
) -> Result<End, Early>
    requires ready { IsReadyFor edges_signature ready.now }
    requires points { (g : Given) → StandsFor ready.now g → HoldsPoints g points.now }
    ensures { (g : Given) → StandsFor ready.now g → OnConsole C.faults C.shown con.old result con.new (CarriesOut (EdgesSaid g) NoPart ⊥ ⊥) }
{
    let text = lines(alloc, ready, points)?;
    put_text(con, &text, End::Done)
}

/// Writes the lines of the edges, all of them made before the first is written; or refuses the header, the number of points, or a record.
pub fn work<C: Console>(alloc: Global, con: &mut C, ready: &Ready) -> Result<End, Early>
    requires { IsReadyFor edges_signature ready.now }
    ensures { (g : Given) → StandsFor ready.now g → OnConsole C.faults C.shown con.old result con.new (CarriesOut (EdgesSaid g) NoPart ⊥ ⊥) }
{
    match points(alloc, ready) {
        Ok(points) => put_edges(alloc, con, ready, &points),
        Err(stop) => say(alloc, con, stop),
    }
}
