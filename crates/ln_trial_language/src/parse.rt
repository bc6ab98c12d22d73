//! Sources and their tables, and tables and their canonical texts.
use ln_parse::{parse, print};
use ln_tree::{Arg, Expr, Node, Pred, Site, Table};
use std::alloc::Global;

const ORIENT: &str = "site point { x: -1000 .. 1000; y: -1000 .. 1000; }
predicate orient(p: point, q: point, r: point) { sign (p.x - r.x)*(q.y - r.y) - (p.y - r.y)*(q.x - r.x); }
";

const SQUARES: &str = "site num { t: -10 .. 10; }
predicate s(a: num, b: num) { sign a.t^2 - b.t^2; }
";

const SCALED: &str = "param c: 0 .. 5; // a factor
site num { t: -10 .. 10; }
predicate z(c: param, a: num) { let d = ((-a.t^02)); sign (c * d); }";

// The canonical text of every construct, and the same written otherwise.
const ALL: &str = "site point { x: -5 .. 7; y: 0 .. 0; }
site other { t: -9 .. -1; }
param c: 0 .. 5;
param d: 1 .. 2;
predicate f(p: point, c: param, q: other) { let k = -p.x + 7; let m = k*(c - 3); \
    sign k - m - (p.y - (q.t + c))*-k^2 - (-(2*m*(k*k)))^3*(2^4)^5; }
predicate g(p: other) { sign -(p.t - 1) + --p.t; }
";

const OTHERWISE: &str = "param c:00..05;param d:01..2;site point{x:-5..007;y:-0..0;}
        site other { t: -9 .. -1; } // the second site type
        predicate f(p:point,c:param,q:other){let k=(-(p.x))+(7);let m=((k))*(c-3);
            sign ((k-m))-((p.y-(q.t+c))*(-(k^2)))-(-((2*m)*(k*k)))^03*(2^4)^5;}
        predicate g(p: other) { sign (-(p.t - 1)) + (-(-p.t)); }";

/// The table of a source, if it has one.
fn read(alloc: Global, source: &str) -> Option<Table> {
    if source.len() > 1 << 20 {
        return None;
    }
    parse(alloc, source.as_bytes()).ok()
}

/// Is it the input of an argument and a coordinate?
fn is_input(e: &Expr, arg: u8, coord: u8) -> bool {
    match &e.node {
        Node::Input(v) => v.arg == arg && v.coord == coord,
        _ => false,
    }
}

/// Is it the square of the first coordinate of an argument?
fn is_square(e: &Expr, arg: u8) -> bool {
    match &e.node {
        Node::Pow(base, n) => is_input(base, arg, 0) && *n == 2,
        _ => false,
    }
}

/// Is it the difference of the squares of arguments 0 and 1?
fn is_of_squares(e: &Expr) -> bool {
    match &e.node {
        Node::Sub(a, b) => is_square(a, 0) && is_square(b, 1),
        _ => false,
    }
}

/// Is it the square of argument 1 after a minus sign?
fn is_negated_square(e: &Expr) -> bool {
    match &e.node {
        Node::Neg(of) => is_square(of, 1),
        _ => false,
    }
}

/// Is it the first let?
fn is_first_let(e: &Expr) -> bool {
    match &e.node {
        Node::Name(j) => *j == 0,
        _ => false,
    }
}

/// Is it the product of argument 0 and the first let?
fn is_scaled(e: &Expr) -> bool {
    match &e.node {
        Node::Mul(a, b) => is_input(a, 0, 0) && is_first_let(b),
        _ => false,
    }
}

/// Is it the y of argument 1 less that of argument 2?
fn is_rise(e: &Expr) -> bool {
    match &e.node {
        Node::Sub(a, b) => is_input(a, 1, 1) && is_input(b, 2, 1),
        _ => false,
    }
}

/// Is it a product with that as its second factor?
fn is_times_rise(e: &Expr) -> bool {
    match &e.node {
        Node::Mul(_, b) => is_rise(b),
        _ => false,
    }
}

/// Is it the determinant of the orientation, by its left side?
fn is_determinant(e: &Expr) -> bool {
    match &e.node {
        Node::Sub(left, _) => is_times_rise(left),
        _ => false,
    }
}

/// Is it the site argument r of type 0?
fn is_third(a: &Arg) -> bool {
    match a {
        Arg::Site(name, kind) => name.bytes() == b"r".as_slice() && *kind == 0,
        Arg::Param(_) => false,
    }
}

/// Is it a point, with y as its second coordinate?
fn is_point(site: &Site) -> bool {
    let [_, y] = site.coords.as_slice() else {
        return false;
    };
    site.name.bytes() == b"point".as_slice()
        && y.name.bytes() == b"y".as_slice()
        && y.lo == -1000
        && y.hi == 1000
}

/// Is it the orientation of three points in the plane?
fn is_orient(pred: &Pred) -> bool {
    let [_, _, r] = pred.args.as_slice() else {
        return false;
    };
    pred.name.bytes() == b"orient".as_slice()
        && pred.shape.sites == 3
        && pred.shape.vars.len() == 6
        && is_third(r)
        && is_determinant(&pred.root)
}

/// Is it the table of ORIENT?
fn is_orients(table: &Table) -> bool {
    let [site] = table.sites.as_slice() else {
        return false;
    };
    let [pred] = table.preds.as_slice() else {
        return false;
    };
    is_point(site) && is_orient(pred)
}

/// Is it the table of SQUARES?
fn is_squares(table: &Table) -> bool {
    match table.preds.as_slice() {
        [pred] => is_of_squares(&pred.root),
        _ => false,
    }
}

/// Is it the table of SCALED?
fn is_scaleds(table: &Table) -> bool {
    let [pred] = table.preds.as_slice() else {
        return false;
    };
    match pred.lets.as_slice() {
        [of] => is_negated_square(of) && is_scaled(&pred.root),
        _ => false,
    }
}

/// Is this the table's text?
fn is_text_of(alloc: Global, table: &Table, want: &str) -> bool {
    match print(alloc, table) {
        Ok(text) => text.as_slice() == want.as_bytes(),
        Err(_) => false,
    }
}

/// Is it a source whose table has this text?
fn is_printed(alloc: Global, source: &str, want: &str) -> bool {
    match read(alloc, source) {
        Some(table) => is_text_of(alloc, &table, want),
        None => false,
    }
}

#[test]
fn a_source_has_its_table(rt: HostRuntime) {
    let orient = match read(rt.alloc(), ORIENT) {
        Some(table) => is_orients(&table),
        None => false,
    };
    assert!(rt; orient);
}

#[test]
fn powers_lets_minus_and_params_are_in_the_table(rt: HostRuntime) {
    let squares = match read(rt.alloc(), SQUARES) {
        Some(table) => is_squares(&table),
        None => false,
    };
    let scaled = match read(rt.alloc(), SCALED) {
        Some(table) => is_scaleds(&table),
        None => false,
    };
    assert!(rt; squares && scaled);
}

/// Sources, and the texts of their tables.
const PRINTED: &[(&str, &str)] = &[(SQUARES, SQUARES), (ALL, ALL), (OTHERWISE, ALL)];

#[test]
fn a_table_has_its_canonical_text(rt: HostRuntime) {
    for (source, text) in PRINTED {
        assert!(rt; is_printed(rt.alloc(), source, text));
    }
}
