//! The canonical text of tables.
ghost use Rattle.std.specs.Prelude.{◌≡◌, [], ℕ, List, map, slice_get, unwrap_or, IfOk};
ghost use Rattle.ln_tree.specs.Names.{name_bytes};
ghost use Rattle.ln_tree.specs.Formula.{formula};
ghost use Rattle.ln_tree.specs.Table.{TableOf, table_of, site_of, coord_of, param_of, arg_of, pred_of};
ghost use Rattle.ln_base.specs.Lines.{Appends};
ghost use Rattle.ln_parse.specs.Lexemes.{text_of, lexemes_in, name as name_token, opening, closing, signed, each};
ghost use Rattle.ln_parse.specs.Written.{Naming, naming, written, input, range_name, site_name, coord_name};
ghost use Rattle.ln_parse.specs.Canonical.{fits, wrap, inside, between, left_room, right_room, ranged, coord, site, param, arg};
ghost use Rattle.ln_parse.specs.Canonical.{further, args, let_of, lets, root, pred, canonical};
ghost use Rattle.ln_parse.specs.ReadsBack.{TableNamed, ReadsBack};
ghost use Rattle.ln_parse.specs.Spanless.{IsTextUpToSpans, table_spanless};
ghost use Rattle.ln_parse.specs.Text.{TextOf};
ghost use Rattle.ln_parse.specs.WholeTable.{IsWhole};

use ln_base::NoMemory;
use ln_base::put::{put, put_digits};
use ln_tree::{Arg, Coord, Expr, Name, Node, Param, Pred, Site, Table, Var};
use std::alloc::Global;

/// What may be written at a place without parentheses: anything, as between parentheses; a product, a negation or a power, as
/// to the right of `+`; a negation or a power, as to the right of `*`; only a number, a name or an input, as before `^`.
#[derive(Clone, Copy)]
pub enum Room {
    OfSum,
    OfProduct,
    OfUnary,
    OfAtom,
}

/// The canonical text of a table: its site types, then its params, then its predicates, each on a line. It is a text of
/// this table but for its spans, so that by `printed_text_has_one_table` `parse` returns the table again.
pub fn print(alloc: Global, t: &Table) -> Result<Vec<u8>, NoMemory>
    ensures exact { IfOk result (λ v. v.items ≡ canonical (table_of t.now.sites t.now.params t.now.preds)) }
    ensures table { IfOk result (λ v. IsTextUpToSpans v.items (table_of t.now.sites t.now.params t.now.preds)) }
{
    canonical_text(alloc, t)
}

fn canonical_text(alloc: Global, t: &Table) -> Result<Vec<u8>, NoMemory>
    ensures { IfOk result (λ v. v.items ≡ canonical (table_of t.now.sites t.now.params t.now.preds)) }
{
    let mut out = Vec::new(alloc);
    put_sites(&mut out, t.sites.as_slice())?;
    put_params(&mut out, t.params.as_slice())?;
    put_preds(&mut out, t)?;
    Ok(out)
}

/// A law: the canonical text of a table, all of whose names are names of the language, is tokens that spell the table's
/// site types, params and predicates, each written with its names.
#[tactic(auto, using(crate::proofs::Texts::ClearText::reads_back))]
pub fn canonical_text_reads_back()
    ensures { (t : TableOf) → TableNamed t → ReadsBack (canonical t) t }
{}

/// A law: the canonical text of a table within the limits of the language, whose names are names of their own, is a text
/// of this table up to spans.
#[tactic(auto, using(crate::proofs::Wholes::HasTable::has_table))]
pub fn canonical_text_has_its_table()
    ensures { (t : TableOf) → IsWhole t → IsTextUpToSpans (canonical t) t }
{}

/// A law: bytes that are a text of a table up to spans have no other table up to spans.
pub fn printed_text_has_one_table()
    ensures { (bytes : List ℕ) (t u : TableOf) → IsTextUpToSpans bytes t → TextOf bytes u → table_spanless u ≡ table_spanless t }
{}

// Appends the tokens of a text that parts them by blanks, and its blanks.
fn put_tokens(out: &mut Vec<u8>, text: &[u8]) -> Result<(), NoMemory>
    ensures { IfOk result (λ x. Appends text_of out.old.items out.new.items (lexemes_in [] text.now)) }
{
    put(out, text)
}

fn put_name(out: &mut Vec<u8>, n: &Name) -> Result<(), NoMemory>
    ensures { IfOk result (λ x. Appends text_of out.old.items out.new.items (name_token (name_bytes n.now))) }
{
    put(out, n.bytes())
}

fn put_signed(out: &mut Vec<u8>, z: i64) -> Result<(), NoMemory>
    ensures { IfOk result (λ x. Appends text_of out.old.items out.new.items (signed z)) }
{
    if z < 0 {
        put(out, b"-")?;
    }
    put_digits(out, u128::from(z.unsigned_abs()))
}

fn put_sites(out: &mut Vec<u8>, sites: &[Site]) -> Result<(), NoMemory>
    ensures { IfOk result (λ x. Appends text_of out.old.items out.new.items (each site (map site_of sites.now))) }
{
    'sites: for s in sites {
        put_site(out, s)?;
    }
    Ok(())
}

fn put_site(out: &mut Vec<u8>, s: &Site) -> Result<(), NoMemory>
    ensures { IfOk result (λ x. Appends text_of out.old.items out.new.items (site (site_of s.now))) }
{
    put_tokens(out, b"site ")?;
    put_name(out, &s.name)?;
    put_tokens(out, b" { ")?;
    put_coords(out, s.coords.as_slice())?;
    put_tokens(out, b"}\n")
}

fn put_coords(out: &mut Vec<u8>, coords: &[Coord]) -> Result<(), NoMemory>
    ensures { IfOk result (λ x. Appends text_of out.old.items out.new.items (each coord (map coord_of coords.now))) }
{
    'coords: for c in coords {
        put_coord(out, c)?;
    }
    Ok(())
}

fn put_coord(out: &mut Vec<u8>, c: &Coord) -> Result<(), NoMemory>
    ensures { IfOk result (λ x. Appends text_of out.old.items out.new.items (coord (coord_of c.now))) }
{
    put_range(out, &c.name, c.lo, c.hi)?;
    put_tokens(out, b" ")
}

fn put_range(out: &mut Vec<u8>, name: &Name, lo: i64, hi: i64) -> Result<(), NoMemory>
    ensures { IfOk result (λ x. Appends text_of out.old.items out.new.items (ranged (record { name = name_bytes name.now; lo = lo; hi = hi }))) }
{
    put_name(out, name)?;
    put_tokens(out, b": ")?;
    put_signed(out, lo)?;
    put_tokens(out, b" .. ")?;
    put_signed(out, hi)?;
    put_tokens(out, b";")
}

fn put_params(out: &mut Vec<u8>, params: &[Param]) -> Result<(), NoMemory>
    ensures { IfOk result (λ x. Appends text_of out.old.items out.new.items (each param (map param_of params.now))) }
{
    'params: for p in params {
        put_param(out, p)?;
    }
    Ok(())
}

fn put_param(out: &mut Vec<u8>, p: &Param) -> Result<(), NoMemory>
    ensures { IfOk result (λ x. Appends text_of out.old.items out.new.items (param (param_of p.now))) }
{
    put_tokens(out, b"param ")?;
    put_range(out, &p.name, p.lo, p.hi)?;
    put_tokens(out, b"\n")
}

fn put_preds(out: &mut Vec<u8>, t: &Table) -> Result<(), NoMemory>
    ensures { IfOk result (λ x. Appends text_of out.old.items out.new.items (each (pred (table_of t.now.sites t.now.params t.now.preds))
        (map pred_of t.now.preds))) }
{
    let preds = t.preds.as_slice();
    'preds: for p in preds {
        put_pred(out, t, p)?;
    }
    Ok(())
}

fn put_pred(out: &mut Vec<u8>, t: &Table, p: &Pred) -> Result<(), NoMemory>
    ensures { IfOk result (λ x. Appends text_of out.old.items out.new.items (pred (table_of t.now.sites t.now.params t.now.preds) (pred_of p.now))) }
{
    put_tokens(out, b"predicate ")?;
    put_name(out, &p.name)?;
    put_tokens(out, b"(")?;
    put_args(out, t, p.args.as_slice())?;
    put_tokens(out, b") { ")?;
    put_lets(out, t, p)?;
    put_root(out, t, p)
}

fn put_args(out: &mut Vec<u8>, t: &Table, list: &[Arg]) -> Result<(), NoMemory>
    ensures { IfOk result (λ x. Appends text_of out.old.items out.new.items (args (table_of t.now.sites t.now.params t.now.preds)
        (map arg_of list.now))) }
{
    match list {
        [] => Ok(()),
        [first, rest @ ..] => {
            put_arg(out, t, first)?;
            put_further(out, t, rest)
        }
    }
}

fn put_further(out: &mut Vec<u8>, t: &Table, list: &[Arg]) -> Result<(), NoMemory>
    ensures { IfOk result (λ x. Appends text_of out.old.items out.new.items (each (further (table_of t.now.sites t.now.params t.now.preds))
        (map arg_of list.now))) }
{
    'args: for a in list {
        put_next(out, t, a)?;
    }
    Ok(())
}

fn put_next(out: &mut Vec<u8>, t: &Table, a: &Arg) -> Result<(), NoMemory>
    ensures { IfOk result (λ x. Appends text_of out.old.items out.new.items (further (table_of t.now.sites t.now.params t.now.preds)
        (arg_of a.now))) }
{
    put_tokens(out, b", ")?;
    put_arg(out, t, a)
}

fn put_arg(out: &mut Vec<u8>, t: &Table, a: &Arg) -> Result<(), NoMemory>
    ensures { IfOk result (λ x. Appends text_of out.old.items out.new.items (arg (table_of t.now.sites t.now.params t.now.preds) (arg_of a.now))) }
{
    match a {
        Arg::Site(name, s) => {
            put_name(out, name)?;
            put_tokens(out, b": ")?;
            put(out, site_name(t, *s))
        }
        Arg::Param(p) => {
            put(out, param_name(t, *p))?;
            put_tokens(out, b": param")
        }
    }
}

// The name of the site type of this number.
#[tactic(auto, using(crate::proofs::Texts::Putting::found, crate::proofs::Texts::Putting::missing))]
fn site_name(t: &Table, s: u8) -> &[u8]
    ensures { result.now ≡ site_name (slice_get (map site_of t.now.sites) s) }
{
    match t.sites.get(usize::from(s)) {
        Some(site) => site.name.bytes(),
        None => &[],
    }
}

// The name of the param of this number.
#[tactic(auto, using(crate::proofs::Texts::Putting::found, crate::proofs::Texts::Putting::missing))]
fn param_name(t: &Table, p: u8) -> &[u8]
    ensures { result.now ≡ range_name (slice_get (map param_of t.now.params) p) }
{
    match t.params.get(usize::from(p)) {
        Some(param) => param.name.bytes(),
        None => &[],
    }
}

// The name of coordinate c of a site type.
#[tactic(auto, using(crate::proofs::Texts::Putting::found, crate::proofs::Texts::Putting::missing))]
fn coord_of_site(s: &Site, c: u8) -> &[u8]
    ensures { result.now ≡ range_name (slice_get (map coord_of s.now.coords) c) }
{
    match s.coords.get(usize::from(c)) {
        Some(coord) => coord.name.bytes(),
        None => &[],
    }
}

// The name of coordinate c of the site type of this number.
fn coord_name(t: &Table, s: u8, c: u8) -> &[u8]
    ensures { result.now ≡ coord_name (slice_get (map site_of t.now.sites) s) c }
{
    match t.sites.get(usize::from(s)) {
        Some(site) => coord_of_site(site, c),
        None => &[],
    }
}

// The name of the let of this number.
fn let_name(p: &Pred, j: u8) -> &[u8]
    ensures { result.now ≡ unwrap_or (slice_get (map name_bytes p.now.let_names) j) [] }
{
    match p.let_names.get(usize::from(j)) {
        Some(name) => name.bytes(),
        None => &[],
    }
}

fn put_lets(out: &mut Vec<u8>, t: &Table, p: &Pred) -> Result<(), NoMemory>
    ensures { IfOk result (λ x. Appends text_of out.old.items out.new.items
        (lets (naming (table_of t.now.sites t.now.params t.now.preds) (pred_of p.now)) (map name_bytes p.now.let_names)
        (map formula p.now.lets))) }
{
    let names = p.let_names.as_slice();
    let values = p.lets.as_slice();
    'lets: for (name, e) in names.iter().zip(values) {
        put_let(out, t, p, name, e)?;
    }
    Ok(())
}

fn put_let(out: &mut Vec<u8>, t: &Table, p: &Pred, named: &Name, e: &Expr) -> Result<(), NoMemory>
    ensures { IfOk result (λ x. Appends text_of out.old.items out.new.items
        (let_of (naming (table_of t.now.sites t.now.params t.now.preds) (pred_of p.now)) (name_bytes named.now) (formula e.now))) }
{
    put_tokens(out, b"let ")?;
    put_name(out, named)?;
    put_tokens(out, b" = ")?;
    put_expr(out, t, p, Room::OfSum, e)?;
    put_tokens(out, b"; ")
}

fn put_root(out: &mut Vec<u8>, t: &Table, p: &Pred) -> Result<(), NoMemory>
    ensures { IfOk result (λ x. Appends text_of out.old.items out.new.items
        (root (naming (table_of t.now.sites t.now.params t.now.preds) (pred_of p.now)) (formula p.now.root))) }
{
    put_tokens(out, b"sign ")?;
    put_expr(out, t, p, Room::OfSum, &p.root)?;
    put_tokens(out, b"; }\n")
}

fn put_input(out: &mut Vec<u8>, t: &Table, p: &Pred, v: Var) -> Result<(), NoMemory>
    ensures { IfOk result (λ x. Appends text_of out.old.items out.new.items
        (inside (input (naming (table_of t.now.sites t.now.params t.now.preds) (pred_of p.now))
        (slice_get (map arg_of p.now.args) v.arg) v.coord))) }
{
    match p.args.get(usize::from(v.arg)) {
        Some(Arg::Site(name, s)) => {
            put_name(out, name)?;
            put_tokens(out, b".")?;
            put(out, coord_name(t, *s, v.coord))
        }
        Some(Arg::Param(k)) => put(out, param_name(t, *k)),
        None => Ok(()),
    }
}

// May the expression be written here without parentheses?
fn stands(room: Room, e: &Expr) -> bool
    ensures { (n : Naming) → result ≡ fits room (written n (formula e.now)) }
{
    match &e.node {
        Node::Num(_) | Node::Input(_) | Node::Name(_) => true,
        Node::Neg(_) | Node::Pow(_, _) => !matches!(room, Room::OfAtom),
        Node::Mul(_, _) => matches!(room, Room::OfSum | Room::OfProduct),
        Node::Add(_, _) | Node::Sub(_, _) => matches!(room, Room::OfSum),
    }
}

fn open(out: &mut Vec<u8>, plain: bool) -> Result<(), NoMemory>
    ensures { IfOk result (λ x. Appends text_of out.old.items out.new.items (opening plain)) }
{
    if plain { Ok(()) } else { put(out, b"(") }
}

fn close(out: &mut Vec<u8>, plain: bool) -> Result<(), NoMemory>
    ensures { IfOk result (λ x. Appends text_of out.old.items out.new.items (closing plain)) }
{
    if plain { Ok(()) } else { put(out, b")") }
}

// The room of the left operand of a sum, difference or product.
fn left_room(e: &Expr) -> Room
    ensures { result ≡ left_room (formula e.now) }
{
    match &e.node {
        Node::Mul(_, _) => Room::OfProduct,
        _ => Room::OfSum,
    }
}

// The room of its right operand.
fn right_room(e: &Expr) -> Room
    ensures { result ≡ right_room (formula e.now) }
{
    match &e.node {
        Node::Mul(_, _) => Room::OfUnary,
        _ => Room::OfProduct,
    }
}

// Appends what stands between the two.
fn put_between(out: &mut Vec<u8>, e: &Expr) -> Result<(), NoMemory>
    ensures { IfOk result (λ x. Appends text_of out.old.items out.new.items (between (formula e.now))) }
{
    match &e.node {
        Node::Add(_, _) => put(out, b" + "),
        Node::Sub(_, _) => put(out, b" - "),
        _ => put(out, b"*"),
    }
}

fn put_expr(out: &mut Vec<u8>, t: &Table, p: &Pred, room: Room, e: &Expr) -> Result<(), NoMemory>
    ensures { IfOk result (λ x. Appends text_of out.old.items out.new.items
        (wrap room (written (naming (table_of t.now.sites t.now.params t.now.preds) (pred_of p.now)) (formula e.now))
        (inside (written (naming (table_of t.now.sites t.now.params t.now.preds) (pred_of p.now)) (formula e.now))))) }
{
    let plain = stands(room, e);
    open(out, plain)?;
    let inside = match &e.node {
        Node::Num(c) => put_digits(out, c.unsigned_abs()),
        Node::Input(v) => put_input(out, t, p, *v),
        Node::Name(j) => put(out, let_name(p, *j)),
        Node::Neg(x) => {
            put_tokens(out, b"-")?;
            put_expr(out, t, p, Room::OfUnary, x)
        }
        Node::Add(x, y) | Node::Sub(x, y) | Node::Mul(x, y) => {
            put_expr(out, t, p, left_room(e), x)?;
            put_between(out, e)?;
            put_expr(out, t, p, right_room(e), y)
        }
        Node::Pow(x, n) => {
            put_expr(out, t, p, Room::OfAtom, x)?;
            put_tokens(out, b"^")?;
            put_digits(out, u128::from(*n))
        }
    };
    inside?;
    close(out, plain)
}
