//! Names, columns, numbers of variables, params and exponents.
use ln_base::NoMemory;
use ln_base::word::is_name;
use ln_tree::layout::number_in;
use ln_tree::{Exps, Name, Pred, Shape, Table, Var};
use ln_trial_programs::sample::{ORIENT, compiled};
use std::alloc::Global;
use std::test::Fail;

#[test]
fn calls_of_tables_have_their_types(_rt: HostRuntime) {
    let _: fn(&[u8]) -> Name = Name::of;
    let _: fn(&Pred, Var) -> u8 = Pred::number;
    let _: fn(&Pred, Global, &Table, usize) -> Result<Vec<u8>, NoMemory> = Pred::column;
    let _: fn(Global) -> Exps = Exps::new;
    let _: fn(&mut Exps, u8, u8) -> Result<(), NoMemory> = Exps::push;
    let _: fn(&Exps, Global) -> Result<Exps, NoMemory> = Exps::copy;
    let _: fn(&Shape, Global) -> Result<Shape, NoMemory> = Shape::copy;
}

const SCALED: &str = "param c: 0 .. 5;
site num { t: -10 .. 10; }
predicate z(a: num, c: param) { sign c * a.t; }
";

// Is the name of these bytes theirs?
fn is_named(bytes: &[u8]) -> bool {
    if bytes.len() > 32 || !is_name(bytes) {
        return false;
    }
    Name::of(bytes).bytes() == bytes
}

#[test]
fn a_name_has_its_bytes(rt: HostRuntime) {
    assert!(rt; is_named(b"orient") && !is_named(b"site"));
}

// Is this the name of a column of the one predicate?
fn is_column(alloc: Global, t: &Table, i: usize, want: &[u8]) -> Result<bool, NoMemory> {
    match t.preds.as_slice() {
        [p] => Ok(p.column(alloc, t, i)?.as_slice() == want),
        _ => Ok(false),
    }
}

// The same of the one predicate of a source.
fn has_column(alloc: Global, source: &str, i: usize, want: &[u8]) -> Result<bool, NoMemory> {
    match compiled(alloc, source)? {
        Some(c) => is_column(alloc, c.table(), i, want),
        None => Ok(false),
    }
}

#[test]
fn columns_have_the_names_of_sites_coordinates_and_params(rt: HostRuntime) -> Result<(), Fail> {
    let alloc = rt.alloc();
    assert!(rt; has_column(alloc, ORIENT, 4, b"q.x")? && has_column(alloc, ORIENT, 3, b"q")?);
    assert!(rt; has_column(alloc, SCALED, 2, b"c")?);
    Ok(())
}

// The number of a variable of a predicate; none where it has no such variable.
fn numbered(p: &Pred, v: Var) -> Option<u8> {
    let vars = p.shape.vars.as_slice();
    if number_in(vars, v) < vars.len() {
        Some(p.number(v))
    } else {
        None
    }
}

// The same of the one predicate of a source.
fn number_of(alloc: Global, source: &str, arg: u8, coord: u8) -> Result<Option<u8>, NoMemory> {
    match compiled(alloc, source)? {
        Some(c) => {
            match c.table().preds.as_slice() {
                [p] => Ok(numbered(p, Var { arg, coord })),
                _ => Ok(None),
            }
        }
        None => Ok(None),
    }
}

#[test]
fn variables_are_numbered_by_argument_and_coordinate(rt: HostRuntime) -> Result<(), Fail> {
    let alloc = rt.alloc();
    assert!(rt; number_of(alloc, ORIENT, 0, 0)? == Some(0));
    assert!(rt; number_of(alloc, ORIENT, 2, 1)? == Some(5));
    assert!(rt; number_of(alloc, SCALED, 1, 0)? == Some(1));
    assert!(rt; number_of(alloc, SCALED, 0, 1)?.is_none());
    Ok(())
}

// Exponents of two variables, and a copy of them.
fn two_exponents(alloc: Global) -> Result<(Exps, Exps), NoMemory> {
    let mut a = Exps::new(alloc);
    a.push(1, 1)?;
    a.push(4, 2)?;
    let b = a.copy(alloc)?;
    Ok((a, b))
}

#[test]
fn a_copy_of_exponents_has_their_pairs(rt: HostRuntime) -> Result<(), Fail> {
    let (a, b) = two_exponents(rt.alloc())?;
    assert!(rt; b.pairs() == [(1u8, 1u8), (4, 2)].as_slice() && a.pairs() == b.pairs());
    Ok(())
}

// Is it the shape of three points in the plane?
fn is_of_points(s: &Shape) -> bool {
    match s.vars.as_slice() {
        [_, _, _, _, _, v] => {
            s.sites == 3
                && s.name.bytes() == b"orient".as_slice()
                && v.site == Some(2)
                && v.coord == 1
                && v.lo == -1000
                && v.hi == 1000
        }
        _ => false,
    }
}

// Is a copy of the one predicate's shape that of three points?
fn is_copied(alloc: Global, preds: &[Pred]) -> Result<bool, NoMemory> {
    match preds {
        [p] => Ok(is_of_points(&p.shape.copy(alloc)?)),
        _ => Ok(false),
    }
}

// The same of a source.
fn has_copied_shape(alloc: Global, source: &str) -> Result<bool, NoMemory> {
    match compiled(alloc, source)? {
        Some(c) => is_copied(alloc, c.table().preds.as_slice()),
        None => Ok(false),
    }
}

#[test]
fn a_copy_of_a_shape_has_its_name_and_its_variables(rt: HostRuntime) -> Result<(), Fail> {
    assert!(rt; has_copied_shape(rt.alloc(), ORIENT)?);
    Ok(())
}
