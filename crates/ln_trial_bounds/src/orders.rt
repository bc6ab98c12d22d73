//! The order of a row's sites, all orders of this many sites with their prefixes, and which exponents are earlier in one.
ghost use Rattle.std.specs.Prelude.{◌≡◌, length};
ghost use Rattle.ln_order.specs.Places.{order_places};

use crate::sources::table;
use ln_base::NoMemory;
use ln_order::{Front, Order, all_orders, all_prefixes, earlier, order_of, prefix_number, ranking};
use ln_tree::{Exps, Pred, Shape, is_shape};
use std::alloc::Global;

// One site of two coordinates.
const PLANE: &str =
    "site plane { x: -9 .. 9; y: -9 .. 9; } predicate of(a: plane) { sign a.x*a.y; }";

/// Is this the order of the sites with these indices?
fn is_order(indices: [i64; 3], places: [u8; 3]) -> bool {
    match order_of(&indices) {
        Ok(order) => order.places() == places.as_slice(),
        Err(_) => false,
    }
}

/// The place of the first site whose index is that of an earlier one.
fn equal_at(indices: [i64; 2]) -> Option<u8> {
    match order_of(&indices) {
        Ok(_) => None,
        Err(equal) => Some(equal.0),
    }
}

#[test]
fn places_stand_by_rising_index(rt: HostRuntime) {
    assert!(rt; is_order([2, 1, 3], [1, 0, 2]) && matches!(equal_at([4, 4]), Some(1)));
}

/// The exponents of a variable alone.
fn alone(alloc: Global, v: u8) -> Result<Exps, NoMemory> {
    let mut e = Exps::new(alloc);
    e.push(v, 1)?;
    Ok(e)
}

/// Are the exponents of coordinate 1 alone earlier than these, and not the other way round?
fn is_last_before(alloc: Global, o: &Order, s: &Shape, x: &Exps) -> bool
    requires { length (order_places o.now) ≡ s.now.sites }
{
    match alone(alloc, 1) {
        Ok(y) => earlier(o, s, &y, x) && !earlier(o, s, x, &y),
        Err(_) => false,
    }
}

/// Is coordinate 1 alone earlier than coordinate 0 alone?
fn is_last_earlier(alloc: Global, o: &Order, s: &Shape) -> bool
    requires { length (order_places o.now) ≡ s.now.sites }
{
    match alone(alloc, 0) {
        Ok(x) => is_last_before(alloc, o, s, &x),
        Err(_) => false,
    }
}

/// Is the ranking that of coordinate 0 before coordinate 1?
fn is_ranked(alloc: Global, o: &Order, s: &Shape) -> bool
    requires { length (order_places o.now) ≡ s.now.sites }
{
    match ranking(alloc, o, s) {
        Ok(vars) => vars.as_slice() == [0u8, 1].as_slice(),
        Err(_) => false,
    }
}

/// Has the second coordinate of the one site the larger infinitesimal?
fn is_largest_last(alloc: Global, preds: &[Pred]) -> bool {
    let o = Order::of_arguments(1);
    match preds {
        [p] if p.shape.sites == 1 => {
            is_shape(1, p.shape.vars.as_slice())
                && is_last_earlier(alloc, &o, &p.shape)
                && is_ranked(alloc, &o, &p.shape)
        }
        _ => false,
    }
}

/// Has the second coordinate of the plane the larger infinitesimal?
fn is_plane(alloc: Global) -> bool {
    match table(alloc, PLANE) {
        Some(t) => is_largest_last(alloc, t.preds.as_slice()),
        None => false,
    }
}

#[test]
fn the_last_coordinate_is_the_largest(rt: HostRuntime) {
    assert!(rt; is_plane(rt.alloc()));
}

/// Is it the order of these places with this number?
fn is_of_two(order: &Order, places: [u8; 2], number: usize) -> bool {
    order.places() == places.as_slice() && order.number() == number
}

/// Are there two orders of two sites, numbered from 0?
fn has_two_orders(alloc: Global) -> bool {
    match all_orders(alloc, 2) {
        Ok(all) => match all.as_slice() {
            [a, b] => is_of_two(a, [0, 1], 0) && is_of_two(b, [1, 0], 1),
            _ => false,
        },
        Err(_) => false,
    }
}

#[test]
fn two_sites_have_two_orders(rt: HostRuntime) {
    assert!(rt; has_two_orders(rt.alloc()));
}

/// Are these the places of the prefix?
fn has_places(p: &Front, places: &[u8]) -> bool {
    p.places() == places
}

/// Are these the prefixes of the orders of two sites?
fn are_of_two(all: &[Front]) -> bool {
    match all {
        [none, a, ab, b, ba] => {
            has_places(none, &[])
                && has_places(a, &[0])
                && has_places(ab, &[0, 1])
                && has_places(b, &[1])
                && has_places(ba, &[1, 0])
        }
        _ => false,
    }
}

/// Have two sites their five prefixes?
fn has_prefixes_of_two(alloc: Global) -> bool {
    match all_prefixes(alloc, 2) {
        Ok(two) => are_of_two(two.as_slice()),
        Err(_) => false,
    }
}

/// How many prefixes the orders of five sites have.
fn prefixes_of_five(alloc: Global) -> Result<usize, NoMemory> {
    let all = all_prefixes(alloc, 5)?;
    Ok(all.len())
}

#[test]
fn five_sites_have_326_prefixes(rt: HostRuntime) {
    let alloc = rt.alloc();
    assert!(rt; matches!(prefixes_of_five(alloc), Ok(326)) && has_prefixes_of_two(alloc));
}

/// Is the order of three sites found site by site, and have its prefixes their numbers?
fn is_found(indices: [i64; 3]) -> bool {
    let one = Order::of_arguments(3).found(0, &indices);
    let two = one.found(1, &indices);
    two.places() == [1u8, 0, 2].as_slice()
        && prefix_number(&two, 0) == 0
        && prefix_number(&two, 2) == 7
}

#[test]
fn sites_are_found_one_by_one(rt: HostRuntime) {
    assert!(rt; is_found([2, 1, 3]));
}
