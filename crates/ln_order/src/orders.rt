//! All orders of n sites.
ghost use Rattle.std.specs.Prelude.{◌≡◌, ◌<◌, ◌≤◌, ◌+◌, Some, IfOk, length, map, slice_get, All};
ghost use Rattle.ln_order.specs.Orders.{OrdersAreAll, behind, firsts, orders_of, past, smaller_behind};
ghost use Rattle.ln_order.specs.Places.{order_places};

use crate::order::Order;
use ln_base::{NoMemory, Seq};
use std::alloc::Global;

// The place, among all sites, of the one with this place among those other than the first.
pub(crate) fn past(first: u8, place: u8) -> u8
    requires { place < 5 }
    ensures { result ≡ past first place }
{
    if place < first { place } else { place + 1 }
}

// The first site before the others in this order.
fn behind(first: u8, others: &Order) -> Order
    requires few { length (order_places others.now) < 5 }
    requires first { first ≤ length (order_places others.now) }
    ensures { order_places result ≡ behind first (order_places others.now) }
{
    let others = others.places();
    let mut places = [first; 5];
    'places: for (i, place) in others.iter().enumerate() {
        places[i + 1] = past(first, *place);
    }
    Order::of(places, others.len() as u8 + 1)
}

// Each of the first k sites in turn before each order of the others.
fn longer(alloc: Global, k: u8, others: &[Order]) -> Result<Seq<Order>, NoMemory>
    requires few { k ≤ 5 }
    requires size { All (λ o. length (order_places o) + 1 ≡ k) others.now }
    ensures { IfOk result (λ all. map order_places all ≡ firsts k (map order_places others.now)) }
{
    let mut all = Seq::new(alloc);
    'firsts: for first in 0..k {
        'others: for o in others {
            all.push(behind(first, o))?;
        }
    }
    Ok(all)
}

/// All orders of k sites, of at most five, sorted as lists of places.
pub fn all_orders(alloc: Global, k: u8) -> Result<Seq<Order>, NoMemory>
    requires { k ≤ 5 }
    ensures { IfOk result (λ all. map order_places all ≡ orders_of k) }
{
    let mut all = Seq::new(alloc);
    all.push(Order::of([0; 5], 0))?;
    'sites: for sites in 0..k {
        all = longer(alloc, sites + 1, all.as_slice())?;
    }
    Ok(all)
}

// How many of these places are below one.
pub(crate) fn smaller(first: u8, others: &[u8]) -> usize
    ensures { result ≡ smaller_behind first others.now }
{
    others.iter().filter(|place| **place < first).count()
}

impl Order {
    /// The place of the order, from 0, among all orders of as many sites. It allocates nothing.
    pub fn number(&self) -> usize
        ensures { slice_get (orders_of (length (order_places self.now))) result ≡ Some (order_places self.now) }
    {
        let places = self.places();
        let mut number = 0;
        'places: for (i, place) in places.iter().enumerate() {
            let others = &places[i + 1..];
            number = number * (others.len() + 1) + smaller(*place, others);
        }
        number
    }
}

/// The orders that `all_orders` returns are all, each once.
///
/// On it rests that a row, whatever its indices, has a list of stages of its own.
pub fn orders_are_all()
    ensures { OrdersAreAll }
{}
