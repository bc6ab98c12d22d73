//! All prefixes of orders of n sites, and their numbers.
ghost use Rattle.std.specs.Prelude.{◌≡◌, ◌<◌, ◌≤◌, ◌∷◌, [], All, IfOk, Some, length, map, slice_get, take};
ghost use Rattle.ln_order.specs.Fronts.{front_places};
ghost use Rattle.ln_order.specs.Orders.{behind, firsts};
ghost use Rattle.ln_order.specs.Places.{order_places};
ghost use Rattle.ln_order.specs.Prefixes.{FrontsArePrefixes, FrontsFollow, PrefixesAreAll, beside, prefixes_of, tree_size};

use crate::front::Front;
use crate::order::Order;
use crate::orders::{past, smaller};
use ln_base::{NoMemory, Seq};
use std::alloc::Global;

// The first site before the others in this prefix.
fn behind(first: u8, others: &Front) -> Front
    requires few { length (front_places others.now) < 5 }
    requires below { All (λ x. x < 5) (front_places others.now) }
    ensures { front_places result ≡ behind first (front_places others.now) }
{
    let others = others.places();
    let mut places = [first; 5];
    'places: for (i, place) in others.iter().enumerate() {
        places[i + 1] = past(first, *place);
    }
    Front::of(places, others.len() as u8 + 1)
}

// The empty prefix, and each of the first k sites in turn before each prefix of the others.
fn longer(alloc: Global, k: u8, others: &[Front]) -> Result<Seq<Front>, NoMemory>
    requires few { k ≤ 5 }
    requires size { All (λ p. length (front_places p) < 5) others.now }
    requires below { All (λ p. All (λ x. x < 5) (front_places p)) others.now }
    ensures { IfOk result (λ all. map front_places all ≡ [] ∷ firsts k (map front_places others.now)) }
{
    let mut all = Seq::new(alloc);
    all.push(Front::of([0; 5], 0))?;
    'firsts: for first in 0..k {
        'others: for p in others {
            all.push(behind(first, p))?;
        }
    }
    Ok(all)
}

/// All prefixes of orders of k sites, of at most five, sorted as lists of places, each before its extensions.
pub fn all_prefixes(alloc: Global, k: u8) -> Result<Seq<Front>, NoMemory>
    requires { k ≤ 5 }
    ensures { IfOk result (λ all. map front_places all ≡ prefixes_of k) }
{
    let mut all = Seq::new(alloc);
    all.push(Front::of([0; 5], 0))?;
    'sites: for sites in 0..k {
        all = longer(alloc, sites + 1, all.as_slice())?;
    }
    Ok(all)
}

// How many prefixes the orders of k sites have.
fn tree_size(k: usize) -> u32
    requires { k ≤ 4 }
    ensures { result ≡ tree_size k }
{
    match k {
        0 => 1,
        1 => 2,
        2 => 5,
        3 => 16,
        _ => 65,
    }
}

/// The number of the prefix of the first j places, from 0, among all prefixes of orders of as many sites, sorted as lists. It
/// allocates nothing.
pub fn prefix_number(o: &Order, j: u8) -> u32
    requires { j ≤ length (order_places o.now) }
    ensures value { slice_get (prefixes_of (length (order_places o.now))) result ≡ Some (take j (order_places o.now)) }
    ensures small { result < tree_size (length (order_places o.now)) }
{
    let places = o.places();
    let mut number = 0;
    'places: for i in 0..usize::from(j) {
        let others = &places[i + 1..];
        number += 1 + smaller(places[i], others) as u32 * tree_size(others.len());
    }
    number
}

/// The list of the first j places, from 0, of lists for all prefixes of orders of as many sites, in the order of `all_prefixes`. It allocates
/// nothing.
pub fn at_prefix<'a>(lists: &'a [Seq<u32>], o: &Order, j: u8) -> &'a [u32]
    requires size { length lists.now ≡ length (prefixes_of (length (order_places o.now))) }
    requires within { j ≤ length (order_places o.now) }
    ensures { result.now ≡ beside (prefixes_of (length (order_places o.now))) lists.now (take j (order_places o.now)) }
{
    lists[prefix_number(o, j) as usize].as_slice()
}

/// The prefixes are the first places of the orders, each once, sorted as lists, each before its extensions.
pub fn prefixes_are_all()
    ensures { PrefixesAreAll }
{}

/// Two orders give one number where the prefixes are one, and there alone.
pub fn fronts_are_prefixes()
    ensures { FrontsArePrefixes }
{}

/// Each prefix shares with the one before it all but its own last place.
pub fn fronts_follow()
    ensures { FrontsFollow }
{}
