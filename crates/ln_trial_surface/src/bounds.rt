//! Pairs of ends, and the sizes, ranges and widths of predicates.
use ln_base::NoMemory;
use ln_bound::size::size;
use ln_bound::weigh::weigh;
use ln_bound::{BoundStop, Fitted, FittedPred, Weights};
use ln_interval::Pair;
use ln_tree::Pred;
use std::alloc::Global;

#[test]
fn calls_of_ranges_and_widths_have_their_types(_rt: HostRuntime) {
    let _: fn(i128, i128) -> Option<Pair> = Pair::new;
    let _: fn(Pair, Pair) -> Option<Pair> = Pair::add;
    let _: fn(Pair, Pair) -> Option<Pair> = Pair::sub;
    let _: fn(Pair, Pair) -> Option<Pair> = Pair::mul;
    let _: fn(Pair, u8) -> Option<Pair> = Pair::power;
    let _: fn(Pair) -> Pair = Pair::neg;
    let _: fn(Pair, Pair) -> bool = Pair::covers;
    let _: fn(Global, &Pred) -> Result<Weights, BoundStop> = weigh;
    let _: fn(&Weights) -> u128 = Weights::root;
    let _: fn(Global, &Pred) -> Result<FittedPred, NoMemory> = size;
    let _: fn(&Fitted, &Fitted) -> bool = Fitted::same;
}
