//! Orders of sites and their prefixes, and the stages of a polynomial.
use ln_base::{NoMemory, Seq};
use ln_order::{Equal, Order, all_orders, earlier, order_of, prefix_number};
use ln_poly::Poly;
use ln_stage::{StageStop, Stages, stages};
use ln_tree::{Exps, Shape};
use std::alloc::Global;

#[test]
fn calls_of_orders_and_stages_have_their_types(_rt: HostRuntime) {
    let _: fn(&[i64]) -> Result<Order, Equal> = order_of;
    let _: fn(&Order, &Shape, &Exps, &Exps) -> bool = earlier;
    let _: fn(Global, u8) -> Result<Seq<Order>, NoMemory> = all_orders;
    let _: fn(&Order, u8) -> u32 = prefix_number;
    let _: fn(Global, &Poly, &Shape, u64, u64) -> Result<Stages, StageStop> = stages;
    let _: fn(&Stages) -> u64 = Stages::count;
    let _: fn(&Stages) -> usize = Stages::blocks;
}
