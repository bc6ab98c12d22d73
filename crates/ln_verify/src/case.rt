//! A predicate of the source, with what its part is judged by.
use ln_base::Seq;
use ln_order::Order;
use ln_poly::Poly;
use ln_stage::Stages;
use ln_tree::Shape;

/// A predicate of the source: its shape, its normal polynomial and the stages of that, which are lent, and all orders of its sites.
#[derive(Drop)]
pub struct Case<'a> {
    pub shape: &'a Shape,
    pub poly: &'a Poly,
    pub stages: &'a Stages,
    pub orders: Seq<Order>,
}
