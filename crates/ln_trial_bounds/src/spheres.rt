//! The segments of the insphere predicate: five sites of three coordinates each.
ghost use Rattle.std.specs.Prelude.{◌≡◌, ◌≤◌};

use crate::stages::stages_of;
use ln_order::{Order, all_orders, prefix_number};
use ln_stage::Stages;
use std::alloc::Global;

pub(crate) const SPHERE: &str = "site point { x: -9 .. 9; y: -9 .. 9; z: -9 .. 9; }
predicate insphere(a: point, b: point, c: point, d: point, e: point) {
  let ax = a.x - e.x; let ay = a.y - e.y; let az = a.z - e.z;
  let bx = b.x - e.x; let by = b.y - e.y; let bz = b.z - e.z;
  let cx = c.x - e.x; let cy = c.y - e.y; let cz = c.z - e.z;
  let dx = d.x - e.x; let dy = d.y - e.y; let dz = d.z - e.z;
  let ab = ax*by - bx*ay; let bc = bx*cy - cx*by; let cd = cx*dy - dx*cy;
  let da = dx*ay - ax*dy; let ac = ax*cy - cx*ay; let bd = bx*dy - dx*by;
  let abc = az*bc - bz*ac + cz*ab; let bcd = bz*cd - cz*bd + dz*bc;
  let cda = cz*da + dz*ac + az*cd; let dab = dz*ab + az*bd + bz*da;
  let al = ax^2 + ay^2 + az^2; let bl = bx^2 + by^2 + bz^2;
  let cl = cx^2 + cy^2 + cz^2; let dl = dx^2 + dy^2 + dz^2;
  sign (dl*abc - cl*dab) + (bl*cda - al*bcd);
}
";

/// How many segments there are for the first j places of these orders, and how many members they have together. The orders are sorted,
/// so those with the same first places stand together.
fn segments(st: &Stages, orders: &[Order], j: u8) -> (usize, usize)
    requires sites { st.now.sites ≡ 5 }
    requires places { j ≤ 5 }
{
    let mut last = u32::MAX;
    let mut count = 0usize;
    let mut members = 0usize;
    for o in orders {
        if o.places().len() == 5 {
            let number = prefix_number(o, j);
            if number != last {
                last = number;
                count = count.saturating_add(1);
                members = members.saturating_add(st.segment(o, j).len());
            }
        }
    }
    (count, members)
}

/// Have the segments of 1, 5, 20, 60, 120 and 120 prefixes, by the count of their places, all members? A list has 223: 1 without a site,
/// 6 more with the first, 33 with the second, 138 with the third and 45 with the fourth; so the 326 segments have 1 + 5 * 6 + 20 * 33 +
/// 60 * 138 + 120 * 45.
fn have_segments(st: &Stages, orders: &[Order]) -> bool
    requires { st.now.sites ≡ 5 }
{
    matches!(segments(st, orders, 0), (1, 1))
        && matches!(segments(st, orders, 1), (5, 30))
        && matches!(segments(st, orders, 2), (20, 660))
        && matches!(segments(st, orders, 3), (60, 8_280))
        && matches!(segments(st, orders, 4), (120, 5_400))
        && matches!(segments(st, orders, 5), (120, 0))
}

/// Have the stages the segments of all orders of five sites?
fn has_segments(alloc: Global, st: &Stages) -> bool
    requires { st.now.sites ≡ 5 }
{
    match all_orders(alloc, 5) {
        Ok(orders) => have_segments(st, orders.as_slice()),
        Err(_) => false,
    }
}

/// Has insphere its stages, blocks and segments?
fn are_of_insphere(alloc: Global) -> bool {
    match stages_of(alloc, SPHERE, 5, 26_760, 131_072) {
        Some(Ok(st)) => st.count() == 26_760 && st.blocks() == 1_261 && has_segments(alloc, &st),
        _ => false,
    }
}

#[test]
fn insphere_has_326_segments(rt: HostRuntime) {
    assert!(rt; are_of_insphere(rt.alloc()));
}
