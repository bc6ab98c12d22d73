//! The programs of sources: the operations, the ranges and the triples of their filters and blocks, and how many blocks an order has.
use crate::sample::{DEEP, FAR, ORIENT, SQUARES, WIDE, compile_text, compiled};
use ln_base::NoMemory;
use ln_code::{Block, FilterBlock, Op, Program, Triple};
use ln_order::{Order, order_of};
use std::alloc::Global;
use std::test::Fail;

const SQUARE: &str =
    "site num { t: -1000 .. 1000; } predicate q(a: num) { sign (a.t + 5)*(a.t + 5) - 26; }";

// Sources, whether it is the filter or the first block, and its operations.
const OPERATIONS: &[(&str, bool, &str)] = &[
    // A difference aligns its operands, and a power keeps its base.
    (FAR, true, "Input 0, Cut 2, Push 4294967297, Sub W64, "),
    (
        "site num { t: -10 .. 10; } predicate cube(a: num) { sign a.t^3; }",
        true,
        "Input 0, Set 64, Get 64, Get 64, Mul W64, Get 64, Mul W64, ",
    ),
    // An operand of a product twice; one of a minus and of a product; one of a power and of a product.
    (
        "site num { t: -10 .. 10; } predicate t(a: num, b: num) { sign (a.t + b.t)*(a.t + b.t); }",
        false,
        "Input 0, Input 1, Add W64, Set 65, Get 65, Get 65, Mul W64, ",
    ),
    (
        "site num { t: -10 .. 10; } predicate t(a: num, b: num) { sign (-(a.t + b.t))*(a.t + b.t); }",
        false,
        "Input 0, Input 1, Add W64, Set 65, Get 65, Neg W64, Get 65, Mul W64, ",
    ),
    (
        "site num { t: -10 .. 10; } predicate t(a: num, b: num) { sign (a.t + b.t)^2*(a.t + b.t); }",
        false,
        "Input 0, Input 1, Add W64, Set 65, Get 65, Set 64, Get 64, Get 64, Mul W64, Get 65, Mul W64, ",
    ),
    // Two sums, each twice; and four sums, each twice, which take the locals 65 to 68.
    (
        "site num { t: -10 .. 10; } predicate t(a: num, b: num) { sign (a.t + b.t)*(a.t - b.t)*(a.t + b.t)*(a.t - b.t); }",
        false,
        "Input 0, Input 1, Add W64, Set 65, Get 65, Input 0, Input 1, Sub W64, Set 66, Get 66, Mul W64, \
         Get 65, Mul W64, Get 66, Mul W64, ",
    ),
    (
        "site num { t: -10 .. 10; } predicate t(a: num) { \
         sign (a.t + 1)*(a.t + 2)*(a.t + 3)*(a.t + 4)*(a.t + 1)*(a.t + 2)*(a.t + 3)*(a.t + 4); }",
        false,
        "Input 0, Push 1, Add W64, Set 65, Get 65, Input 0, Push 2, Add W64, Set 66, Get 66, Mul W64, \
         Input 0, Push 3, Add W64, Set 67, Get 67, Mul W64, Input 0, Push 4, Add W64, Set 68, Get 68, Mul W64, \
         Get 65, Mul W64, Get 66, Mul W64, Get 67, Mul W64, Get 68, Mul W64, ",
    ),
];

// The operations, one after the other, each with its number or its width.
fn spelled(alloc: Global, ops: &[Op]) -> Result<String, NoMemory> {
    let mut text = String::new(alloc);
    for op in ops {
        match op {
            Op::Push(z) => write!(text, "Push {z}, ")?,
            Op::Input(v) => write!(text, "Input {v}, ")?,
            Op::Get(n) => write!(text, "Get {n}, ")?,
            Op::Set(n) => write!(text, "Set {n}, ")?,
            Op::Add(w) => write!(text, "Add {w:?}, ")?,
            Op::Sub(w) => write!(text, "Sub {w:?}, ")?,
            Op::Mul(w) => write!(text, "Mul {w:?}, ")?,
            Op::Neg(w) => write!(text, "Neg {w:?}, ")?,
            Op::Cut(n) => write!(text, "Cut {n}, ")?,
        }
    }
    Ok(text)
}

// The operations of a program's filter or of its first block.
fn operations(p: &Program, filter: bool) -> Option<&[Op]> {
    if filter {
        Some(p.filter()?.ops())
    } else {
        Some(p.blocks().first()?.ops())
    }
}

// Has the first program of a source these operations?
fn has_operations(alloc: Global, row: &(&str, bool, &str)) -> Result<bool, NoMemory> {
    let (source, filter, want) = *row;
    let Some(c) = compiled(alloc, source)? else {
        return Ok(false);
    };
    let Some(p) = c.programs().as_slice().first() else {
        return Ok(false);
    };
    match operations(p, filter) {
        Some(ops) => Ok(spelled(alloc, ops)?.as_str() == want),
        None => Ok(false),
    }
}

#[test]
fn operands_are_aligned_and_equal_parts_are_computed_once(rt: HostRuntime) -> Result<(), Fail> {
    for row in OPERATIONS {
        assert!(rt; has_operations(rt.alloc(), row)?, "{}", row.0);
    }
    Ok(())
}

// The last triple of the first program's filter, if there is a filter; none where the source is refused.
fn root_of(alloc: Global, source: &str) -> Option<Option<Triple>> {
    let c = compile_text(alloc, source).ok()?;
    match c.programs().as_slice().first()?.filter() {
        Some(f) => Some(f.triples().last().copied()),
        None => Some(None),
    }
}

fn triple(k: u8, h: u64, e: u64) -> Option<Triple> {
    Some(Triple { k, h, e })
}

#[test]
fn a_filter_ends_with_the_triple_of_its_root(rt: HostRuntime) -> Result<(), Fail> {
    let rows = [
        (WIDE, triple(53, 1073741824, 7)),
        (FAR, triple(2, 1073741826, 2)),
        (DEEP, None),
    ];
    for (source, last) in rows {
        assert!(rt; root_of(rt.alloc(), source) == Some(last));
    }
    Ok(())
}

// The variables with their exponents of a block of the first program, and the ends of its last pair.
type Last = (Option<(u8, u8)>, i128, i128);

fn last_of(alloc: Global, source: &str, block: usize) -> Option<Last> {
    let c = compile_text(alloc, source).ok()?;
    let block = c.programs().as_slice().first()?.blocks().get(block)?;
    let pair = block.pairs().last()?;
    match block.exps().pairs() {
        [] => Some((None, pair.low, pair.high)),
        [one] => Some((Some(*one), pair.low, pair.high)),
        _ => None,
    }
}

#[test]
fn a_block_has_its_own_range(rt: HostRuntime) -> Result<(), Fail> {
    let alloc = rt.alloc();
    // The square of -995 .. 1005 is -999975 .. 1010025 by the product of ranges, though no square is below 0.
    assert!(rt; last_of(alloc, SQUARE, 0) == Some((None, -1_000_001, 1_009_999)));
    // That of 2*t, the derivative by the first coordinate, from -10 to 10.
    assert!(rt; last_of(alloc, SQUARES, 1) == Some((Some((0, 1)), -20, 20)));
    Ok(())
}

fn is_whole(block: &Block) -> bool {
    block.exps().pairs().is_empty() && block.ops().len() == 15 && block.pairs().len() == 15
}

// No operation has more than 31 binary digits, so none is cut.
fn is_uncut(filter: &FilterBlock) -> bool {
    let last = triple(0, 8_000_000, 0);
    filter.ops().len() == 15 && filter.triples().last().copied() == last && filter.error() == 0
}

// How many blocks the list of an order of three sites has without a site, and how many more with each.
fn sizes(p: &Program, o: &Order) -> Option<[usize; 4]> {
    if p.shape().sites != 3 || o.places().len() != 3 {
        return None;
    }
    Some([
        p.segment(o, 0).len(),
        p.segment(o, 1).len(),
        p.segment(o, 2).len(),
        p.segment(o, 3).len(),
    ])
}

// The list of q, p, r is 1, q.y, q.x, p.y, p.y*q.x: that of five rows in Simulation of Simplicity, Edelsbrunner and Mücke 1990.
fn is_orientation(p: &Program) -> bool {
    match (p.filter(), p.blocks().first(), order_of(&[2, 1, 3])) {
        (Some(filter), Some(block), Ok(order)) => {
            is_uncut(filter) && is_whole(block) && sizes(p, &order) == Some([1, 2, 2, 0])
        }
        _ => false,
    }
}

fn is_compiled(alloc: Global) -> bool {
    match compile_text(alloc, ORIENT) {
        Ok(c) => match c.programs().as_slice() {
            [p] => is_orientation(p),
            _ => false,
        },
        Err(_) => false,
    }
}

#[test]
fn the_orientation_has_a_filter_and_five_blocks_in_each_order(rt: HostRuntime) -> Result<(), Fail> {
    assert!(rt; is_compiled(rt.alloc()));
    Ok(())
}
