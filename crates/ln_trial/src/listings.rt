//! Tests that read back what `list` writes: it is what its source says, and equal parts of a predicate are computed once, while there are locals.
use crate::spheres::CIRCLE;
use crate::support::{are_answered, written};
use ln_base::{NoMemory, Port};
use ln_cert::{Entry, ListStop, Listing, Part, read_listing};
use ln_code::Op;
use ln_top::Status;
use ln_trial_programs::sample::SQUARES;
use std::alloc::Global;
use std::test::Fail;

/// The listing of a text; none where it is none.
pub fn listing_of(alloc: Global, text: &[u8]) -> Result<Option<Listing>, NoMemory> {
    if text.len() > 1 << 20 {
        return Ok(None);
    }
    match read_listing(alloc, text) {
        Ok(listing) => Ok(Some(listing)),
        Err(ListStop::NoMemory(e)) => Err(e),
        Err(ListStop::Form(_)) => Ok(None),
    }
}

/// How many entries a listing has, how many blocks, and how many orders; and in block 0 how many operations, how many of them are products,
/// and how many store a value in a local.
#[derive(Drop, Default)]
struct Counts {
    entries: u32,
    blocks: u32,
    orders: u32,
    ops: u32,
    products: u32,
    stores: u32,
}

impl Counts {
    fn add_op(&mut self, op: Op) {
        self.ops = self.ops.saturating_add(1);
        match op {
            Op::Mul(_) => self.products = self.products.saturating_add(1),
            Op::Set(_) => self.stores = self.stores.saturating_add(1),
            _ => {}
        }
    }

    fn of(entries: &[Entry]) -> Counts {
        let mut counts = Counts::default();
        let mut is_first = false;
        for entry in entries {
            counts.entries = counts.entries.saturating_add(1);
            match &entry.part {
                Part::Block(number, _) => {
                    is_first = *number == 0;
                    counts.blocks = counts.blocks.saturating_add(1);
                }
                Part::Order(..) => counts.orders = counts.orders.saturating_add(1),
                Part::RangeOp(op, _, _) if is_first => counts.add_op(*op),
                _ => {}
            }
        }
        counts
    }
}

/// The counts of what `list` writes for a source; none where it is no listing of version 2.
fn listed(alloc: Global, source: &str) -> Result<Option<Counts>, NoMemory> {
    let con = written(alloc, "list s.ln", source)?;
    match listing_of(alloc, con.bytes(Port::Out))? {
        Some(listing) if listing.version() == 2 => Ok(Some(Counts::of(listing.entries()))),
        _ => Ok(None),
    }
}

#[test]
fn listings_are_read_back(rt: HostRuntime) -> Result<(), Fail> {
    let alloc = rt.alloc();
    let squares = listed(alloc, SQUARES)?;
    assert!(rt; squares.is_some_and(|n| n.entries > 20 && n.blocks == 5 && n.orders == 2));
    let circle = listed(alloc, CIRCLE)?;
    assert!(rt; circle.is_some_and(|n| n.blocks > 1 && n.orders == 24));
    Ok(())
}

/// Has block 0 of a source's one program this many operations, this many products and this many values that are stored in locals?
fn has_counts(
    alloc: Global,
    source: &str,
    ops: u32,
    products: u32,
    stores: u32,
) -> Result<bool, NoMemory> {
    match listed(alloc, source)? {
        Some(was) => Ok(was.ops == ops && was.products == products && was.stores == stores),
        None => Ok(false),
    }
}

/// Do `check` and `run` say this of a source?
fn says(
    alloc: Global,
    source: &str,
    checked: &str,
    records: &str,
    lines: &str,
) -> Result<bool, NoMemory> {
    let run = "run s.ln rep r.csv";
    let cases = [
        ("check s.ln", source, records, Status::Done, checked, ""),
        (run, source, records, Status::Done, lines, ""),
    ];
    are_answered(alloc, &cases)
}

// A predicate whose sign is this many copies of a square, one added to the other.
fn copies(alloc: Global, count: u32) -> Result<String, NoMemory> {
    let mut source = String::from_str(
        alloc,
        "site num { t: -10 .. 10; }\npredicate rep(a: num, b: num) { sign ",
    )?;
    let mut plus = "";
    for _ in 0..count {
        source.push_str(plus)?;
        source.push_str("(a.t + b.t)*(a.t + b.t)")?;
        plus = " + ";
    }
    source.push_str("; }\n")?;
    Ok(source)
}

#[test]
fn a_hundred_copies_of_a_square_take_207_operations(rt: HostRuntime) -> Result<(), Fail> {
    let alloc = rt.alloc();
    let source = copies(alloc, 100)?;
    let records = "a,a.t,b,b.t\n1,3,2,-3\n";
    assert!(rt; says(alloc, &source, "rep sites 2 stages 6\n", records, "+ 2\n")?);
    assert!(rt; has_counts(alloc, &source, 207, 1, 2)?);
    Ok(())
}

// A predicate whose sign is the sum of this many different products, and of the same once more.
fn products(alloc: Global, count: u32) -> Result<String, NoMemory> {
    let mut source = String::from_str(
        alloc,
        "site num { t: -1000000000000 .. 1000000000000; }\npredicate rep(a: num, b: num) { sign ",
    )?;
    let mut plus = "";
    for _ in 0..2 {
        for factor in 1..=count {
            let name = if factor % 2 == 0 { "b" } else { "a" };
            write!(source, "{plus}{name}.t*{factor}")?;
            plus = " + ";
        }
    }
    source.push_str("; }\n")?;
    Ok(source)
}

// 250 of them are 1,999 nodes; the locals from 65 to 255 hold 191. The sign is that of 31250 a.t + 31500 b.t, which the filter
// leaves open where it is small.
#[test]
fn past_local_255_products_are_computed_anew(rt: HostRuntime) -> Result<(), Fail> {
    let alloc = rt.alloc();
    let source = products(alloc, 250)?;
    let records = "a,a.t,b,b.t
1,1,2,-1
1,3,2,5
1,126,2,-125
2,126,1,-125
1,1000000000000,2,1000000000000
";
    let lines = "- 0\n+ 0\n+ 1\n+ 1\n+ F\n";
    assert!(rt; says(alloc, &source, "rep sites 2 stages 4\n", records, lines)?);
    assert!(rt; has_counts(alloc, &source, 1999, 309, 191)?);
    Ok(())
}
