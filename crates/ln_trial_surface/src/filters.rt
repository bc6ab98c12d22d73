//! Filters of predicates: their operations, their triples, and where there is none.
use ln_base::NoMemory;
use ln_bound::size::size;
use ln_bound::weigh::weigh;
use ln_code::{FilterBlock, Op, Triple};
use ln_filter::plan;
use ln_tree::Pred;
use ln_trial_programs::sample::{DEEP, FAR, WIDE, compiled};
use std::alloc::Global;
use std::test::Fail;

// The filter of a predicate, if its ranges and sizes fit and it has one.
fn planned(alloc: Global, p: &Pred) -> Result<Option<FilterBlock>, NoMemory> {
    match weigh(alloc, p) {
        Ok(_) => {
            let trees = size(alloc, p)?;
            plan(alloc, &trees)
        }
        Err(_) => Ok(None),
    }
}

// The filter of the one predicate of a source, if it has one.
fn filter_of(alloc: Global, source: &str) -> Result<Option<FilterBlock>, NoMemory> {
    match compiled(alloc, source)? {
        Some(c) => {
            match c.table().preds.as_slice() {
                [p] => planned(alloc, p),
                _ => Ok(None),
            }
        }
        None => Ok(None),
    }
}

// The last triple of the filter of a source, if it has one.
fn root_of(alloc: Global, source: &str) -> Result<Option<Triple>, NoMemory> {
    match filter_of(alloc, source)? {
        Some(f) => Ok(f.triples().last().copied()),
        None => Ok(None),
    }
}

#[test]
fn a_wide_orientation_has_a_filter_and_a_deep_sum_has_none(rt: HostRuntime) -> Result<(), Fail> {
    let alloc = rt.alloc();
    let root = Triple {
        k: 53,
        h: 1_073_741_824,
        e: 7,
    };
    assert!(rt; root_of(alloc, WIDE)? == Some(root));
    assert!(rt; filter_of(alloc, DEEP)?.is_none());
    Ok(())
}

// Is it this triple?
fn is_triple(t: &Triple, k: u8, h: u64, e: u64) -> bool {
    t.k == k && t.h == h && t.e == e
}

// Are they the operations of a number less a far one?
fn are_far(ops: &[Op]) -> bool {
    match ops {
        [Op::Input(0), Op::Cut(2), Op::Push(z), Op::Sub(_)] => *z == 4294967297,
        _ => false,
    }
}

// Are they the triples of these?
fn have_far(triples: &[Triple]) -> bool {
    match triples {
        [_, _, far, root] => {
            is_triple(far, 2, 1_073_741_824, 1) && is_triple(root, 2, 1_073_741_826, 2)
        }
        _ => false,
    }
}

// Has the filter of the far number these operations and triples, and has its copy?
fn is_far_copied(alloc: Global, f: &FilterBlock) -> Result<bool, NoMemory> {
    let copy = f.copy(alloc)?;
    Ok(are_far(f.ops()) && have_far(f.triples()) && are_far(copy.ops()) && have_far(copy.triples()))
}

// The same of the filter of a source.
fn has_far_copied(alloc: Global, source: &str) -> Result<bool, NoMemory> {
    match filter_of(alloc, source)? {
        Some(f) => is_far_copied(alloc, &f),
        None => Ok(false),
    }
}

#[test]
fn a_far_number_is_pushed_with_its_triple_and_a_copy_has_the_same(
    rt: HostRuntime,
) -> Result<(), Fail> {
    assert!(rt; has_far_copied(rt.alloc(), FAR)?);
    Ok(())
}
