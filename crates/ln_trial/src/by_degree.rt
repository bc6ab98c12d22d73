//! Tests the limits within which a polynomial has a program by total degree.
ghost use Rattle.std.specs.Prelude.{◌<◌, length};

use ln_base::limits::MOST_SOURCE;
use ln_code::Program;
use ln_compile::{Checked, check};
use ln_graded::{GradedStop, graded, graded_from};
use ln_poly::Poly;
use ln_trial_programs::sample::ORIENT;
use std::alloc::Global;
use std::test::Fail;

// The program by total degree of the predicate with this number, from 0, with at most this many stages in all lists.
fn made_of(alloc: Global, c: &Checked, i: usize, most: u64) -> Result<Program, GradedStop>
    requires { i < length c.now.table.preds }
{
    let f: Poly = c.polynomial(alloc, i)?;
    let begin = c.beginning(alloc, i)?;
    graded_from(alloc, &f, &c.pred(i).shape, begin, most, 24)
}

// The same of its whole program by the smallest infinitesimal, of which the filter and block 0 are copied.
fn made_again(alloc: Global, c: &Checked, i: usize, most: u64) -> Result<Program, GradedStop>
    requires { i < length c.now.table.preds }
{
    let a = c.accepted(i);
    let p = c.program(alloc, i)?;
    graded(alloc, a.poly(), p.shape(), &p, most, 24)
}

// How many blocks the program by total degree of the one predicate of a source has, made from its whole program or not; why there is none; or none
// where the source is refused.
fn blocks_within(
    alloc: Global,
    source: &str,
    most: u64,
    whole: bool,
) -> Option<Result<usize, GradedStop>> {
    let bytes = source.as_bytes();
    if bytes.len() > MOST_SOURCE {
        return None;
    }
    let Ok(c) = check(alloc, bytes) else {
        return None;
    };
    if c.table().preds.len() != 1 {
        return None;
    }
    let made = if whole {
        made_again(alloc, &c, 0, most)
    } else {
        made_of(alloc, &c, 0, most)
    };
    match made {
        Ok(p) => Some(Ok(p.blocks().len())),
        Err(stop) => Some(Err(stop)),
    }
}

#[test]
fn the_orientation_has_48_stages_by_degree_in_13_blocks(rt: HostRuntime) -> Result<(), Fail> {
    let alloc = rt.alloc();
    assert!(rt; matches!(blocks_within(alloc, ORIENT, 48, false), Some(Ok(13))));
    assert!(rt;
        matches!(
            blocks_within(alloc, ORIENT, 47, false),
            Some(Err(GradedStop::Stages))
        )
    );
    Ok(())
}

#[test]
fn so_it_has_from_its_program(rt: HostRuntime) -> Result<(), Fail> {
    let alloc = rt.alloc();
    assert!(rt; matches!(blocks_within(alloc, ORIENT, 48, true), Some(Ok(13))));
    assert!(rt;
        matches!(
            blocks_within(alloc, ORIENT, 47, true),
            Some(Err(GradedStop::Stages))
        )
    );
    Ok(())
}
