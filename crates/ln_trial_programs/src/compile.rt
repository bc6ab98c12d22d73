//! Tests that sources are compiled, or refused for the right reason at the right place.
use crate::sample::{ORIENT, SQUARES, compile_text};
use ln_base::Span;
use ln_compile::Compiled;
use std::alloc::Global;
use std::test::Fail;

const HEAVY: &str = "site num { t: -9223372036854775807 .. 9223372036854775807; }
predicate big(a: num, b: num, c: num, d: num) { sign a.t*b.t + c.t*d.t; }
";

const NONE: &str = "site point { x: 0 .. 9; }\npredicate none(p: point) { sign p.x - p.x; }\n";

// The stage count of the predicate of this name, if there is one.
fn count_in(c: &Compiled, name: &str) -> Option<u64> {
    let i = c.find(name)?;
    if i < c.table().preds.len() && i < c.programs().as_slice().len() {
        Some(c.stage_count(i))
    } else {
        None
    }
}

fn count(alloc: Global, source: &str, name: &str) -> Option<u64> {
    match compile_text(alloc, source) {
        Ok(c) => count_in(&c, name),
        Err(_) => None,
    }
}

#[test]
fn sources_are_compiled_and_their_predicates_found(rt: HostRuntime) -> Result<(), Fail> {
    let rows = [
        (ORIENT, "orient", Some(30)),
        (ORIENT, "x", None),
        (SQUARES, "s", Some(6)),
    ];
    for (source, name, stages) in rows {
        assert!(rt; count(rt.alloc(), source, name) == stages);
    }
    Ok(())
}

// The word for which a source is refused, and the place.
fn refused(alloc: Global, source: &str) -> Option<(&'static str, Span)> {
    match compile_text(alloc, source) {
        Ok(_) => None,
        Err(r) => Some((r.word(), r.span()?)),
    }
}

#[test]
fn a_predicate_is_refused_at_its_name_or_at_its_root(rt: HostRuntime) -> Result<(), Fail> {
    let name = Span { start: 36, end: 40 };
    let root = Span {
        start: 122,
        end: 123,
    };
    assert!(rt; refused(rt.alloc(), NONE) == Some(("zero", name)));
    // A sum of products that is just too large.
    assert!(rt; refused(rt.alloc(), HEAVY) == Some(("bound", root)));
    Ok(())
}
