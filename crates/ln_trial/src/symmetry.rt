//! Tests which symmetry a predicate has.
use ln_base::limits::MOST_SOURCE;
use ln_compile::check;
use ln_stage::Symmetry;
use ln_trial_programs::sample::{ORIENT, SQUARES};
use std::alloc::Global;
use std::test::Fail;

const APART: &str =
    "site point { x: -9 .. 9; }\npredicate apart(p: point, q: point) { sign (p.x - q.x)^2 - 4; }\n";

// It is kept where p and q change places, and not where q and r do.
const OPPOSITE: &str = "site point { x: -9 .. 9; }
predicate opposite(p: point, q: point, r: point) { sign (p.x - r.x)*(q.x - r.x); }
";

const RANGES: &str = "site low { x: 0 .. 8; }\nsite high { x: 0 .. 9; }
predicate less(p: low, q: high) { sign p.x - q.x; }
";

const SCALED: &str = "site point { x: 0 .. 8; }\nparam k: 1 .. 3;
predicate scaled(p: point, q: point, k: param) { sign k*p.x - k*q.x; }
";

// What exchanging two sites does to the one predicate of a source.
fn exchange(alloc: Global, source: &str) -> Option<&'static str> {
    let bytes = source.as_bytes();
    if bytes.len() > MOST_SOURCE {
        return None;
    }
    let Ok(c) = check(alloc, bytes) else {
        return None;
    };
    if c.table().preds.len() != 1 {
        return None;
    }
    match c.symmetry(0) {
        Some(Symmetry::Alternating) => Some("turns"),
        Some(Symmetry::Symmetric) => Some("keeps"),
        None => Some("neither"),
    }
}

#[test]
fn a_predicate_turns_or_is_kept_where_any_two_sites_change_places(
    rt: HostRuntime,
) -> Result<(), Fail> {
    let rows = [
        (ORIENT, "turns"),
        (SQUARES, "turns"),
        (SCALED, "turns"),
        (APART, "keeps"),
        (OPPOSITE, "neither"),
        (RANGES, "neither"),
    ];
    for (source, word) in rows {
        assert!(rt; exchange(rt.alloc(), source) == Some(word));
    }
    Ok(())
}
