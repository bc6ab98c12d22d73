//! Pairs of ends, and what their operations return.
use ln_interval::Pair;
use ln_interval::pair::MOST;

const TOP: i128 = 170141183460469231731687303715884105727;

/// Is there a pair, and does it have these ends?
fn is(p: Option<Pair>, low: i128, high: i128) -> bool {
    match p {
        Some(p) => p.low == low && p.high == high,
        None => false,
    }
}

/// Is there no pair?
fn is_none(p: Option<Pair>) -> bool {
    match p {
        Some(_) => false,
        None => true,
    }
}

/// The pairs -2 .. 3 and -5 .. 1.
fn two() -> Option<(Pair, Pair)> {
    match (Pair::new(-2, 3), Pair::new(-5, 1)) {
        (Some(p), Some(q)) => Some((p, q)),
        _ => None,
    }
}

#[test]
fn ends_in_order_within_the_limit_are_a_pair(rt: HostRuntime) {
    assert!(rt;
        is_none(Pair::new(1, 0))
            && is(Pair::new(0, 0), 0, 0)
            && is(Pair::new(-TOP, TOP), -TOP, TOP)
            && is_none(Pair::new(-TOP - 1, 0))
    );
}

/// Have the products and powers of the two pairs their ends?
fn have_corners() -> bool {
    match two() {
        Some((p, q)) => {
            is(p.mul(q), -15, 10)
                && is(p.power(0), 1, 1)
                && is(p.power(2), -6, 9)
                && is(p.power(3), -18, 27)
                && is_none(q.power(55))
        }
        None => false,
    }
}

#[test]
fn products_and_powers_have_the_ends_of_their_corners(rt: HostRuntime) {
    assert!(rt; have_corners());
}

/// Have the sum, the difference and the opposite of the two pairs their ends?
fn have_sums() -> bool {
    match two() {
        Some((p, q)) => { is(p.add(q), -7, 4) && is(p.sub(q), -3, 8) && is(Some(q.neg()), -1, 5) }
        None => false,
    }
}

/// Is a pair up to the largest end as large as can be, and without a sum and a difference with the two pairs?
fn is_topmost() -> bool {
    match (two(), Pair::new(0, TOP)) {
        (Some((p, q)), Some(top)) => {
            is_none(top.add(p)) && is_none(top.sub(q)) && top.magnitude() == MOST
        }
        _ => false,
    }
}

#[test]
fn sums_differences_and_opposites_add_ends(rt: HostRuntime) {
    assert!(rt; have_sums() && is_topmost());
}

/// Is it as is said whether -2 .. 3 covers the pair of these ends?
fn is_covered(low: i128, high: i128, said: bool) -> bool {
    match (Pair::new(-2, 3), Pair::new(low, high)) {
        (Some(p), Some(q)) => p.covers(q) == said,
        _ => false,
    }
}

#[test]
fn a_pair_covers_what_is_between_its_ends(rt: HostRuntime) {
    assert!(rt;
        is_covered(-2, 3, true)
            && is_covered(-1, 3, true)
            && is_covered(-3, 0, false)
            && is_covered(0, 4, false)
    );
}
