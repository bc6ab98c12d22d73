//! Texts that are listings, and texts that are none; and what is written for programs.
use ln_base::NoMemory;
use ln_base::limits::MOST_FILE;
use ln_bound::Width;
use ln_cert::{Entry, ListStop, Listing, Part, read_listing, write_listing};
use ln_code::{Op, Programs};
use ln_trial_programs::sample::{BLOCKS, RANGES, compiled};
use std::alloc::Global;
use std::process::Abort;
use std::test::Fail;

// After each prefix, lines and the line of the form fault.
const FAULTS: &[(&str, &[(&str, u32)])] = &[
    (
        "",
        &[
            ("", 1),
            ("listing 1", 1),
            ("listing 2\r\n", 1),
            ("listing  1\n", 1),
            ("listing 01\n", 1),
            ("Listing 1\n", 1),
            ("listing 1 \n", 1),
            ("\n", 1),
        ],
    ),
    (
        "listing 2\n",
        &[
            ("\n", 2),
            ("predicate\n", 2),
            ("predicate 1s\n", 2),
            ("predicate site\n", 2),
            ("predicate s t\n", 2),
            ("predicate s", 2),
            ("predicate s\r\n", 2),
            ("predicate s\n", 3),
            ("predicate s\nnofilter\nend\n", 4),
            ("predicate s\nnofilter\nblock 65536\n", 4),
            ("predicate s\nnofilter\nblock 65535 168^1\n", 4),
            ("predicate s\nnofilter\nblock 65535 167^0\n", 4),
            ("predicate s\nnofilter\nblock 65535 167^128\n", 4),
            ("predicate s\nnofilter\nblock 65535 167^127\n", 5),
            ("predicate s\nnofilter\nblock 0 \n", 4),
            ("predicate s\nnofilter\nblock 0\nend\norder :\n", 6),
            ("predicate s\nnofilter\nblock 0\nend\norder : \n", 6),
            ("predicate s\nnofilter\nblock 0\nend\norder 5 : 0\n", 6),
            ("predicate s\nnofilter\nblock 0\nend\norder 4 : 65536\n", 6),
            ("predicate s\nnofilter\nblock 0\nend\norder 4 : 65535\n", 7),
            (
                "predicate s\nnofilter\nblock 0\nend\norder : 0\ndone\ndone\n",
                8,
            ),
        ],
    ),
    (
        "listing 1\npredicate s\nfilter\n",
        &[
            ("push -0 0 0 0\n", 4),
            ("push 170141183460469231731687303715884105728 0 0 0\n", 4),
            (
                "push -170141183460469231731687303715884105727 255 18446744073709551615 18446744073709551615\n",
                5,
            ),
            ("push 1 256 0 0\n", 4),
            ("push 1 0 18446744073709551616 0\n", 4),
            ("push 1 0 0\n", 4),
            ("input 168 0 0 0\n", 4),
            ("input 167 0 0 0\n", 5),
            ("get 256 0 0 0\n", 4),
            ("set 255\n", 5),
            ("set 1 0 0 0\n", 4),
            ("add64 0 0 0\n", 4),
            ("cut 255 0 0 0\n", 5),
            ("cut 256 0 0 0\n", 4),
            ("halve 0 0 0\n", 4),
        ],
    ),
    (
        "listing 1\npredicate s\nnofilter\nblock 0\n",
        &[
            ("push 01 1\n", 5),
            ("push +1 1\n", 5),
            ("add 1\n", 5),
            ("cut 1 1\n", 5),
            ("neg128 340282366920938463463374607431768211455\n", 6),
            ("neg128 340282366920938463463374607431768211456\n", 5),
            ("neg128 -1\n", 5),
            ("neg64 1 1\n", 5),
        ],
    ),
    (
        "listing 2\npredicate s\nnofilter\nblock 0\n",
        &[
            ("mul64 1 -1\n", 6),
            ("mul64 -170141183460469231731687303715884105728 0\n", 5),
            ("mul64 -170141183460469231731687303715884105727 0\n", 6),
            ("mul64 -0 0\n", 5),
            ("mul64 0  0\n", 5),
            ("mul64 0\n", 5),
            ("mul 0 0\n", 5),
            ("set 1 0 0\n", 5),
        ],
    ),
    ("listing 2\n", &[(BLOCKS, 17)]),
    ("listing 1\n", &[(RANGES, 17)]),
    ("listing 3\n", &[("", 1)]),
];

/// One text after another.
fn joined(alloc: Global, front: &str, back: &str) -> Result<Vec<u8>, Fail> {
    let mut text = Vec::new(alloc);
    text.extend_from_slice(front.as_bytes())?;
    text.extend_from_slice(back.as_bytes())?;
    Ok(text)
}

/// The line of the form fault of a text; none where it is a listing, and 0 where memory ran out.
fn fault(rt: &impl Abort, alloc: Global, text: &[u8]) -> Option<u32> {
    assert!(rt; text.len() <= MOST_FILE);
    match read_listing(alloc, text) {
        Ok(_) => None,
        Err(ListStop::Form(line)) => Some(line),
        Err(ListStop::NoMemory(_)) => Some(0),
    }
}

/// Returns whether the lines after a prefix have their faults.
fn are_faulty(
    rt: &impl Abort,
    alloc: Global,
    front: &str,
    lines: &[(&str, u32)],
) -> Result<bool, Fail> {
    for (line, at) in lines {
        let text = joined(alloc, front, line)?;
        if fault(rt, alloc, text.as_slice()) != Some(*at) {
            return Ok(false);
        }
    }
    Ok(true)
}

fn is_filter_mul(entry: &Entry) -> bool {
    match &entry.part {
        Part::FilterOp(Op::Mul(Width::W64), t) => {
            t.k == 0 && t.h == 100 && t.e == 0 && entry.line == 8
        }
        _ => false,
    }
}

fn is_push(entry: &Entry) -> bool {
    match &entry.part {
        Part::RangeOp(Op::Push(-2), -2, -2) => entry.line == 34,
        _ => false,
    }
}

fn is_order(entry: &Entry) -> bool {
    match &entry.part {
        Part::Order(places, list) => {
            places.as_slice() == b"\x01\x00".as_slice()
                && list.as_slice() == [0u32, 3, 4].as_slice()
                && entry.line == 42
        }
        _ => false,
    }
}

/// Whether it is the listing of the text `RANGES`, by three of its lines.
fn is_of_ranges(listing: &Listing) -> bool {
    let entries = listing.entries();
    match (entries.get(6), entries.get(32), entries.get(40)) {
        (Some(mul), Some(push), Some(order)) => {
            listing.version() == 2
                && entries.len() == 42
                && is_filter_mul(mul)
                && is_push(push)
                && is_order(order)
        }
        _ => false,
    }
}

/// The fault of a prefix of `BLOCKS` after `listing 1` that has this many line feeds: it is a listing itself where it is the first line
/// or all; else the fault is at the line that isn't whole, or at the one after the last.
fn owed(part: &[u8], lines: u32) -> Option<u32> {
    match part {
        [.., b'\n'] if lines == 1 || lines == 43 => None,
        _ => Some(lines.saturating_add(1)),
    }
}

#[test]
fn listings_of_nothing(rt: HostRuntime) -> Result<(), Fail> {
    let alloc = rt.alloc();
    let none = Programs::new(alloc);
    let text = write_listing(alloc, &none)?;
    assert!(rt; text.as_slice() == b"listing 2\n".as_slice());
    assert!(rt; fault(&rt, alloc, text.as_slice()).is_none());
    Ok(())
}

// A difference of two sites, and a param alone.
const DIFFERENCE: &str = "param c: 0 .. 5; site num { t: -10 .. 10; }
predicate d(a: num, b: num) { sign a.t - b.t; }
predicate k(c: param) { sign c; }
";

// By hand: the list of a before b is 1, a.t with the coefficient 1; that of b before a is 1, b.t with -1; without a site it is 1.
const DIFFERENCE_LISTED: &str = "listing 2
predicate d
filter
input 0 0 10 0
input 1 0 10 0
sub 0 20 0
decide
block 0
input 0 -10 10
input 1 -10 10
sub64 -20 20
end
block 1 0^1
push 1 1 1
end
block 2 1^1
push -1 -1 -1
end
order 0 1 : 0 1
order 1 0 : 0 2
done
predicate k
filter
input 0 0 5 0
decide
block 0
input 0 0 5
end
order : 0
done
";

/// Is this the listing of a source's programs?
fn is_listed(alloc: Global, source: &str, listing: &str) -> Result<bool, NoMemory> {
    match compiled(alloc, source)? {
        Some(c) => Ok(write_listing(alloc, c.programs())?.as_slice() == listing.as_bytes()),
        None => Ok(false),
    }
}

#[test]
fn programs_have_their_listing(rt: HostRuntime) -> Result<(), Fail> {
    assert!(rt; is_listed(rt.alloc(), DIFFERENCE, DIFFERENCE_LISTED)?);
    Ok(())
}

#[test]
fn faults_have_their_line(rt: HostRuntime) -> Result<(), Fail> {
    for (front, lines) in FAULTS {
        assert!(rt; are_faulty(&rt, rt.alloc(), front, lines)?);
    }
    Ok(())
}

#[test]
fn a_listing_is_read(rt: HostRuntime) -> Result<(), Fail> {
    let text = joined(rt.alloc(), "listing 2\n", RANGES)?;
    assert!(rt; text.len() <= MOST_FILE);
    match read_listing(rt.alloc(), text.as_slice()) {
        Ok(listing) => assert!(rt; is_of_ranges(&listing)),
        Err(_) => assert!(rt; false),
    }
    Ok(())
}

#[test]
fn first_parts_have_their_line(rt: HostRuntime) -> Result<(), Fail> {
    let alloc = rt.alloc();
    let text = joined(alloc, "listing 1\n", BLOCKS)?;
    let text = text.as_slice();
    let mut lines = 0u32;
    for (end, byte) in text.iter().enumerate() {
        assert!(rt; fault(&rt, alloc, &text[..end]) == owed(&text[..end], lines));
        if *byte == b'\n' {
            lines = lines.saturating_add(1);
        }
    }
    assert!(rt; lines == 43 && fault(&rt, alloc, text).is_none());
    Ok(())
}
