//! Tests the texts of refusals, and the places in a source that they name.
use crate::sample::compile_text;
use ln_base::{NoMemory, Span};
use ln_compile::Refusal;
use ln_names::{LimitWhat, NameWhat};
use std::alloc::Global;
use std::error::Error;
use std::fmt::InlineText;
use std::test::Fail;

const AT: Span = Span { start: 7, end: 9 };

const LIMITS: &[(LimitWhat, &str)] = &[
    (LimitWhat::Tokens, "byte 7: more than 65,536 tokens"),
    (LimitWhat::Nesting, "byte 7: more than 64 open parentheses"),
    (
        LimitWhat::NameLength,
        "byte 7: a name of more than 32 bytes",
    ),
    (LimitWhat::Literal, "byte 7: a number above 2^127 - 1"),
    (
        LimitWhat::RangeEnd,
        "byte 7: a range whose low end is above its high end, or an end beyond 2^63 - 1",
    ),
    (LimitWhat::Sites, "byte 7: more than 16 site types"),
    (
        LimitWhat::Coords,
        "byte 7: more than 32 coordinates of a site type",
    ),
    (LimitWhat::Params, "byte 7: more than 16 params"),
    (LimitWhat::Predicates, "byte 7: more than 16 predicates"),
    (
        LimitWhat::SiteArgs,
        "byte 7: more than 5 site arguments of a predicate",
    ),
    (
        LimitWhat::ParamArgs,
        "byte 7: more than 8 param arguments of a predicate",
    ),
    (LimitWhat::Lets, "byte 7: more than 64 lets of a predicate"),
    (
        LimitWhat::Nodes,
        "byte 7: more than 2,048 nodes of a predicate",
    ),
    (LimitWhat::Exponent, "byte 7: an exponent above 16"),
];

const OTHERS: &[(Refusal, &str)] = &[
    (
        Refusal::Lexical(AT),
        "byte 7: no blank, comment or token begins here",
    ),
    (
        Refusal::Syntax(AT),
        "byte 7: no source goes on with this token, or ends here",
    ),
    (
        Refusal::Name(NameWhat::Twice, AT),
        "byte 7: an earlier one of its kind has this name",
    ),
    (
        Refusal::Name(NameWhat::Unknown, AT),
        "byte 7: nothing that may stand here has this name",
    ),
    (
        Refusal::Bound(0, AT),
        "predicate 0, byte 7: a range, a size or the weighted sum of the polynomial exceeds 2^127 - 1",
    ),
    (
        Refusal::Terms(1, AT),
        "predicate 1, byte 7: more than 1,024 terms",
    ),
    (
        Refusal::Zero(2, AT),
        "predicate 2, byte 7: the value is 0 however the sites are perturbed",
    ),
    (
        Refusal::Stages(15, AT),
        "predicate 15, byte 7: more than 65,536 stages, or a stage weight above 131,072",
    ),
];

// Does an error say this?
fn says<E: Error>(e: E, want: &str) -> bool {
    let text: InlineText<128> = InlineText::of(e);
    text.as_str() == want
}

#[test]
fn a_broken_limit_says_which_and_where(rt: HostRuntime) -> Result<(), Fail> {
    for (what, want) in LIMITS {
        assert!(rt; says(Refusal::Limit(*what, AT), want));
    }
    Ok(())
}

// That memory ran out, by the refusal of more than there is.
fn no_memory(alloc: Global) -> Option<NoMemory> {
    match Vec::<u8>::with_capacity(alloc, usize::MAX) {
        Ok(_) => None,
        Err(e) => Some(NoMemory::from(e)),
    }
}

// Does a refusal for want of memory say this?
fn memory_says(alloc: Global, want: &str) -> bool {
    match no_memory(alloc) {
        Some(why) => says(Refusal::NoMemory(why), want),
        None => false,
    }
}

#[test]
fn a_refusal_says_what_is_wrong_and_where(rt: HostRuntime) -> Result<(), Fail> {
    for (refusal, want) in OTHERS {
        assert!(rt; says(*refusal, want));
    }
    assert!(rt; memory_says(rt.alloc(), "out of memory"));
    Ok(())
}

// Is a source refused with this text?
fn is_refused(alloc: Global, source: &str, want: &str) -> bool {
    match compile_text(alloc, source) {
        Ok(_) => false,
        Err(r) => says(r, want),
    }
}

#[test]
fn the_text_has_the_place_in_the_source(rt: HostRuntime) -> Result<(), Fail> {
    let rows = [
        (
            "site a { x: 0 .. 1; } ?",
            "byte 22: no blank, comment or token begins here",
        ),
        (
            "site a { x: 0 .. 1; } predicate f(p: a) { sign p.y; }",
            "byte 49: nothing that may stand here has this name",
        ),
        (
            "site a { x: 0 .. 1; } predicate f(p: a) { sign p.x - p.x; }",
            "predicate 0, byte 32: the value is 0 however the sites are perturbed",
        ),
    ];
    for (source, want) in rows {
        assert!(rt; is_refused(rt.alloc(), source, want));
    }
    Ok(())
}
