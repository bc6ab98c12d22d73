//! Tests the tokens of sources, their first faults and the limit of their number.
use ln_base::limits::MOST_SOURCE;
use ln_lex::{Kind, LexStop, Token, tokens};
use std::alloc::Global;
use std::test::Fail;

/// Sources and their tokens, each of a kind and from a byte to a byte.
const TEXTS: &[(&[u8], &[(Kind, u32, u32)])] = &[
    (
        b"p.x..2 // end",
        &[
            (Kind::Name, 0, 1),
            (Kind::Dot, 1, 2),
            (Kind::Name, 2, 3),
            (Kind::Dots, 3, 5),
            (Kind::Number, 5, 6),
        ],
    ),
    (b"// a\rb\n\t\r x", &[(Kind::Name, 10, 11)]),
];

/// Are these the tokens, each of its kind and in its place?
fn are_tokens(found: &[Token], want: &[(Kind, u32, u32)]) -> bool {
    let mut rest = want;
    for token in found {
        let [(kind, start, end), more @ ..] = rest else {
            return false;
        };
        if token.kind != *kind || token.span.start != *start || token.span.end != *end {
            return false;
        }
        rest = more;
    }
    rest.is_empty()
}

/// Has the source these tokens?
fn has_tokens(alloc: Global, source: &[u8], want: &[(Kind, u32, u32)]) -> bool {
    if source.len() > MOST_SOURCE {
        return false;
    }
    match tokens(alloc, source) {
        Ok(found) => are_tokens(found.as_slice(), want),
        Err(_) => false,
    }
}

#[test]
fn tokens_of_a_source(rt: HostRuntime) {
    for (source, want) in TEXTS {
        assert!(rt; has_tokens(rt.alloc(), source, want));
    }
}

const KINDS: &[(&str, Kind)] = &[
    ("site", Kind::Site),
    ("param", Kind::Param),
    ("predicate", Kind::Predicate),
    ("let", Kind::Let),
    ("sign", Kind::Sign),
    ("Sign", Kind::Name),
    ("sites", Kind::Name),
    ("_a9", Kind::Name),
    ("007", Kind::Number),
    ("{", Kind::BraceL),
    ("}", Kind::BraceR),
    ("(", Kind::ParL),
    (")", Kind::ParR),
    (":", Kind::Colon),
    (";", Kind::Semi),
    (",", Kind::Comma),
    (".", Kind::Dot),
    ("..", Kind::Dots),
    ("+", Kind::Plus),
    ("-", Kind::Minus),
    ("*", Kind::Star),
    ("^", Kind::Caret),
    ("=", Kind::Equals),
];

#[test]
fn kinds_of_tokens(rt: HostRuntime) {
    for (source, kind) in KINDS {
        let end = source.len().min(9) as u32;
        assert!(rt; has_tokens(rt.alloc(), source.as_bytes(), &[(*kind, 0, end)]));
    }
}

const FAULTS: &[(&[u8], u32)] = &[
    (b"a / b", 2),
    (b"/", 0),
    (b"a // \xC3\xA9", 5),
    (b"x\n#", 2),
    (b"\xFF", 0),
];

/// Is this the first byte that begins no token?
fn has_fault(alloc: Global, source: &[u8], want: u32) -> bool {
    if source.len() > MOST_SOURCE {
        return false;
    }
    match tokens(alloc, source) {
        Err(LexStop::Lexical(at)) => at == want,
        _ => false,
    }
}

#[test]
fn faults_and_their_places(rt: HostRuntime) {
    for (source, at) in FAULTS {
        assert!(rt; has_fault(rt.alloc(), source, *at));
    }
}

/// Has the source this many tokens, or one too many, which begins at this byte?
fn has_count(alloc: Global, source: &[u8], want: &Result<usize, u32>) -> bool {
    if source.len() > MOST_SOURCE {
        return false;
    }
    match tokens(alloc, source) {
        Ok(found) => matches!(want, Ok(count) if *count == found.len()),
        Err(LexStop::Limit(at)) => matches!(want, Err(byte) if *byte == at),
        Err(_) => false,
    }
}

/// A byte, how many of it make a source, and how many tokens that has, or the byte at which one too many begins.
const LARGE: &[(u8, usize, Result<usize, u32>)] = &[
    (b' ', 1_048_576, Ok(0)),
    (b'/', 1_048_576, Ok(0)),
    (b';', 65_536, Ok(65_536)),
    (b';', 65_537, Err(65_536)),
];

#[test]
fn large_sources(rt: HostRuntime) -> Result<(), Fail> {
    for (byte, len, want) in LARGE {
        let source = vec![in rt.alloc(); *byte; *len]?;
        assert!(rt; has_count(rt.alloc(), &source, want));
    }
    Ok(())
}
