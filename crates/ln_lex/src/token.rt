//! Tokens of the source language.
use ln_base::Span;

/// What a token is: a name, a number, one of the five keywords, or a sign.
#[derive(Clone, Copy, PartialEq, Eq)]
pub enum Kind {
    Name,
    Number,
    Site,
    Param,
    Predicate,
    Let,
    Sign,
    BraceL,
    BraceR,
    ParL,
    ParR,
    Colon,
    Semi,
    Comma,
    Dot,
    Dots,
    Plus,
    Minus,
    Star,
    Caret,
    Equals,
}

/// A token and where its text is in the source.
#[derive(Clone, Copy)]
pub struct Token {
    pub kind: Kind,
    pub span: Span,
}
