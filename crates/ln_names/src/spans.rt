//! The bytes of a span, and the number that they are.
ghost use Rattle.std.specs.Prelude.{◌≡◌, ◌-◌, ◌^◌, min};
ghost use Rattle.ln_syntax.specs.Raw.{text, same};
ghost use Rattle.ln_names.specs.Numbers.{number};

use ln_base::Span;
use ln_base::decimal::unsigned;

/// The bytes of a span, up to the end of the source.
pub fn text(bytes: &[u8], at: Span) -> &[u8]
    ensures { result.now ≡ text bytes.now at }
{
    let start = (at.start as usize).min(bytes.len());
    let rest = &bytes[start..];
    let len = (at.end as usize)
        .saturating_sub(at.start as usize)
        .min(rest.len());
    &rest[..len]
}

/// Do two spans have the same bytes?
pub fn same(bytes: &[u8], a: Span, b: Span) -> bool
    ensures { result ≡ same bytes.now a b }
{
    text(bytes, a) == text(bytes, b)
}

/// The value of a NUMBER, or `2^128 - 1` where it is larger.
pub fn number(bytes: &[u8], at: Span) -> u128
    ensures { result ≡ min (number bytes.now at) (2 ^ 128 - 1) }
{
    unsigned(text(bytes, at))
}
