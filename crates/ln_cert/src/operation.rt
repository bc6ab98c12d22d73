//! An operation with its number, and without it.
ghost use Rattle.std.specs.Prelude.{◌≡◌, IfSome, IfNone};
ghost use Rattle.ln_base.specs.Lines.{words_from};
ghost use Rattle.ln_cert.specs.Reading.{OpAt, NoOpAt};
ghost use Rattle.ln_cert.specs.Text.{takes_off, verb_of};

use crate::part::Verb;
use ln_base::numeral::{field, signed_field};
use ln_code::Op;

/// An operation without its number.
pub fn verb_of(op: Op) -> Verb
    ensures { result ≡ verb_of op }
{
    match op {
        Op::Push(_) => Verb::Push,
        Op::Input(_) => Verb::Input,
        Op::Get(_) => Verb::Get,
        Op::Set(_) => Verb::Set,
        Op::Add(width) => Verb::Add(width),
        Op::Sub(width) => Verb::Sub(width),
        Op::Mul(width) => Verb::Mul(width),
        Op::Neg(width) => Verb::Neg(width),
        Op::Cut(_) => Verb::Cut,
    }
}

/// Whether it takes a value off the stack into a local: then no certificate follows it.
pub fn takes_off(verb: Verb) -> bool
    ensures { result ≡ takes_off verb }
{
    match verb {
        Verb::Set => true,
        Verb::Push
        | Verb::Input
        | Verb::Get
        | Verb::Add(_)
        | Verb::Sub(_)
        | Verb::Mul(_)
        | Verb::Neg(_)
        | Verb::Cut => false,
    }
}

/// Returns the operation whose number, if it has one, is at a place, and the place after it.
pub fn operation(verb: Verb, bytes: &[u8], at: usize) -> Option<(Op, usize)>
    ensures some { IfSome result (λ x. OpAt verb (words_from at bytes.now) x.0 (words_from x.1 bytes.now)) }
    ensures none { IfNone result (NoOpAt verb (words_from at bytes.now)) }
{
    match verb {
        Verb::Push => {
            let (c, next) = signed_field(bytes, at)?;
            Some((Op::Push(c), next))
        }
        Verb::Input => {
            let (v, next) = field(bytes, at, 167)?;
            Some((Op::Input(v as u8), next))
        }
        Verb::Get => {
            let (j, next) = field(bytes, at, 255)?;
            Some((Op::Get(j as u8), next))
        }
        Verb::Set => {
            let (j, next) = field(bytes, at, 255)?;
            Some((Op::Set(j as u8), next))
        }
        Verb::Cut => {
            let (n, next) = field(bytes, at, 255)?;
            Some((Op::Cut(n as u8), next))
        }
        Verb::Add(w) => Some((Op::Add(w), at)),
        Verb::Sub(w) => Some((Op::Sub(w), at)),
        Verb::Mul(w) => Some((Op::Mul(w), at)),
        Verb::Neg(w) => Some((Op::Neg(w), at)),
    }
}
