//! Words and numbers appended to a text.
ghost use Rattle.std.specs.Prelude.{◌≡◌, ◌∷◌, ◌++◌, IfOk, decimal, map};
ghost use Rattle.std.specs.Fmt.{signed_decimal};
ghost use Rattle.ln_base.specs.Exponents.{exponent_word};
ghost use Rattle.ln_base.specs.Lines.{Puts};

use crate::outside::NoMemory;
use itoa::Buffer;

/// Appends bytes.
pub fn put(out: &mut Vec<u8>, text: &[u8]) -> Result<(), NoMemory>
    ensures { IfOk result (λ x. out.new.items ≡ out.old.items ++ text.now) }
{
    out.extend_from_slice(text)?;
    Ok(())
}

/// Appends a space and a word.
pub fn put_word(out: &mut Vec<u8>, text: &[u8]) -> Result<(), NoMemory>
    ensures { IfOk result (λ x. Puts out.old.items out.new.items (λ r. text.now ∷ r)) }
{
    out.push(b' ')?;
    put(out, text)
}

/// Appends a space and a number.
pub fn put_number(out: &mut Vec<u8>, n: u128) -> Result<(), NoMemory>
    ensures { IfOk result (λ x. Puts out.old.items out.new.items (λ r. decimal n ∷ r)) }
{
    let mut buffer = Buffer::new();
    put_word(out, buffer.format(n).as_bytes())
}

/// Appends a space and a signed number.
pub fn put_signed(out: &mut Vec<u8>, z: i128) -> Result<(), NoMemory>
    ensures { IfOk result (λ x. Puts out.old.items out.new.items (λ r. signed_decimal z ∷ r)) }
{
    let mut buffer = Buffer::new();
    put_word(out, buffer.format(z).as_bytes())
}

/// Appends a number.
pub fn put_digits(out: &mut Vec<u8>, n: u128) -> Result<(), NoMemory>
    ensures { IfOk result (λ x. out.new.items ≡ out.old.items ++ decimal n) }
{
    let mut buffer = Buffer::new();
    put(out, buffer.format(n).as_bytes())
}

fn put_exponent(out: &mut Vec<u8>, v: u8, e: u8) -> Result<(), NoMemory>
    ensures { IfOk result (λ x. Puts out.old.items out.new.items (λ r. exponent_word (v, e) ∷ r)) }
{
    put_number(out, u128::from(v))?;
    out.push(b'^')?;
    put_digits(out, u128::from(e))
}

/// Appends exponents, a space before each.
pub fn put_exponents(out: &mut Vec<u8>, exps: &[(u8, u8)]) -> Result<(), NoMemory>
    ensures { IfOk result (λ x. Puts out.old.items out.new.items (λ r. map exponent_word exps.now ++ r)) }
{
    'exps: for pair in exps {
        let (v, e) = *pair;
        put_exponent(out, v, e)?;
    }
    Ok(())
}
