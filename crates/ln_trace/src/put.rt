//! Lines of a trace appended to a text.
ghost use Rattle.std.specs.Prelude.{◌≡◌, ◌∷◌, ◌++◌, [], IfOk, OnOk, OnErr, decimal};
ghost use Rattle.ln_base.specs.Lines.{parted};
ghost use Rattle.ln_trace.specs.declared.line.TraceLine.TheVariants as line;
ghost use Rattle.ln_trace.specs.Text.{text_of_line};

use ln_base::put::{put, put_exponents, put_number, put_signed, put_word};
use ln_base::{NoMemory, Sign};
use std::alloc::Global;

// The line of a sign.
fn sign_line(sign: Sign) -> &'static [u8]
    ensures { result.now ≡ text_of_line (line.Sign sign) }
{
    match sign {
        Sign::Minus => b"sign -\n",
        Sign::Zero => b"sign 0\n",
        Sign::Plus => b"sign +\n",
    }
}

fn numbered(text: &mut Vec<u8>, word: &[u8], n: u32) -> Result<(), NoMemory>
    ensures { IfOk result (λ x. text.new.items ≡ text.old.items ++ (parted (word.now ∷ decimal n ∷ []) ++ 10 ∷ [])) }
{
    put(text, word)?;
    put_number(text, u128::from(n))?;
    put(text, b"\n".as_slice())
}

/// Appends an `at` line of these exponents, as variable and exponent, and this value.
pub(crate) fn put_at(out: &mut Vec<u8>, exps: &[(u8, u8)], value: i128) -> Result<(), NoMemory>
    ensures { IfOk result (λ x. out.new.items ≡ out.old.items ++ text_of_line (line.At exps.now value)) }
{
    put(out, b"at".as_slice())?;
    put_exponents(out, exps)?;
    put_word(out, b":".as_slice())?;
    put_signed(out, value)?;
    put(out, b"\n".as_slice())
}

/// Appends a `sign` line.
pub(crate) fn put_sign(out: &mut Vec<u8>, sign: Sign) -> Result<(), NoMemory>
    ensures { IfOk result (λ x. out.new.items ≡ out.old.items ++ text_of_line (line.Sign sign)) }
{
    put(out, sign_line(sign))
}

/// Appends `row N`.
pub(crate) fn put_row(out: &mut Vec<u8>, n: u32) -> Result<(), NoMemory>
    ensures { IfOk result (λ x. out.new.items ≡ out.old.items ++ text_of_line (line.Row n)) }
{
    numbered(out, b"row".as_slice(), n)
}

/// Appends `refused N`, or nothing where memory runs out.
pub fn put_refused(alloc: Global, out: &mut Vec<u8>, n: u32) -> Result<(), NoMemory>
    ensures ok { OnOk result (out.new.items ≡ out.old.items ++ text_of_line (line.Refused n)) }
    ensures err { OnErr result (out.new.items ≡ out.old.items) }
{
    let mut text = Vec::new(alloc);
    numbered(&mut text, b"refused".as_slice(), n)?;
    out.extend_from_slice(text.as_slice())?;
    Ok(())
}
