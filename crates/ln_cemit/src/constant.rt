//! Writes constants of up to 128 bits: one NUMBER below 2^63, and from there on a sum of parts below 2^31.
ghost use Rattle.std.specs.Prelude.{◌≡◌, ◌∷◌, true, IfOk, codes};
ghost use Rattle.ln_csyn.specs.Spelling.{PutsTokens, lexeme, spell};
ghost use Rattle.ln_csyn.specs.Tree.{Inner};
ghost use Rattle.ln_cemit.specs.Emit.{constant, in_parts, natural};
ghost use Rattle.ln_cemit.specs.Puts.{parts_fit};

use ln_base::NoMemory;
use ln_csyn::spell::{put, put_op, put_tokens};
use ln_csyn::write::{put_cast, put_constant};
use ln_csyn::{COp, CType};

// A number in parts below 2^31: k of them and one more.
fn put_parts(out: &mut Vec<u8>, k: u8, n: u128) -> Result<(), NoMemory>
    requires { parts_fit k n ≡ true }
    ensures { IfOk result (λ z. PutsTokens out.old.items out.new.items (spell (in_parts k n))) }
{
    if k == 0 {
        return put_constant(out, CType::Int128, n as u64);
    }
    put_tokens(out, b"( (")?;
    put_parts(out, k - 1, n / 2147483648)?;
    put_op(out, COp::Mul)?;
    put_constant(out, CType::Int128, 2147483648)?;
    put_tokens(out, b") +")?;
    put_constant(out, CType::Int128, (n % 2147483648) as u64)?;
    put(out, b")")
}

// A number from 0 up: as it is below 2^63, else in parts.
fn put_natural(out: &mut Vec<u8>, n: u128) -> Result<(), NoMemory>
    ensures { IfOk result (λ z. PutsTokens out.old.items out.new.items (spell (natural n))) }
{
    if n < 9223372036854775808 {
        put_constant(out, CType::Int64, n as u64)
    } else {
        put_parts(out, 4, n)
    }
}

fn put_negative(out: &mut Vec<u8>, size: u128) -> Result<(), NoMemory>
    ensures { IfOk result (λ x. PutsTokens out.old.items out.new.items (λ r. lexeme (codes "(") ∷ lexeme (codes "-")
        ∷ spell (natural size) (lexeme (codes ")") ∷ r))) }
{
    put_tokens(out, b"( -")?;
    put_natural(out, size)?;
    put(out, b")")
}

fn put_whole(out: &mut Vec<u8>, z: i128) -> Result<(), NoMemory>
    ensures { IfOk result (λ x. PutsTokens out.old.items out.new.items (spell (constant z))) }
{
    if z < 0 {
        put_negative(out, z.unsigned_abs())
    } else {
        put_natural(out, z.unsigned_abs())
    }
}

/// Appends an integer, cast to the type.
pub(crate) fn put_inner(out: &mut Vec<u8>, kind: CType, z: i128) -> Result<(), NoMemory>
    ensures { IfOk result (λ x. PutsTokens out.old.items out.new.items (spell (Inner kind (constant z)))) }
{
    put_cast(out, kind)?;
    put_whole(out, z)?;
    put(out, b")")
}
