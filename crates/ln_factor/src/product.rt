//! The sign of a product on a row, by the verdicts of its factors.
ghost use Rattle.std.specs.Prelude.{◌≡◌, ◌<◌, ◌*ℤ◌, All, length, slice_get, Some};
ghost use Rattle.ln_algebra.specs.Product.{multiplied_numbers};
ghost use Rattle.ln_tree.specs.Row.{InRange};
ghost use Rattle.ln_code.specs.Memory.{MadeFor};
ghost use Rattle.ln_code.specs.Part.{Part};
ghost use Rattle.ln_code.specs.RowOf.{row_of};
ghost use Rattle.ln_code.specs.Verdict.{IsVerdict};
ghost use Rattle.ln_due.specs.Due.{sign_number};
ghost use Rattle.ln_factor.specs.Factors.{AreMadeFor, AreVerdicts, IsRowOfFactors, IsSignOfProduct, numbers_of};

use ln_base::Sign;
use ln_code::{Programs, Row, Scratch, Verdict, run_row};

// Multiplies two signs.
fn times(a: Sign, b: Sign) -> Sign
    ensures { sign_number result ≡ sign_number a *ℤ sign_number b }
{
    match a {
        Sign::Zero => Sign::Zero,
        Sign::Plus => b,
        Sign::Minus => match b {
            Sign::Zero => Sign::Zero,
            Sign::Plus => Sign::Minus,
            Sign::Minus => Sign::Plus,
        },
    }
}

// Multiplies the signs of verdicts.
fn product_of(verdicts: &[Verdict]) -> Sign
    ensures { sign_number result ≡ multiplied_numbers (numbers_of verdicts.now) }
{
    let mut sign = Sign::Plus;
    'each: for v in verdicts {
        sign = times(sign, v.sign);
    }
    sign
}

// Returns the verdict of the program at a place.
fn factor_row(ps: &Programs, i: usize, s: &mut Scratch, r: &Row) -> Verdict
    requires place { i < length ps.now }
    requires made { (p : Part) → slice_get ps.now i ≡ Some p → MadeFor p s.old }
    requires range { (p : Part) → slice_get ps.now i ≡ Some p →
        InRange p.shape.sites p.shape.vars (row_of p.shape.sites p.shape.vars r.now) }
    ensures verdict { (p : Part) → slice_get ps.now i ≡ Some p → IsVerdict p (row_of p.shape.sites p.shape.vars r.now) result }
    ensures made { (p : Part) → slice_get ps.now i ≡ Some p → MadeFor p s.new }
{
    run_row(&ps.as_slice()[i], s, r)
}

// Fills in the verdict of each factor.
fn fill(ps: &Programs, which: &[usize], s: &mut [Scratch], r: &Row, out: &mut [Verdict])
    requires places { All (λ i. i < length ps.now) which.now }
    requires row { IsRowOfFactors ps.now which.now r.now }
    requires made { AreMadeFor ps.now which.now s.old }
    requires size { length out.old ≡ length which.now }
    ensures verdicts { AreVerdicts ps.now which.now r.now out.new }
    ensures made { AreMadeFor ps.now which.now s.new }
{
    'factors: for (k, i) in which.iter().enumerate() {
        let verdict = factor_row(ps, *i, &mut s[k], r);
        out[k] = verdict;
    }
}

/// Returns the perturbed sign, on a row in range, of the product of the expressions that programs carry, and fills in the verdict of
/// each factor. A factor is a place in `ps`, from 0; the same place may be in `which` more than once. The programs at these places
/// are over the same variables; each factor has its own scratch, made for its program, and its own verdict. The product isn't formed:
/// each factor runs in its own ranges and widths. Allocates nothing and refuses nothing.
pub fn product_row(
    ps: &Programs,
    which: &[usize],
    s: &mut [Scratch],
    r: &Row,
    out: &mut [Verdict],
) -> Sign
    requires places { All (λ i. i < length ps.now) which.now }
    requires row { IsRowOfFactors ps.now which.now r.now }
    requires made { AreMadeFor ps.now which.now s.old }
    requires size { length out.old ≡ length which.now }
    ensures verdicts { AreVerdicts ps.now which.now r.now out.new }
    ensures sign { sign_number result ≡ multiplied_numbers (numbers_of out.new) }
    ensures perturbed { IsSignOfProduct ps.now which.now r.now (sign_number result) }
    ensures made { AreMadeFor ps.now which.now s.new }
{
    fill(ps, which, s, r, out);
    product_of(out)
}
