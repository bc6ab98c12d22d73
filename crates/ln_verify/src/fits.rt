//! Whether the exponents of a product fit.
ghost use Rattle.std.specs.Prelude.{◌↔◌, IsTrue};
ghost use Rattle.ln_verify.specs.Products.{AllFit};

use ln_poly::largest;
use ln_tree::Exps;

/// Are the exponents of each of several monomials and each of several others, taken together, below 128? They are where the largest exponents
/// of each variable are.
pub fn all_fit(f: &[(Exps, i128)], g: &[(Exps, i128)]) -> bool
    ensures { IsTrue result ↔ AllFit f.now g.now }
{
    let a = largest(f);
    let b = largest(g);
    'vars: for v in 0..256usize {
        if u32::from(a[v]) + u32::from(b[v]) > 127 {
            return false;
        }
    }
    true
}
