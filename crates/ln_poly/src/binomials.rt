//! Binomials of numbers below 128.
ghost use Rattle.std.specs.Prelude.{◌≡◌, ◌<◌, ◌≤◌, ◌+◌, ◌-◌, length};
ghost use Rattle.ln_algebra.specs.Terms.{binomial};
ghost use Rattle.ln_poly.specs.Derivative.{IsColumn};
ghost use Rattle.ln_poly.specs.Values.{IsTriangle};

use ln_base::NoMemory;
use std::alloc::Global;

// From the binomials of k, k + 1, .. and k, the first n of them, to those of k + 1, k + 2, .. and k + 1, by Pascal's rule.
fn raise(c: &mut [u128], k: u8, n: usize)
    requires len { length c.old ≡ 128 }
    requires few { n ≤ 127 - k }
    requires column { IsColumn c.old k n }
    ensures { IsColumn c.new (k + 1) n }
{
    let mut sum = 0u128;
    'column: for i in 0..n {
        sum += c[i];
        c[i] = sum;
    }
}

// The binomials of n, n + 1, .. and n, the first m of them.
pub(crate) fn column(n: u8, m: usize) -> [u128; 128]
    requires { m ≤ 128 - n }
    ensures { IsColumn result n m }
{
    let mut c = [1u128; 128];
    'raises: for k in 0..n {
        raise(&mut c, k, m);
    }
    c
}

/// The binomials of each two numbers below 128.
#[derive(Drop)]
pub struct Binomials {
    columns: Vec<[u128; 128]>,
    ghost each: { IsTriangle columns.items },
}

impl Binomials {
    ghost use Rattle.std.specs.Prelude.{◌≡◌, ◌<◌};
    ghost use Rattle.ln_algebra.specs.Terms.{binomial};

    /// All of them, 256 KB.
    pub fn new(alloc: Global) -> Result<Binomials, NoMemory> {
        let mut columns = Vec::new(alloc);
        let mut c = [1u128; 128];
        'columns: for k in 0..128u8 {
            columns.push(c)?;
            raise(&mut c, k, usize::from(127 - k));
        }
        Ok(Binomials { columns })
    }

    /// How many ways there are to choose k of n. It allocates nothing.
    pub fn of(&self, n: u8, k: u8) -> u128
        requires n { n < 128 }
        requires k { k < 128 }
        ensures { result ≡ binomial n k }
    {
        if n < k {
            return 0;
        }
        self.columns[usize::from(k)][usize::from(n - k)]
    }
}
