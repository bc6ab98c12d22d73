//! Compares two trees: their operations, leaves, ranges and widths.
ghost use Rattle.std.specs.Prelude.{◌≡◌, ◌↔◌, IsTrue};
ghost use Rattle.ln_bound.specs.View.{typed};

use crate::fitted::{FitOp, Fitted, Width};

fn is_same_width(a: Width, b: Width) -> bool
    ensures { IsTrue result ↔ (a ≡ b) }
{
    match a {
        Width::W64 => b == Width::W64,
        Width::W128 => b == Width::W128,
    }
}

impl Fitted {
    /// Are the two trees equal in operations, leaves, pairs and widths? It allocates nothing.
    pub fn same(&self, other: &Fitted) -> bool
        ensures { IsTrue result ↔ (typed self.now ≡ typed other.now) }
    {
        if !is_same_width(self.width, other.width) {
            return false;
        }
        if self.pair.low != other.pair.low {
            return false;
        }
        if self.pair.high != other.pair.high {
            return false;
        }
        match (&self.op, &other.op) {
            (FitOp::Num(c), FitOp::Num(d)) => *c == *d,
            (FitOp::Input(v), FitOp::Input(w)) => *v == *w,
            (FitOp::Let(i), FitOp::Let(j)) => *i == *j,
            (FitOp::Neg(x), FitOp::Neg(y)) => x.same(y),
            (FitOp::Add(x, y), FitOp::Add(z, w)) => x.same(z) && y.same(w),
            (FitOp::Sub(x, y), FitOp::Sub(z, w)) => x.same(z) && y.same(w),
            (FitOp::Mul(x, y), FitOp::Mul(z, w)) => x.same(z) && y.same(w),
            (FitOp::Pow(x, m), FitOp::Pow(y, n)) => *m == *n && x.same(y),
            _ => false,
        }
    }
}
