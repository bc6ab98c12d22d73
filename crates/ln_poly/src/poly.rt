//! Defines polynomials: lists of terms in the lexicographic order of their monomials, no two equal and none 0.
ghost use Rattle.std.specs.Prelude.{◌≡◌, ◌↔◌, All, [], IfOk, IsTrue};
ghost use Rattle.ln_poly.specs.Sparse.{IsPoly, negated};

use crate::arithmetic::{negate, put_all};
use ln_base::{NoMemory, Seq};
use ln_tree::Exps;
use std::alloc::Global;
use std::marker::Model;

/// A polynomial: its terms, in the lexicographic order of their monomials, distinct, with factors that aren't 0 and are
/// within `2^127 - 1` in absolute value. Contracts see the list of terms, each its pairs and its factor.
#[derive(Drop)]
pub struct Poly {
    terms: Seq<(Exps, i128)>,
}

impl Model for Poly {
    ghost use Rattle.std.specs.Prelude.{ℕ, ℤ, List};
    ghost use Rattle.ln_poly.specs.Sparse.{IsPoly};

    ghost Value = { List (List (ℕ × ℕ) × ℤ) };

    ghost view = { λ f. f.terms };

    ghost invariant = { λ f. IsPoly f.terms };
}

impl Poly {
    /// The polynomial of these terms. It allocates nothing.
    pub fn seal(terms: Seq<(Exps, i128)>) -> Poly
        requires { IsPoly terms }
        ensures { result ≡ terms }
    {
        Poly { terms }
    }

    /// The terms, lent.
    pub fn terms(&self) -> &[(Exps, i128)]
        ensures value { result.now ≡ self.now }
        ensures form { IsPoly self.now }
    {
        self.terms.as_slice()
    }

    // The terms, in the memory that they have.
    pub(crate) fn into_terms(self) -> Vec<(Exps, i128)>
        ensures value { result.items ≡ self }
        ensures form { IsPoly self }
    {
        let Poly { terms } = self;
        terms.into_vec()
    }

    /// An equal polynomial.
    pub fn copy(&self, alloc: Global) -> Result<Poly, NoMemory>
        ensures { IfOk result (λ f. f ≡ self.now) }
    {
        let mut out = Vec::new(alloc);
        put_all(&mut out, self.terms())?;
        Ok(Poly::seal(Seq::from_vec(out)))
    }

    /// Minus the polynomial. It allocates nothing.
    pub fn negated(self) -> Poly
        ensures { result ≡ negated self }
    {
        let mut terms = self.into_terms();
        negate(&mut terms);
        Poly::seal(Seq::from_vec(terms))
    }

    /// The same polynomial?
    pub fn same(&self, other: &Poly) -> bool
        ensures { IsTrue result ↔ (self.now ≡ other.now) }
    {
        self.terms.as_slice() == other.terms.as_slice()
    }
}

/// Is the polynomial 0, without any term? It allocates nothing.
pub fn is_zero(f: &Poly) -> bool
    ensures { IsTrue result ↔ (f.now ≡ []) }
{
    f.terms().is_empty()
}

/// Is the polynomial a number, with no term but that of no variable? It allocates nothing.
pub fn is_constant(f: &Poly) -> bool
    ensures { IsTrue result ↔ All (λ t. t.0 ≡ []) f.now }
{
    let terms = f.terms();
    'terms: for t in terms {
        if !t.0.pairs().is_empty() {
            return false;
        }
    }
    true
}
