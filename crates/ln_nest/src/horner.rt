//! The nested form of a polynomial: with the terms that have variable v divided by a power of it, it is that power times these, and the others.
ghost use Rattle.std.specs.Prelude.{◌≡◌, ℕ, List, ◌+◌, ◌-◌, ◌*◌, ◌^◌, ◌<◌, ◌≤◌, max, true, false, [], All, IfOk, length};
ghost use Rattle.ln_algebra.specs.Vector.{degree};
ghost use Rattle.ln_algebra.specs.Weights.{weighted_sum};
ghost use Rattle.ln_interval.specs.Range.{IsOrdered, magnitude, power, product};
ghost use Rattle.ln_interval.specs.View.{range};
ghost use Rattle.ln_tree.specs.Exps.{vector};
ghost use Rattle.ln_bound.specs.Light.{most};
ghost use Rattle.ln_bound.specs.Exact.{AreWithinPairs, IsExact};
ghost use Rattle.ln_bound.specs.Sound.{Sound};
ghost use Rattle.ln_bound.specs.Typed.{cost, pair, polynomial, untyped};
ghost use Rattle.ln_bound.specs.View.{typed};
ghost use Rattle.ln_bound.specs.Ranges.{ranges};
ghost use Rattle.ln_bound.specs.Value.{sizes};
ghost use Rattle.ln_bound.specs.Widths.{least};
ghost use Rattle.ln_poly.specs.Sparse.{AreBelow, coefficient_at, terms_of};
ghost use Rattle.ln_nest.specs.Lean.{AreLean, HasNoZero, largest};
ghost use Rattle.ln_nest.specs.Nested.{by_squares, horner, is_number, is_power, is_square, nested, nested_form, power as variable_power};
ghost use Rattle.ln_nest.specs.View.{Has, IsScaled, product_of, scale, square_of, terms_in};

use crate::work::{Work, constant, halves, is_power, parted, power_at_once, rests, work_of};
use ln_base::NoMemory;
use ln_bound::size::{input, negated, number, raised, two};
use ln_bound::{FitOp, Fitted, Two};
use ln_poly::Poly;
use ln_tree::{Shape, VarInfo};
use std::alloc::Global;

// Is the tree this number?
fn is_number(t: &Fitted, z: i128) -> bool
    ensures { result ≡ is_number z (untyped (typed t.now)) }
{
    match &t.op {
        FitOp::Num(c) => *c == z,
        _ => false,
    }
}

// The product of two trees: where the second is 1 or -1, the first or its opposite.
fn times(alloc: Global, x: Fitted, y: Fitted) -> Result<Fitted, NoMemory>
    requires { magnitude (product (pair (typed x)) (pair (typed y))) ≤ most }
    ensures { IfOk result (λ t. typed t ≡ product_of (typed x) (typed y)) }
{
    if is_number(&y, 1) {
        return Ok(x);
    }
    if is_number(&y, -1) {
        return negated(alloc, x);
    }
    two(alloc, Two::Times, x, y)
}

// Is a power the square of its half, and not a product with the variable?
fn is_square(e: u8) -> bool
    ensures { result ≡ is_square e }
{
    e >= 4 && e % 2 == 0
}

// The power e of variable v in at most k steps.
fn powered(alloc: Global, vars: &[VarInfo], v: usize, k: u8, e: u8) -> Result<Fitted, NoMemory>
    requires variable { v < length vars.now }
    requires few { length vars.now ≤ 168 }
    requires ordered { (k : ℕ) → IsOrdered (ranges vars.now k) }
    requires some { 1 ≤ e }
    requires steps { e ≤ k + 1 }
    requires small { scale vars.now v ^ e ≤ most }
    ensures { IfOk result (λ t. Has vars.now (typed t) (variable_power k v e) (scale vars.now v ^ e)) }
{
    if e < 2 {
        return Ok(input(vars, v));
    }
    if is_square(e) {
        let half = powered(alloc, vars, v, k - 1, e / 2)?;
        return raised(alloc, half, 2);
    }
    let lower = powered(alloc, vars, v, k - 1, e - 1)?;
    two(alloc, Two::Times, lower, input(vars, v))
}

// The power e of variable v times h.
fn scaled(alloc: Global, vars: &[VarInfo], v: usize, e: u8, h: Fitted) -> Result<Fitted, NoMemory>
    requires variable { v < length vars.now }
    requires few { length vars.now ≤ 168 }
    requires ordered { (k : ℕ) → IsOrdered (ranges vars.now k) }
    requires power { (1 ≤ e) × (e ≤ 126) }
    requires small { scale vars.now v ^ e ≤ most }
    requires product { scale vars.now v ^ e * magnitude (pair (typed h)) ≤ most }
    ensures { IfOk result (λ t. IsScaled vars.now v e (typed h) (typed t)) }
{
    let x = powered(alloc, vars, v, e, e)?;
    let t = times(alloc, x, h)?;
    Ok(t)
}

// The tree of terms in the variables from v on, by powers in up to d steps.
#[cycle(powers)]
fn nest_from(
    alloc: Global,
    vars: &[VarInfo],
    d: u8,
    v: usize,
    terms: Vec<Work>,
) -> Result<Fitted, NoMemory>
    requires variable { v ≤ length vars.now }
    requires few { length vars.now ≤ 168 }
    requires ordered { (k : ℕ) → IsOrdered (ranges vars.now k) }
    requires some { HasNoZero (terms_in terms.items) }
    requires weight { weighted_sum (scale vars.now) (terms_in terms.items) ≤ most }
    ensures { IfOk result (λ t. Has vars.now (typed t) (nested d (length vars.now - v) v (terms_in terms.items))
        (weighted_sum (scale vars.now) (terms_in terms.items))) }
{
    if v == vars.len() {
        return Ok(number(constant(terms.as_slice())));
    }
    by_powers(alloc, vars, d, v, d, terms)
}

// The tree of terms by powers of v, in at most b steps.
#[cycle(powers)]
fn by_powers(
    alloc: Global,
    vars: &[VarInfo],
    d: u8,
    v: usize,
    b: u8,
    terms: Vec<Work>,
) -> Result<Fitted, NoMemory>
    requires variable { v < length vars.now }
    requires few { length vars.now ≤ 168 }
    requires ordered { (k : ℕ) → IsOrdered (ranges vars.now k) }
    requires some { HasNoZero (terms_in terms.items) }
    requires weight { weighted_sum (scale vars.now) (terms_in terms.items) ≤ most }
    ensures { IfOk result (λ t. Has vars.now (typed t)
        (horner (nested d (length vars.now - (v + 1)) (v + 1)) v b (terms_in terms.items))
        (weighted_sum (scale vars.now) (terms_in terms.items))) }
{
    if b == 0 {
        return nest_from(alloc, vars, d, v + 1, terms);
    }
    let e = power_at_once(terms.as_slice(), v);
    let (with, without) = parted(alloc, v, e, terms)?;
    if with.is_empty() {
        return nest_from(alloc, vars, d, v + 1, without);
    }
    let h = by_powers(alloc, vars, d, v, b - 1, with)?;
    let product = scaled(alloc, vars, v, e, h)?;
    if without.is_empty() {
        return Ok(product);
    }
    let i = nest_from(alloc, vars, d, v + 1, without)?;
    two(alloc, Two::Plus, product, i)
}

// Is there one term, with an exponent of b or more, and a square left to take?
fn has_square(k: u8, b: u8, terms: &[Work]) -> bool
    ensures yes { result ≡ true → (1 ≤ k) × (is_power b (terms_in terms.now) ≡ true) }
    ensures no { result ≡ false → 1 ≤ k → is_power b (terms_in terms.now) ≡ false }
{
    if k == 0 {
        return false;
    }
    is_power(terms, b)
}

// The tree of terms: of one with an exponent of b or more the square of its half times the rest, in at most k squares.
fn by_squares(
    alloc: Global,
    vars: &[VarInfo],
    k: u8,
    b: u8,
    terms: Vec<Work>,
) -> Result<Fitted, NoMemory>
    requires few { length vars.now ≤ 168 }
    requires ordered { (k : ℕ) → IsOrdered (ranges vars.now k) }
    requires some { HasNoZero (terms_in terms.items) }
    requires weight { weighted_sum (scale vars.now) (terms_in terms.items) ≤ most }
    ensures { IfOk result (λ t. Has vars.now (typed t) (by_squares 126 (length vars.now) k b (terms_in terms.items))
        (weighted_sum (scale vars.now) (terms_in terms.items))) }
{
    if !has_square(k, b, terms.as_slice()) {
        return nest_from(alloc, vars, 126, 0, terms);
    }
    let half = halves(alloc, terms.as_slice())?;
    let rest = rests(alloc, terms.as_slice())?;
    let root = by_squares(alloc, vars, k - 1, 4, half)?;
    let square = raised(alloc, root, 2)?;
    let t = nest_from(alloc, vars, 126, 0, rest)?;
    times(alloc, square, t)
}

/// The nested form of the polynomial f, whose terms have a degree of at most 126, as a tree: by powers of the first variable,
/// each factor of them by powers of the next. A power of 8 and more by which all terms with the variable can be divided is taken at
/// once, by squares. Where f is one term with such a power, it is the square of the half of its monomial times the rest, and so is
/// that half, so that its variables share their squares. Each range is exactly its operation over the operands' ranges, of a variable
/// the declared one; each width is the least that fits it and is no narrower than an operand. Each range is within `-W .. W`,
/// W being the sum of f's absolute factors, each times its monomial at the largest absolute values of the variables, and at
/// least 1 of each; W has to be at most `2^127 - 1`. No node has more terms than f, or than one where f has none, or a larger
/// exponent of a variable. There are at most 1,024 operations for each term of f, and one where f has none.
pub fn nest(alloc: Global, f: &Poly, s: &Shape) -> Result<Fitted, NoMemory>
    requires below { AreBelow (length s.now.vars) f.now }
    requires degrees { All (λ t. degree (vector (length s.now.vars) t.0) ≤ 126) f.now }
    requires small { weighted_sum (sizes s.now.vars) (terms_of (length s.now.vars) f.now) ≤ most }
    ensures same { IfOk result (λ t. (m : List ℕ) → length m ≡ length s.now.vars →
        polynomial [] (typed t) m ≡ coefficient_at (length s.now.vars) f.now m) }
    ensures form { IfOk result (λ t. untyped (typed t) ≡ nested_form (length s.now.vars) (terms_of (length s.now.vars) f.now)) }
    ensures sound { IfOk result (λ t. Sound s.now.vars [] (typed t)) }
    ensures exact { IfOk result (λ t. IsExact s.now.vars [] (typed t)) }
    ensures within { IfOk result (λ t. AreWithinPairs (weighted_sum (sizes s.now.vars) (terms_of (length s.now.vars) f.now)) (typed t)) }
    ensures lean { IfOk result (λ t. AreLean (length s.now.vars) (max 1 (length f.now)) (largest f.now) (untyped (typed t))) }
    ensures cheap { IfOk result (λ t. cost (typed t) ≤ max 1 (1024 * length f.now)) }
{
    let vars = s.vars.as_slice();
    let terms = work_of(alloc, f.terms(), vars.len())?;
    let t = by_squares(alloc, vars, 7, 8, terms)?;
    Ok(t)
}
