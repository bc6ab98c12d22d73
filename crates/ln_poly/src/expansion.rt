//! Expands the sign expression of a predicate to its normal polynomial, or finds the first node with too many terms.
ghost use Rattle.std.specs.Prelude.{◌≡◌, ℕ, ◌+◌, ◌*◌, ◌<◌, ◌≤◌, ◌^◌, [], ◌∷◌, true, pos, unsigned_abs, All};
ghost use Rattle.std.specs.Prelude.{List, IfOk, IfErr, OnOk, nat_lt, length, map, slice_index_or, ◌↔◌};
ghost use Rattle.ln_algebra.specs.Tree.{Tree, Num, Input, Neg, Add, Sub, Mul, Pow};
ghost use Rattle.ln_algebra.specs.Vector.{total_degree};
ghost use Rattle.ln_tree.specs.Exps.{vector};
ghost use Rattle.ln_tree.specs.Variables.{number_or_end};
ghost use Rattle.ln_tree.specs.Fits.{is_fit, lets_fit};
ghost use Rattle.ln_tree.specs.Formula.{formula, tree, tree_of};
ghost use Rattle.ln_algebra.specs.Sizes.{two};
ghost use Rattle.ln_bound.specs.Loads.{loaded_pred};
ghost use Rattle.ln_bound.specs.Light.{AreLight as HaveWeights};
ghost use Rattle.ln_poly.specs.Sparse.{size_of};
ghost use Rattle.ln_poly.specs.Rows.{PowersFit};
ghost use Rattle.ln_poly.specs.Expansion.{IsNormal, HaveFewTerms, IsZeroFault, closed_lets, closed_root};
ghost use Rattle.ln_poly.specs.Expansion.{expanded, expanded_lets, expanded_pred, powers};
ghost use Rattle.ln_bound.specs.Typed.{two_of};
ghost use Rattle.ln_poly.specs.Ready.{AreLight, AreNormal, Expands, HasPower, HaveRoom, LetsAreLight};
ghost use Rattle.ln_poly.specs.Stop.{StopsExpanding};

use crate::arithmetic::{add, sub};
use crate::leaf::{number, power};
use crate::packed::Room;
use crate::poly::Poly;
use crate::within::mul_in;
use ln_base::{NoMemory, Seq, Span};
use ln_bound::Two;
use ln_bound::size::kind_of;
use ln_tree::layout::number_in;
use ln_tree::{Expr, Node, Pred, Var, VarInfo};
use std::alloc::Global;

/// Why a predicate has no normal polynomial.
#[derive(Clone, Copy)]
pub enum PolyStop {
    /// The first node in order of evaluation that has more than 1,024 terms, or a power of which a lower one has.
    Terms(Span),
    NoMemory(NoMemory),
}

impl From<NoMemory> for PolyStop {
    ghost use Rattle.ln_poly.specs.declared.expansion.PolyStop.TheVariants.{NoMemory};
    ghost use Rattle.ln_base.specs.Outside.{refused};

    ghost from_gives = { λ _ e. e ≡ NoMemory refused };

    fn from(e: NoMemory) -> Self {
        PolyStop::NoMemory(e)
    }
}

// Are these more terms than a node may have?
fn are_many(terms: usize) -> bool
    ensures { result ≡ nat_lt 1024 terms }
{
    terms > 1024
}

// The polynomial of the node at this place, where it hasn't too many terms.
fn counted(at: Span, f: Poly) -> Result<Poly, PolyStop>
    ensures ok { IfOk result (λ h. (n : ℕ) (e : Tree) → IsNormal n e f → Expands n ((at, e) ∷ []) e h) }
    ensures err { IfErr result (λ s. (n : ℕ) (e : Tree) → IsNormal n e f → StopsExpanding n ((at, e) ∷ []) s) }
{
    if are_many(f.terms().len()) {
        return Err(PolyStop::Terms(at));
    }
    Ok(f)
}

// The polynomial of a number.
fn literal(alloc: Global, at: Span, c: i128) -> Result<Poly, PolyStop>
    requires { unsigned_abs c < 2 ^ 127 }
    ensures ok { IfOk result (λ h. (n : ℕ) → Expands n ((at, Num c) ∷ []) (Num c) h) }
    ensures err { IfErr result (λ s. (n : ℕ) → StopsExpanding n ((at, Num c) ∷ []) s) }
{
    let f = number(alloc, c)?;
    counted(at, f)
}

// The polynomial of a variable.
fn variable(alloc: Global, at: Span, vars: &[VarInfo], v: Var) -> Result<Poly, PolyStop>
    requires few { length vars.now ≤ 168 }
    requires within { number_or_end vars.now v.arg v.coord < length vars.now }
    ensures ok { IfOk result (λ h. Expands (length vars.now) ((at, Input (number_or_end vars.now v.arg v.coord)) ∷ [])
        (Input (number_or_end vars.now v.arg v.coord)) h) }
    ensures err { IfErr result (λ s. StopsExpanding (length vars.now) ((at, Input (number_or_end vars.now v.arg v.coord)) ∷ []) s) }
{
    let f = power(alloc, number_in(vars, v) as u8, 1, 1)?;
    counted(at, f)
}

// The polynomial of a let.
fn let_named(alloc: Global, at: Span, polys: &[Poly], j: u8) -> Result<Poly, PolyStop>
    requires { j < length polys.now }
    ensures ok { IfOk result (λ h. (n : ℕ) (es : List Tree) → AreNormal n es polys.now →
        Expands n ((at, slice_index_or es j (Num (pos 0))) ∷ []) (slice_index_or es j (Num (pos 0))) h) }
    ensures err { IfErr result (λ s. (n : ℕ) (es : List Tree) → AreNormal n es polys.now →
        StopsExpanding n ((at, slice_index_or es j (Num (pos 0))) ∷ []) s) }
{
    let f = polys[usize::from(j)].copy(alloc)?;
    counted(at, f)
}

// The sum of two polynomials, at the place of its node.
fn sum(alloc: Global, at: Span, f: &Poly, g: &Poly) -> Result<Poly, PolyStop>
    requires { size_of f.now + size_of g.now < 2 ^ 127 }
    ensures ok { IfOk result (λ h. (n : ℕ) (d e : Tree) → IsNormal n d f.now → IsNormal n e g.now →
        Expands n ((at, Add d e) ∷ []) (Add d e) h) }
    ensures err { IfErr result (λ s. (n : ℕ) (d e : Tree) → IsNormal n d f.now → IsNormal n e g.now →
        StopsExpanding n ((at, Add d e) ∷ []) s) }
{
    let h = add(alloc, f, g)?;
    counted(at, h)
}

// The difference.
fn difference(alloc: Global, at: Span, f: &Poly, g: &Poly) -> Result<Poly, PolyStop>
    requires { size_of f.now + size_of g.now < 2 ^ 127 }
    ensures ok { IfOk result (λ h. (n : ℕ) (d e : Tree) → IsNormal n d f.now → IsNormal n e g.now →
        Expands n ((at, Sub d e) ∷ []) (Sub d e) h) }
    ensures err { IfErr result (λ s. (n : ℕ) (d e : Tree) → IsNormal n d f.now → IsNormal n e g.now →
        StopsExpanding n ((at, Sub d e) ∷ []) s) }
{
    let h = sub(alloc, f, g)?;
    counted(at, h)
}

// The product.
fn product(alloc: Global, room: &mut Room, at: Span, f: &Poly, g: &Poly) -> Result<Poly, PolyStop>
    requires room { size_of f.now * size_of g.now < 2 ^ 127 }
    requires powers { All (λ s. PowersFit s g.now) f.now }
    ensures ok { IfOk result (λ h. (n : ℕ) (d e : Tree) → IsNormal n d f.now → IsNormal n e g.now →
        Expands n ((at, Mul d e) ∷ []) (Mul d e) h) }
    ensures err { IfErr result (λ s. (n : ℕ) (d e : Tree) → IsNormal n d f.now → IsNormal n e g.now →
        StopsExpanding n ((at, Mul d e) ∷ []) s) }
{
    let found = mul_in(alloc, room, f, g, 1024)?;
    match found {
        Some(h) => Ok(h),
        None => Err(PolyStop::Terms(at)),
    }
}

// The sum, the difference or the product of two polynomials, at the place of its node.
fn of_kind(
    alloc: Global,
    room: &mut Room,
    at: Span,
    kind: Two,
    f: &Poly,
    g: &Poly,
) -> Result<Poly, PolyStop>
    requires { HaveRoom kind f.now g.now }
    ensures ok { IfOk result (λ h. (n : ℕ) (d e : Tree) → IsNormal n d f.now → IsNormal n e g.now →
        Expands n ((at, two_of kind d e) ∷ []) (two_of kind d e) h) }
    ensures err { IfErr result (λ s. (n : ℕ) (d e : Tree) → IsNormal n d f.now → IsNormal n e g.now →
        StopsExpanding n ((at, two_of kind d e) ∷ []) s) }
{
    match kind {
        Two::Plus => sum(alloc, at, f, g),
        Two::Minus => difference(alloc, at, f, g),
        Two::Times => product(alloc, room, at, f, g),
    }
}

// The same, of polynomials that aren't needed any more.
fn both(
    alloc: Global,
    room: &mut Room,
    at: Span,
    kind: Two,
    f: Poly,
    g: Poly,
) -> Result<Poly, PolyStop>
    requires { HaveRoom kind f g }
    ensures ok { IfOk result (λ h. (n : ℕ) (d e : Tree) → IsNormal n d f → IsNormal n e g →
        Expands n ((at, two_of kind d e) ∷ []) (two_of kind d e) h) }
    ensures err { IfErr result (λ s. (n : ℕ) (d e : Tree) → IsNormal n d f → IsNormal n e g →
        StopsExpanding n ((at, two_of kind d e) ∷ []) s) }
{
    of_kind(alloc, room, at, kind, &f, &g)
}

// The polynomial with the other sign.
fn negation(at: Span, f: Poly) -> Result<Poly, PolyStop>
    ensures ok { IfOk result (λ h. (n : ℕ) (e : Tree) → IsNormal n e f → Expands n ((at, Neg e) ∷ []) (Neg e) h) }
    ensures err { IfErr result (λ s. (n : ℕ) (e : Tree) → IsNormal n e f → StopsExpanding n ((at, Neg e) ∷ []) s) }
{
    counted(at, f.negated())
}

// The k-th power, by all lower ones.
fn raised(alloc: Global, room: &mut Room, at: Span, f: &Poly, k: u8) -> Result<Poly, PolyStop>
    requires { HasPower f.now k }
    ensures ok { IfOk result (λ h. (n : ℕ) (e : Tree) → IsNormal n e f.now → Expands n (powers at e k) (Pow e k) h) }
    ensures err { IfErr result (λ s. (n : ℕ) (e : Tree) → IsNormal n e f.now → StopsExpanding n (powers at e k) s) }
{
    let mut p = number(alloc, 1)?;
    'powers: for _j in 0..k {
        p = product(alloc, room, at, &p, f)?;
    }
    Ok(p)
}

// The polynomial of an expression after lets of these polynomials.
fn expand(
    alloc: Global,
    room: &mut Room,
    e: &Expr,
    vars: &[VarInfo],
    lets: &[Expr],
    polys: &[Poly],
) -> Result<Poly, PolyStop>
    requires few { length vars.now ≤ 168 }
    requires fit { is_fit (length vars.now) (length polys.now) (tree_of vars.now e.now) ≡ true }
    requires light { AreLight (length vars.now) two (closed_lets vars.now (map formula lets.now)) (tree_of vars.now e.now) }
    requires polys { AreNormal (length vars.now) (closed_lets vars.now (map formula lets.now)) polys.now }
    ensures ok { IfOk result (λ f. Expands (length vars.now)
        (expanded vars.now (closed_lets vars.now (map formula lets.now)) (formula e.now))
        (closed_root vars.now (map formula lets.now) (formula e.now)) f) }
    ensures err { IfErr result (λ s. StopsExpanding (length vars.now)
        (expanded vars.now (closed_lets vars.now (map formula lets.now)) (formula e.now)) s) }
{
    match &e.node {
        Node::Num(c) => literal(alloc, e.at, *c),
        Node::Input(v) => variable(alloc, e.at, vars, *v),
        Node::Name(j) => let_named(alloc, e.at, polys, *j),
        Node::Neg(x) => {
            let f = expand(alloc, room, x, vars, lets, polys)?;
            negation(e.at, f)
        }
        Node::Add(x, y) | Node::Sub(x, y) | Node::Mul(x, y) => {
            let f = expand(alloc, room, x, vars, lets, polys)?;
            let g = expand(alloc, room, y, vars, lets, polys)?;
            both(alloc, room, e.at, kind_of(e), f, g)
        }
        Node::Pow(x, n) => {
            let f = expand(alloc, room, x, vars, lets, polys)?;
            raised(alloc, room, e.at, &f, *n)
        }
    }
}

// The polynomials of the lets, each after those before it.
fn expand_lets(
    alloc: Global,
    room: &mut Room,
    lets: &[Expr],
    vars: &[VarInfo],
) -> Result<Seq<Poly>, PolyStop>
    requires few { length vars.now ≤ 168 }
    requires fit { lets_fit (length vars.now) 0 (map (tree vars.now) (map formula lets.now)) ≡ true }
    requires light { LetsAreLight (length vars.now) two [] (map (tree vars.now) (map formula lets.now)) }
    ensures polys { IfOk result (λ fs. AreNormal (length vars.now) (closed_lets vars.now (map formula lets.now)) fs) }
    ensures few { OnOk result (HaveFewTerms (length vars.now) (expanded_lets vars.now [] (map formula lets.now))) }
    ensures err { IfErr result (λ s. StopsExpanding (length vars.now) (expanded_lets vars.now [] (map formula lets.now)) s) }
{
    let mut done = Seq::new(alloc);
    'each: for (j, e) in lets.iter().enumerate() {
        let f = expand(alloc, room, e, vars, &lets[..j], done.as_slice())?;
        done.push(f)?;
    }
    Ok(done)
}

/// The normal polynomial of a predicate's root, with its lets substituted; or the first node in order of evaluation that has
/// more than 1,024 terms, where for a power each of its lower powers counts too. It may have no term. No range and no size of
/// a node may exceed `2^127 - 1`: so no coefficient does on the way.
pub fn normal(alloc: Global, p: &Pred) -> Result<Poly, PolyStop>
    requires { HaveWeights (loaded_pred p.now.shape.vars (map formula p.now.lets) (formula p.now.root)) }
    ensures normal { IfOk result (λ f. IsNormal (length p.now.shape.vars)
        (closed_root p.now.shape.vars (map formula p.now.lets) (formula p.now.root)) f) }
    ensures few { OnOk result (HaveFewTerms (length p.now.shape.vars)
        (expanded_pred p.now.shape.vars (map formula p.now.lets) (formula p.now.root))) }
    ensures terms { IfOk result (λ f. length f ≤ 1024) }
    ensures degrees { IfOk result (λ f. All (λ t. total_degree (vector (length p.now.shape.vars) t.0) ≤ 126) f) }
    ensures zero { IfOk result (λ f. (f ≡ []) ↔ IsZeroFault (length p.now.shape.vars)
        (closed_root p.now.shape.vars (map formula p.now.lets) (formula p.now.root))) }
    ensures err { IfErr result (λ s. StopsExpanding (length p.now.shape.vars)
        (expanded_pred p.now.shape.vars (map formula p.now.lets) (formula p.now.root)) s) }
{
    let vars = p.shape.vars.as_slice();
    let lets = p.lets.as_slice();
    let mut room = Room::new(alloc);
    let polys = expand_lets(alloc, &mut room, lets, vars)?;
    expand(alloc, &mut room, &p.root, vars, lets, polys.as_slice())
}
