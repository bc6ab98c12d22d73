//! The ranges and widths of a predicate's nodes.
ghost use Rattle.std.specs.Prelude.{◌≡◌, ◌≤◌, ◌<◌, [], ℕ, true, IfOk, length, map, unsigned_abs};
ghost use Rattle.ln_algebra.specs.Tree.{Name};
ghost use Rattle.ln_interval.specs.Range.{IsOrdered, magnitude, most, opposite, point, power};
ghost use Rattle.ln_interval.specs.View.{range};
ghost use Rattle.ln_tree.specs.Fits.{is_fit, lets_fit};
ghost use Rattle.ln_tree.specs.Formula.{formula, tree_of};
ghost use Rattle.ln_bound.specs.Light.{AreLight};
ghost use Rattle.ln_bound.specs.Loads.{loaded_pred};
ghost use Rattle.ln_bound.specs.Exact.{AreExact, IsExact};
ghost use Rattle.ln_bound.specs.Typed.{TInput, TNeg, TNum, TPow, TTwo, kind_of_two, pair, range_of, untyped, width};
ghost use Rattle.ln_bound.specs.View.{typed};
ghost use Rattle.ln_bound.specs.Ranges.{HaveRange, LetsHaveRange, ranges};
ghost use Rattle.ln_bound.specs.Widths.{least, wider};

use crate::fitted::{FitOp, Fitted, Two, Width};
use crate::fitted_pred::FittedPred;
use crate::measure::declared;
use ln_base::{NoMemory, Seq};
use ln_interval::Pair;
use ln_tree::layout::number_in;
use ln_tree::{Expr, Node, Pred, VarInfo};
use std::alloc::Global;

// The least width that fits a pair.
fn least_for(p: Pair) -> Width
    ensures { result ≡ least (magnitude (range p)) }
{
    Width::least(p.magnitude())
}

/// The tree of the number c: its range is c alone, its width the least that fits it.
pub fn number(c: i128) -> Fitted
    requires { unsigned_abs c ≤ most }
    ensures { typed result ≡ TNum c (point c) (least (magnitude (point c))) }
{
    let pair = Pair { low: c, high: c };
    Fitted {
        op: FitOp::Num(c),
        pair,
        width: least_for(pair),
    }
}

/// The tree of variable number v: its range is the declared one, its width the least that fits it.
pub fn input(vars: &[VarInfo], v: usize) -> Fitted
    requires few { length vars.now ≤ 168 }
    requires within { v < length vars.now }
    requires ordered { IsOrdered (ranges vars.now v) }
    ensures { typed result ≡ TInput v (ranges vars.now v) (least (magnitude (ranges vars.now v))) }
{
    let pair = declared(&vars[v]);
    Fitted {
        op: FitOp::Input(v as u8),
        pair,
        width: least_for(pair),
    }
}

fn named(lets: &[Fitted], j: u8) -> Fitted
    requires { j < length lets.now }
    ensures tree { untyped (typed result) ≡ Name j }
    ensures exact { IsExact [] (map typed lets.now) (typed result) }
{
    let of = &lets[usize::from(j)];
    let pair = of.pair;
    Fitted {
        op: FitOp::Let(j),
        pair,
        width: of.width.wider(least_for(pair)),
    }
}

/// The opposite of a tree, with the opposite range; its width is no narrower than the tree's.
pub fn negated(alloc: Global, x: Fitted) -> Result<Fitted, NoMemory>
    ensures { IfOk result (λ t. typed t ≡ TNeg (typed x) (opposite (pair (typed x)))
        (wider (width (typed x)) (least (magnitude (opposite (pair (typed x))))))) }
{
    let pair = x.pair.neg();
    let width = x.width.wider(least_for(pair));
    let x = Box::new(alloc, x)?;
    Ok(Fitted {
        op: FitOp::Neg(x),
        pair,
        width,
    })
}

// The pair of an operation on two, where it is within the limit.
fn pair_of(kind: Two, p: Pair, q: Pair) -> Pair
    requires { magnitude (range_of kind (range p) (range q)) ≤ most }
    ensures { range result ≡ range_of kind (range p) (range q) }
{
    match kind {
        Two::Plus => p.add(q).unwrap(),
        Two::Minus => p.sub(q).unwrap(),
        Two::Times => p.mul(q).unwrap(),
    }
}

/// The sum, difference or product of two trees. Its range is the operation over the operands' ranges, which has to be
/// within `2^127 - 1`; its width is the least that fits the range and is no narrower than an operand.
pub fn two(alloc: Global, kind: Two, x: Fitted, y: Fitted) -> Result<Fitted, NoMemory>
    requires { magnitude (range_of kind (pair (typed x)) (pair (typed y))) ≤ most }
    ensures { IfOk result (λ t. typed t ≡ TTwo kind (typed x) (typed y) (range_of kind (pair (typed x)) (pair (typed y)))
        (wider (wider (width (typed x)) (width (typed y))) (least (magnitude (range_of kind (pair (typed x)) (pair (typed y))))))) }
{
    let pair = pair_of(kind, x.pair, y.pair);
    let width = x.width.wider(y.width).wider(least_for(pair));
    let x = Box::new(alloc, x)?;
    let y = Box::new(alloc, y)?;
    match kind {
        Two::Plus => Ok(Fitted {
            op: FitOp::Add(x, y),
            pair,
            width,
        }),
        Two::Minus => Ok(Fitted {
            op: FitOp::Sub(x, y),
            pair,
            width,
        }),
        Two::Times => Ok(Fitted {
            op: FitOp::Mul(x, y),
            pair,
            width,
        }),
    }
}

// The pair of a power, where it is within the limit.
fn pair_of_power(p: Pair, n: u8) -> Pair
    requires { magnitude (power (range p) n) ≤ most }
    ensures { range result ≡ power (range p) n }
{
    p.power(n).unwrap()
}

/// The power of a tree, whose range has to be within the limit. Its width is the least that fits its range and is no narrower than the tree's.
pub fn raised(alloc: Global, x: Fitted, n: u8) -> Result<Fitted, NoMemory>
    requires { magnitude (power (pair (typed x)) n) ≤ most }
    ensures { IfOk result (λ t. typed t ≡ TPow (typed x) n (power (pair (typed x)) n)
        (wider (width (typed x)) (least (magnitude (power (pair (typed x)) n))))) }
{
    let pair = pair_of_power(x.pair, n);
    let width = x.width.wider(least_for(pair));
    let x = Box::new(alloc, x)?;
    Ok(Fitted {
        op: FitOp::Pow(x, n),
        pair,
        width,
    })
}

/// Which operation on two an expression is, where it is one; else a sum.
pub fn kind_of(e: &Expr) -> Two
    ensures { result ≡ kind_of_two (formula e.now) }
{
    match &e.node {
        Node::Sub(_, _) => Two::Minus,
        Node::Mul(_, _) => Two::Times,
        _ => Two::Plus,
    }
}

// The tree of an expression after lets of these trees.
fn fit(alloc: Global, e: &Expr, vars: &[VarInfo], lets: &[Fitted]) -> Result<Fitted, NoMemory>
    requires few { length vars.now ≤ 168 }
    requires ordered { (k : ℕ) → IsOrdered (ranges vars.now k) }
    requires fit { is_fit (length vars.now) (length lets.now) (tree_of vars.now e.now) ≡ true }
    requires small { HaveRange vars.now (map pair (map typed lets.now)) (tree_of vars.now e.now) }
    ensures tree { IfOk result (λ t. untyped (typed t) ≡ tree_of vars.now e.now) }
    ensures exact { IfOk result (λ t. IsExact vars.now (map typed lets.now) (typed t)) }
{
    match &e.node {
        Node::Num(c) => Ok(number(*c)),
        Node::Input(v) => Ok(input(vars, number_in(vars, *v))),
        Node::Name(j) => Ok(named(lets, *j)),
        Node::Neg(x) => {
            let x = fit(alloc, x, vars, lets)?;
            negated(alloc, x)
        }
        Node::Add(x, y) | Node::Sub(x, y) | Node::Mul(x, y) => {
            let x = fit(alloc, x, vars, lets)?;
            let y = fit(alloc, y, vars, lets)?;
            two(alloc, kind_of(e), x, y)
        }
        Node::Pow(x, n) => {
            let x = fit(alloc, x, vars, lets)?;
            raised(alloc, x, *n)
        }
    }
}

// The trees of the lets, each after those before it.
#[tactic(auto, using(crate::proofs::Soundness::lets_start, crate::proofs::Soundness::next_fit, crate::proofs::Soundness::next_range))]
fn fit_lets(alloc: Global, lets: &[Expr], vars: &[VarInfo]) -> Result<Seq<Fitted>, NoMemory>
    requires few { length vars.now ≤ 168 }
    requires ordered { (k : ℕ) → IsOrdered (ranges vars.now k) }
    requires fit { lets_fit (length vars.now) 0 (map (tree_of vars.now) lets.now) ≡ true }
    requires small { LetsHaveRange vars.now [] (map (tree_of vars.now) lets.now) }
    ensures trees { IfOk result (λ ts. map untyped (map typed ts) ≡ map (tree_of vars.now) lets.now) }
    ensures exact { IfOk result (λ ts. AreExact vars.now [] (map typed ts)) }
{
    let mut done = Seq::new(alloc);
    'each: for e in lets {
        let t = fit(alloc, e, vars, done.as_slice())?;
        done.push(t)?;
    }
    Ok(done)
}

/// The trees of a predicate's lets and root with the range and the width of each node. Each range is exactly its operation
/// over the ranges of its operands, of a variable the declared one; each width is the least that fits the range and is no
/// narrower than an operand. No range and no size of a node may exceed `2^127 - 1`, which `weigh` tests.
pub fn size(alloc: Global, p: &Pred) -> Result<FittedPred, NoMemory>
    requires { AreLight (loaded_pred p.now.shape.vars (map formula p.now.lets) (formula p.now.root)) }
    ensures shape { IfOk result (λ f. f.shape ≡ p.now.shape) }
    ensures lets { IfOk result (λ f. map untyped (map typed f.lets) ≡ map (tree_of p.now.shape.vars) p.now.lets) }
    ensures root { IfOk result (λ f. untyped (typed f.root) ≡ tree_of p.now.shape.vars p.now.root) }
    ensures exact_lets { IfOk result (λ f. AreExact p.now.shape.vars [] (map typed f.lets)) }
    ensures exact_root { IfOk result (λ f. IsExact p.now.shape.vars (map typed f.lets) (typed f.root)) }
{
    let vars = p.shape.vars.as_slice();
    let lets = fit_lets(alloc, p.lets.as_slice(), vars)?;
    let root = fit(alloc, &p.root, vars, lets.as_slice())?;
    let shape = p.shape.copy(alloc)?;
    Ok(FittedPred { shape, lets, root })
}
