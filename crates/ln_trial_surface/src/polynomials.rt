//! Polynomials, their nested forms, and blocks of these.
ghost use Rattle.std.specs.Prelude.{◌≤◌, [], All, length};
ghost use Rattle.ln_algebra.specs.Vector.{degree};
ghost use Rattle.ln_tree.specs.Exps.{vector};
ghost use Rattle.ln_bound.specs.Sound.{Sound};
ghost use Rattle.ln_bound.specs.View.{typed};
ghost use Rattle.ln_poly.specs.Sparse.{AreBelow};

use ln_base::{NoMemory, Seq};
use ln_bound::weigh::weigh;
use ln_bound::{FitOp, Fitted, Width};
use ln_code::{Block, are_of_sites};
use ln_lower::lower;
use ln_nest::nest;
use ln_poly::{Poly, PolyStop, add, derive, heft, is_constant, is_zero, mul, normal, weight};
use ln_tree::{Exps, Pred, Shape};
use ln_trial_programs::sample::compiled;
use std::alloc::Global;
use std::test::Fail;

#[test]
fn calls_of_polynomials_have_their_types(_rt: HostRuntime) {
    let _: fn(Seq<(Exps, i128)>) -> Poly = Poly::seal;
    let _: fn(&Poly, &Poly) -> bool = Poly::same;
    let _: fn(Global, &Pred) -> Result<Poly, PolyStop> = normal;
    let _: fn(Global, &Poly, &Shape, u8, u8) -> Result<Poly, NoMemory> = derive;
    let _: fn(Global, &Poly, &Poly) -> Result<Poly, NoMemory> = add;
    let _: fn(Global, &Poly, &Poly) -> Result<Poly, NoMemory> = mul;
    let _: fn(&Poly, &Shape) -> Option<u128> = weight;
    let _: fn(&Poly, &Shape) -> Option<u128> = heft;
    let _: fn(&Poly) -> bool = is_zero;
    let _: fn(&Poly) -> bool = is_constant;
    let _: fn(Global, &Poly, &Shape) -> Result<Fitted, NoMemory> = nest;
    let _: fn(Global, &Exps, &Shape, &Fitted, &Seq<Fitted>) -> Result<Block, NoMemory> = lower;
}

const TWICE: &str =
    "site num { t: -10 .. 10; } predicate twice(a: num, b: num) { sign a.t + a.t; }";

// Is it a product within -20 .. 20, of 64 bits?
fn is_within_20(t: &Fitted) -> bool {
    let narrow = match t.width {
        Width::W64 => true,
        Width::W128 => false,
    };
    narrow && t.pair.low == -20 && t.pair.high == 20 && matches!(t.op, FitOp::Mul(_, _))
}

// Is it the block of the derivative by variable 0, once, whose last pair is -20 .. 20?
fn is_block_within_20(b: &Block) -> bool {
    match b.pairs().last() {
        Some(p) => p.low == -20 && p.high == 20 && b.exps().pairs() == [(0u8, 1u8)].as_slice(),
        None => false,
    }
}

// Variable 0 once.
fn first_once(alloc: Global) -> Result<Exps, NoMemory> {
    let mut a = Exps::new(alloc);
    a.push(0, 1)?;
    Ok(a)
}

// Is the block of a tree without lets for the derivative by variable 0, once, such a block?
fn is_lowered(alloc: Global, s: &Shape, t: &Fitted) -> Result<bool, NoMemory>
    requires { Sound s.now.vars [] (typed t.now) }
{
    let a = first_once(alloc)?;
    if !are_of_sites(s.vars.as_slice(), a.pairs()) {
        return Ok(false);
    }
    let lets = Seq::new(alloc);
    let block = lower(alloc, &a, s, t, &lets)?;
    Ok(is_block_within_20(&block))
}

// Is the nested form of a polynomial, whose weighted sum has to fit, such a product, and its block such a block?
fn is_nested(alloc: Global, f: &Poly, s: &Shape) -> Result<bool, NoMemory>
    requires below { AreBelow (length s.now.vars) f.now }
    requires degrees { All (λ t. degree (vector (length s.now.vars) t.0) ≤ 126) f.now }
{
    match weight(f, s) {
        Some(_) => {
            let t = nest(alloc, f, s)?;
            Ok(is_within_20(&t) && is_lowered(alloc, s, &t)?)
        }
        None => Ok(false),
    }
}

// Is it so for a predicate's polynomial, whose ranges and sizes have to fit?
fn is_of(alloc: Global, p: &Pred) -> Result<bool, NoMemory> {
    match weigh(alloc, p) {
        Ok(_) => match normal(alloc, p) {
            Ok(f) => is_nested(alloc, &f, &p.shape),
            Err(_) => Ok(false),
        },
        Err(_) => Ok(false),
    }
}

// Is it so for twice the first of two numbers?
fn is_of_twice(alloc: Global) -> Result<bool, NoMemory> {
    match compiled(alloc, TWICE)? {
        Some(c) => {
            match c.table().preds.as_slice() {
                [p] => is_of(alloc, p),
                _ => Ok(false),
            }
        }
        None => Ok(false),
    }
}

#[test]
fn twice_a_number_is_a_product_within_20_and_so_is_its_block(rt: HostRuntime) -> Result<(), Fail> {
    assert!(rt; is_of_twice(rt.alloc())?);
    Ok(())
}
