//! The operations of the processor, which check nothing.
ghost use Rattle.std.specs.Prelude.{◌≡◌, ◌+◌, ◌-◌, ◌<◌, ◌≤◌, ◌∷◌, ◌==◌, if◌then◌else◌, ◌+ℤ◌, ◌-ℤ◌, ◌*ℤ◌, neg_ℤ, true, length};
ghost use Rattle.ln_bound.specs.declared.fitted.Width.TheVariants.{W64};
ghost use Rattle.ln_code.specs.Numbers.{result_of, cut_by, fits};
ghost use Rattle.ln_code.specs.Memory.{at, seen, TwoReady};

use ln_bound::{Two, Width};

// Pushes a number onto the stack, whose top is `top`.
#[tactic(auto, using(crate::proofs::Engines::Cells::seen_push))]
pub(crate) fn push(stack: &mut [i128], top: usize, z: i128) -> usize
    requires { top < length stack.old }
    ensures next { result ≡ top + 1 }
    ensures size { length stack.new ≡ length stack.old }
    ensures stack { seen stack.new result ≡ z ∷ seen stack.old top }
{
    stack[top] = z;
    top + 1
}

// A number that fits 64 bits.
fn narrow(z: i128) -> i64
    requires { fits W64 z ≡ true }
    ensures { result ≡ z }
{
    z as i64
}

fn add(width: Width, x: i128, y: i128) -> i128
    requires left { fits width x ≡ true }
    requires right { fits width y ≡ true }
    requires sum { fits width (x +ℤ y) ≡ true }
    ensures { result ≡ x +ℤ y }
{
    match width {
        Width::W64 => i128::from(narrow(x) + narrow(y)),
        Width::W128 => x + y,
    }
}

fn subtract(width: Width, x: i128, y: i128) -> i128
    requires left { fits width x ≡ true }
    requires right { fits width y ≡ true }
    requires difference { fits width (x -ℤ y) ≡ true }
    ensures { result ≡ x -ℤ y }
{
    match width {
        Width::W64 => i128::from(narrow(x) - narrow(y)),
        Width::W128 => x - y,
    }
}

fn multiply(width: Width, x: i128, y: i128) -> i128
    requires left { fits width x ≡ true }
    requires right { fits width y ≡ true }
    requires product { fits width (x *ℤ y) ≡ true }
    ensures { result ≡ x *ℤ y }
{
    match width {
        Width::W64 => i128::from(narrow(x) * narrow(y)),
        Width::W128 => x * y,
    }
}

fn negate(width: Width, x: i128) -> i128
    requires { fits width x ≡ true }
    ensures { result ≡ neg_ℤ x }
{
    match width {
        Width::W64 => i128::from(-narrow(x)),
        Width::W128 => -x,
    }
}

fn combine(kind: Two, width: Width, x: i128, y: i128) -> i128
    requires left { fits width x ≡ true }
    requires right { fits width y ≡ true }
    requires result { fits width (result_of kind x y) ≡ true }
    ensures { result ≡ result_of kind x y }
{
    match kind {
        Two::Plus => add(width, x, y),
        Two::Minus => subtract(width, x, y),
        Two::Times => multiply(width, x, y),
    }
}

/// z divided by 2^n, towards 0.
#[tactic(auto, using(crate::proofs::Filters::Cutting::cut_far, crate::proofs::Filters::Cutting::halved, crate::proofs::Filters::Cutting::negated_fits))]
pub fn cut(z: i128, n: u8) -> i128
    ensures { result ≡ cut_by n z }
{
    if n == 0 {
        return z;
    }
    if n >= 128 {
        return 0;
    }
    let size = (z.unsigned_abs() >> n) as i128;
    if z < 0 { -size } else { size }
}

// Takes two numbers off the stack and pushes their sum, difference or product.
pub(crate) fn binary(kind: Two, width: Width, stack: &mut [i128], top: usize) -> usize
    requires { TwoReady kind width stack.old top }
    ensures top { result ≡ top - 1 }
    ensures size { length stack.new ≡ length stack.old }
    ensures stack { seen stack.new result ≡ result_of kind (at stack.old (top - 2)) (at stack.old (top - 1)) ∷ seen stack.old (top - 2) }
{
    let x = stack[top - 2];
    let y = stack[top - 1];
    let z = combine(kind, width, x, y);
    push(stack, top - 2, z)
}

// Takes a number off the stack and pushes its negation.
pub(crate) fn unary(width: Width, stack: &mut [i128], top: usize) -> usize
    requires deep { 0 < top }
    requires room { top ≤ length stack.old }
    requires operand { fits width (at stack.old (top - 1)) ≡ true }
    ensures top { result ≡ top }
    ensures size { length stack.new ≡ length stack.old }
    ensures stack { seen stack.new result ≡ neg_ℤ (at stack.old (top - 1)) ∷ seen stack.old (top - 1) }
{
    let x = stack[top - 1];
    let z = negate(width, x);
    push(stack, top - 1, z)
}

// Takes a number off the stack and pushes it divided by 2^n.
pub(crate) fn shorten(n: u8, stack: &mut [i128], top: usize) -> usize
    requires deep { 0 < top }
    requires room { top ≤ length stack.old }
    ensures top { result ≡ top }
    ensures size { length stack.new ≡ length stack.old }
    ensures stack { seen stack.new result ≡ cut_by n (at stack.old (top - 1)) ∷ seen stack.old (top - 1) }
{
    let x = stack[top - 1];
    let z = cut(x, n);
    push(stack, top - 1, z)
}

// Takes a number off the stack into a local.
pub(crate) fn store(local: u8, stack: &[i128], locals: &mut [i128], top: usize) -> usize
    requires deep { 0 < top }
    requires room { top ≤ length stack.now }
    requires locals { 256 ≤ length locals.old }
    ensures top { result ≡ top - 1 }
    ensures size { length locals.new ≡ length locals.old }
    ensures locals { at locals.new ≡ (λ k. if k == local then at stack.now (top - 1) else at locals.old k) }
{
    locals[usize::from(local)] = stack[top - 1];
    top - 1
}
