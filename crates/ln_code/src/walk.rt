//! Writes the stack code of trees, in any style.
ghost use Rattle.std.specs.Prelude.{◌≡◌, ℕ, ◌+◌, ◌<◌, ◌≤◌, [], ◌∷◌, IfOk, IfSome, OnOk, IsTrue, suc};
ghost use Rattle.ln_interval.specs.Range.{Range};
ghost use Rattle.ln_bound.specs.Typed.{Typed, TInput, TNeg, TTwo, TPow, cost, operation};
ghost use Rattle.ln_bound.specs.View.{typed};
ghost use Rattle.ln_bound.specs.declared.fitted.Two.{Two as Kind};
ghost use Rattle.ln_bound.specs.declared.fitted.Width.{Width as Wide};
ghost use Rattle.ln_code.specs.Engine.{op_of};
ghost use Rattle.ln_code.specs.StackCode.{Style, after_left, after_right, division, line, power_of, raised_to, with_division};
ghost use Rattle.ln_code.specs.Walk.{Gives, PutsKept, KeptIn, MayKeep, Puts, Wrote, after_division, left_by, after_excess};
ghost use Rattle.ln_code.specs.declared.op.Op.TheVariants.{Get as GetOp, Mul as MulOp, Neg as NegOp};

use crate::draft::Draft;
use crate::op::Op;
use ln_base::NoMemory;
use ln_bound::{FitOp, Fitted, Two, Width};

/// How the code of trees is written: what bounds each operation, what is divided, and which subtrees are kept.
pub trait Marks {
    /// What bounds a value.
    type Bound: Copy + Drop;

    // The bound as the definitions have it, how code is written, which trees may be written, and which tree a number is.
    ghost Told: { Type 0 };

    ghost told: { Self.Bound → Told };

    ghost style: { Self → Style Told };

    ghost good: { Self → Typed → Type 0 };

    ghost is_number: { Self → ℕ → Typed → Type 0 };

    // Are subtrees kept?
    ghost shares: { Self → Type 0 };

    // May what has this bound be divided by 2^n?
    ghost divides: { Told → ℕ → Type 0 };

    /// The bound of what stores.
    fn none(&self) -> Self::Bound
        ensures { told result ≡ (style self.now).none };

    /// The width at which the operation of a node of a width is done.
    fn width(&self, w: Width) -> Width
        ensures { result ≡ (style self.now).at_width w };

    /// The bound of a tree.
    fn mark(&self, t: &Fitted) -> Self::Bound
        requires { good self.now (typed t.now) }
        ensures { told result ≡ (style self.now).mark (typed t.now) };

    /// The bound of a tree whose operations leave this one.
    fn left(&self, t: &Fitted, b: Self::Bound) -> Self::Bound
        requires good { good self.now (typed t.now) }
        requires left { told b ≡ left_by (style self.now) (typed t.now) }
        ensures { told result ≡ (style self.now).mark (typed t.now) };

    /// The bound of a variable before it is divided.
    fn input(&self, t: &Fitted, v: u8) -> Self::Bound
        requires { (p : Range) × (w : Wide) × (typed t.now ≡ TInput v p w) }
        ensures value { told result ≡ (style self.now).raw (typed t.now) }
        ensures divides { divides (told result) ((style self.now).excess (told result)) };

    /// The bound of an operation on two, before it is divided.
    fn two(&self, t: &Fitted, x: &Fitted, y: &Fitted, a: Self::Bound, b: Self::Bound) -> Self::Bound
        requires good { good self.now (typed t.now) }
        requires is { (p : Range) × (w : Wide) × (typed t.now ≡ TTwo (operation (typed t.now)) (typed x.now) (typed y.now) p w) }
        requires left { told a ≡ (style self.now).mark (typed x.now) }
        requires right { told b ≡ (style self.now).mark (typed y.now) }
        ensures value { told result ≡ (style self.now).raw (typed t.now) }
        ensures divides { divides (told result) ((style self.now).excess (told result)) };

    /// The bound of the product with one more factor, where p is that of the power m, before it is divided.
    fn factor(&self, x: &Fitted, w: Width, m: u8, p: Self::Bound, a: Self::Bound) -> Self::Bound
        requires good { (n : ℕ) × (q : Range) × good self.now (TPow (typed x.now) n q w) × (m + 1 ≤ n) }
        requires power { told p ≡ (style self.now).mark (raised_to (typed x.now) m w) }
        requires base { told a ≡ (style self.now).mark (typed x.now) }
        ensures value { told result ≡ (style self.now).raw (raised_to (typed x.now) (suc m) w) }
        ensures divides { divides (told result) ((style self.now).excess (told result)) };

    /// By which power of 2 what has this bound is divided.
    fn excess(&self, b: Self::Bound) -> u8
        ensures { result ≡ (style self.now).excess (told b) };

    /// By which power of 2 an operand of the first bound is divided beside one of the second.
    fn align(&self, o: Two, a: Self::Bound, b: Self::Bound) -> u8
        ensures { result ≡ (style self.now).align o (told a) (told b) };

    /// The bound after a division by 2^n.
    fn divided(&self, n: u8, b: Self::Bound) -> Self::Bound
        requires { divides (told b) n }
        ensures { told result ≡ (style self.now).divided n (told b) };

    /// The number of the operand of a subtree, of two the left one.
    fn operand(&self, k: usize) -> usize
        ensures opposite { (t : Typed) (p : Range) (w : Wide) → is_number self.now k (TNeg t p w) → is_number self.now result t }
        ensures left { (o : Kind) (t u : Typed) (p : Range) (w : Wide) → is_number self.now k (TTwo o t u p w) → is_number self.now result t }
        ensures base { (t : Typed) (n : ℕ) (p : Range) (w : Wide) → is_number self.now k (TPow t n p w) → is_number self.now result t };

    /// The number of the right operand.
    fn right(&self, k: usize) -> usize
        ensures { (o : Kind) (t u : Typed) (p : Range) (w : Wide) → is_number self.now k (TTwo o t u p w) → is_number self.now result u };

    /// Is a subtree kept where a local is free? Its number is one tree alone then.
    fn is_shared(&self, k: usize) -> bool
        ensures shares { IsTrue result → shares self.now }
        ensures unique { IsTrue result → (t u : Typed) → is_number self.now k t → is_number self.now k u → t ≡ u };

    // What may be written has operands that may be, and these may be brought to one power of 2.
    ghost opposite: { (m : Self) (t : Typed) (p : Range) (w : Wide) → good m (TNeg t p w) → good m t };

    ghost operands: { (m : Self) (o : Kind) (t u : Typed) (p : Range) (w : Wide) → good m (TTwo o t u p w) → good m t × good m u };

    ghost base: { (m : Self) (t : Typed) (n : ℕ) (p : Range) (w : Wide) → good m (TPow t n p w) → good m t };

    ghost aligns: { (m : Self) (o : Kind) (t u : Typed) → good m t → good m u →
        divides ((style m).mark t) ((style m).align o ((style m).mark t) ((style m).mark u)) };

    // A power without its last factor has the bound that is left of the product before it, and the power 1 that of its base.
    ghost powers: { (m : Self) (t : Typed) (n : ℕ) (w : Wide) → 1 ≤ n → (style m).mark (raised_to t (suc n) w) ≡
        after_excess (style m) ((style m).raw (raised_to t (suc n) w)) };

    ghost first: { (m : Self) (t : Typed) (n : ℕ) (p : Range) (w : Wide) → good m (TPow t n p w) → (style m).mark (raised_to t 1 w) ≡ (style m).mark t };
}

// Appends an operation and its bound.
fn put<M: Marks>(draft: &mut Draft<M::Bound>, op: Op, b: M::Bound) -> Result<(), NoMemory>
    ensures { OnOk result (Wrote M.told draft.old draft.new (line op (M.told b) ∷ []) []) }
{
    draft.code.push(op, b)
}

// The division by 2^n of what has this bound.
fn put_division<M: Marks>(
    draft: &mut Draft<M::Bound>,
    m: &M,
    n: u8,
    b: M::Bound,
) -> Result<M::Bound, NoMemory>
    requires { M.divides (M.told b) n }
    ensures { IfOk result (Gives M.told draft.old draft.new (division (M.style m.now).divided n (M.told b))
        (after_division (M.style m.now).divided n (M.told b))) }
{
    if n == 0 {
        return Ok(b);
    }
    let c = m.divided(n, b);
    put::<M>(draft, Op::Cut(n), c)?;
    Ok(c)
}

// An operation, and the division that follows it.
fn put_divided<M: Marks>(
    draft: &mut Draft<M::Bound>,
    m: &M,
    op: Op,
    b: M::Bound,
) -> Result<M::Bound, NoMemory>
    requires { M.divides (M.told b) ((M.style m.now).excess (M.told b)) }
    ensures { IfOk result (Gives M.told draft.old draft.new (with_division (M.style m.now) op (M.told b))
        (after_excess (M.style m.now) (M.told b))) }
{
    put::<M>(draft, op, b)?;
    put_division(draft, m, m.excess(b), b)
}

// One more factor, the base, whose bound is a and which is in local 64: the product is done in width w and has the bound b.
fn put_factor<M: Marks>(
    draft: &mut Draft<M::Bound>,
    m: &M,
    w: Width,
    a: M::Bound,
    b: M::Bound,
) -> Result<M::Bound, NoMemory>
    requires { M.divides (M.told b) ((M.style m.now).excess (M.told b)) }
    ensures { IfOk result (Gives M.told draft.old draft.new
        (line (GetOp 64) (M.told a) ∷ with_division (M.style m.now) (MulOp ((M.style m.now).at_width w)) (M.told b))
        (after_excess (M.style m.now) (M.told b))) }
{
    put::<M>(draft, Op::Get(64), a)?;
    put_divided(draft, m, Op::Mul(m.width(w)), b)
}

// The power n + 1, after its base, whose bound is a.
fn put_power<M: Marks>(
    draft: &mut Draft<M::Bound>,
    m: &M,
    t: &Fitted,
    x: &Fitted,
    n: u8,
    a: M::Bound,
) -> Result<M::Bound, NoMemory>
    requires good { M.good m.now (typed t.now) }
    requires is { (p : Range) × (typed t.now ≡ TPow (typed x.now) (suc n) p t.now.width) }
    requires few { n + 1 ≤ 255 }
    requires base { M.told a ≡ (M.style m.now).mark (typed x.now) }
    ensures { IfOk result (Gives M.told draft.old draft.new (power_of (M.style m.now) (typed x.now) t.now.width n)
        ((M.style m.now).mark (typed t.now))) }
{
    if n == 0 {
        return Ok(m.left(t, a));
    }
    put::<M>(draft, Op::Set(64), m.none())?;
    put::<M>(draft, Op::Get(64), a)?;
    let mut p = a;
    'factors: for j in 0..n {
        let b = m.factor(x, t.width, j + 1, p, a);
        let q = put_factor(draft, m, t.width, a, b)?;
        p = q;
    }
    Ok(m.left(t, p))
}

// Keeps the value on the stack, that of the subtree of this number, if it is shared and a local is free.
fn keep<M: Marks>(draft: &mut Draft<M::Bound>, m: &M, k: usize, b: M::Bound) -> Result<(), NoMemory>
    ensures { OnOk result (MayKeep M.told (M.style m.now) (M.shares m.now) draft.old draft.new k (M.told b)) }
{
    let n = draft.kept.len();
    if n < 191 && m.is_shared(k) {
        put::<M>(draft, Op::Set(65 + n as u8), m.none())?;
        put::<M>(draft, Op::Get(65 + n as u8), b)?;
        draft.kept.push(k)?;
    }
    Ok(())
}

// The end of a tree that is computed: its value may be kept.
#[tactic(auto, using(crate::proofs::Building::Walks::puts_kept))]
fn put_kept<M: Marks>(
    draft: &mut Draft<M::Bound>,
    m: &M,
    t: &Fitted,
    k: usize,
    b: M::Bound,
) -> Result<M::Bound, NoMemory>
    requires numbered { M.is_number m.now k (typed t.now) }
    requires bound { M.told b ≡ (M.style m.now).mark (typed t.now) }
    ensures { IfOk result (PutsKept M.told (M.style m.now) (M.is_number m.now) (M.shares m.now) draft.old draft.new (typed t.now)) }
{
    keep(draft, m, k, b)?;
    Ok(b)
}

// The local in which a subtree is kept, if it is shared.
fn local_of<M: Marks>(draft: &Draft<M::Bound>, m: &M, k: usize) -> Option<u8>
    ensures { IfSome result (λ j. KeptIn (M.shares m.now) (M.is_number m.now) draft.now.kept k j) }
{
    if m.is_shared(k) {
        draft.local_of(k)
    } else {
        None
    }
}

// The division of the left operand, whose bound is a, beside the right one.
fn put_left<M: Marks>(
    draft: &mut Draft<M::Bound>,
    m: &M,
    o: Two,
    x: &Fitted,
    y: &Fitted,
    a: M::Bound,
) -> Result<(), NoMemory>
    requires left { M.good m.now (typed x.now) }
    requires right { M.good m.now (typed y.now) }
    requires base { M.told a ≡ (M.style m.now).mark (typed x.now) }
    ensures { OnOk result (Wrote M.told draft.old draft.new (after_left (M.style m.now) o (typed x.now) (typed y.now)) []) }
{
    let n = m.align(o, a, m.mark(y));
    put_division(draft, m, n, a)?;
    Ok(())
}

// A tree whose operation this is: a leaf, or a tree that is kept.
fn put_leaf<M: Marks>(
    draft: &mut Draft<M::Bound>,
    m: &M,
    t: &Fitted,
    op: Op,
) -> Result<M::Bound, NoMemory>
    requires { M.good m.now (typed t.now) }
    ensures { IfOk result (Gives M.told draft.old draft.new (line op ((M.style m.now).mark (typed t.now)) ∷ []) ((M.style m.now).mark (typed t.now))) }
{
    let b = m.mark(t);
    put::<M>(draft, op, b)?;
    Ok(b)
}

// A variable.
fn put_input<M: Marks>(
    draft: &mut Draft<M::Bound>,
    m: &M,
    t: &Fitted,
    v: u8,
) -> Result<M::Bound, NoMemory>
    requires good { M.good m.now (typed t.now) }
    requires is { (p : Range) × (w : Wide) × (typed t.now ≡ TInput v p w) }
    ensures { IfOk result (Puts M.told (M.style m.now) (M.is_number m.now) (M.shares m.now) draft.old draft.new (typed t.now)) }
{
    let b = put_divided(draft, m, Op::Input(v), m.input(t, v))?;
    Ok(m.left(t, b))
}

// A negation, after its operand, whose bound is a.
fn put_opposite<M: Marks>(
    draft: &mut Draft<M::Bound>,
    m: &M,
    t: &Fitted,
    a: M::Bound,
) -> Result<M::Bound, NoMemory>
    requires good { M.good m.now (typed t.now) }
    requires left { M.told a ≡ left_by (M.style m.now) (typed t.now) }
    ensures { IfOk result (Gives M.told draft.old draft.new
        (line (NegOp ((M.style m.now).at_width t.now.width)) ((M.style m.now).mark (typed t.now)) ∷ []) ((M.style m.now).mark (typed t.now))) }
{
    let b = m.left(t, a);
    put::<M>(draft, Op::Neg(m.width(t.width)), b)?;
    Ok(b)
}

// The operation on two, after its operands, whose bounds are a and b.
fn put_two<M: Marks>(
    draft: &mut Draft<M::Bound>,
    m: &M,
    t: &Fitted,
    x: &Fitted,
    y: &Fitted,
    a: M::Bound,
    b: M::Bound,
) -> Result<M::Bound, NoMemory>
    requires good { M.good m.now (typed t.now) }
    requires is { (p : Range) × (typed t.now ≡ TTwo (operation (typed t.now)) (typed x.now) (typed y.now) p t.now.width) }
    requires left { M.told a ≡ (M.style m.now).mark (typed x.now) }
    requires right { M.told b ≡ (M.style m.now).mark (typed y.now) }
    ensures { IfOk result (λ c. (p : Range) → typed t.now ≡ TTwo (operation (typed t.now)) (typed x.now) (typed y.now) p t.now.width →
        Gives M.told draft.old draft.new (after_right (M.style m.now) (operation (typed t.now)) (typed x.now) (typed y.now) p t.now.width)
        ((M.style m.now).mark (typed t.now)) c) }
{
    let n = m.align(t.operation(), b, a);
    put_division(draft, m, n, b)?;
    let c = put_divided(draft, m, op_of(t, m.width(t.width)), m.two(t, x, y, a, b))?;
    Ok(m.left(t, c))
}

// The operation on two that a tree is, at this width.
fn op_of(t: &Fitted, w: Width) -> Op
    ensures { result ≡ op_of (operation (typed t.now)) w }
{
    match t.operation() {
        Two::Plus => Op::Add(w),
        Two::Minus => Op::Sub(w),
        Two::Times => Op::Mul(w),
    }
}

// The number of the right operand, which costs less and may be written.
fn second<M: Marks>(m: &M, t: &Fitted, x: &Fitted, y: &Fitted, k: usize) -> usize
    requires good { M.good m.now (typed t.now) }
    requires numbered { M.is_number m.now k (typed t.now) }
    requires is { (p : Range) × (typed t.now ≡ TTwo (operation (typed t.now)) (typed x.now) (typed y.now) p t.now.width) }
    ensures falls { cost (typed y.now) < cost (typed t.now) }
    ensures good { M.good m.now (typed y.now) }
    ensures numbered { M.is_number m.now result (typed y.now) }
{
    m.right(k)
}

/// Appends the operations of a tree, whose number is k, and returns its bound.
pub fn put_tree<M: Marks>(
    draft: &mut Draft<M::Bound>,
    m: &M,
    t: &Fitted,
    k: usize,
) -> Result<M::Bound, NoMemory>
    requires good { M.good m.now (typed t.now) }
    requires numbered { M.is_number m.now k (typed t.now) }
    ensures { IfOk result (Puts M.told (M.style m.now) (M.is_number m.now) (M.shares m.now) draft.old draft.new (typed t.now)) }
{
    if let Some(j) = local_of(draft, m, k) {
        return put_leaf(draft, m, t, Op::Get(j));
    }
    match &t.op {
        FitOp::Num(c) => put_leaf(draft, m, t, Op::Push(*c)),
        FitOp::Input(v) => put_input(draft, m, t, *v),
        FitOp::Let(j) => put_leaf(draft, m, t, Op::Get(*j)),
        FitOp::Neg(x) => {
            let a = put_tree(draft, m, x, m.operand(k))?;
            let b = put_opposite(draft, m, t, a)?;
            put_kept(draft, m, t, k, b)
        }
        FitOp::Add(x, y) | FitOp::Sub(x, y) | FitOp::Mul(x, y) => {
            let a = put_tree(draft, m, x, m.operand(k))?;
            put_left(draft, m, t.operation(), x, y, a)?;
            let b = put_tree(draft, m, y, second(m, t, x, y, k))?;
            let c = put_two(draft, m, t, x, y, a, b)?;
            put_kept(draft, m, t, k, c)
        }
        FitOp::Pow(x, n) => {
            if *n == 0 {
                let b = put_leaf(draft, m, t, Op::Push(1))?;
                put_kept(draft, m, t, k, b)
            } else {
                let a = put_tree(draft, m, x, m.operand(k))?;
                let b = put_power(draft, m, t, x, *n - 1, a)?;
                put_kept(draft, m, t, k, b)
            }
        }
    }
}
