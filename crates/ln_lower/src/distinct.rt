//! Numbers the distinct subtrees of trees, and counts the places at which each is used.
ghost use Rattle.std.specs.Prelude.{◌≡◌, IfOk, slice_get};
ghost use Rattle.ln_interval.specs.View.{range};
ghost use Rattle.ln_bound.specs.View.{typed};
ghost use Rattle.ln_lower.specs.Distinct.{Added, Numbered, key, operand_or, right_or};

use crate::keys::Keys;
use ln_base::NoMemory;
use ln_bound::{FitOp, Fitted, Two, Width};
use std::alloc::Global;

/// A subtree by its root: its operation over the numbers of its operands, the two ends of its range, and its width.
#[derive(Clone, Copy, PartialEq, Eq, Hash)]
pub(crate) struct Key {
    pub(crate) op: KeyOp,
    pub(crate) low: i128,
    pub(crate) high: i128,
    pub(crate) width: Width,
}

/// A number, a variable, a let, or an operation on subtrees of these numbers.
#[derive(Clone, Copy, PartialEq, Eq, Hash)]
pub(crate) enum KeyOp {
    Number(i128),
    Variable(u8),
    Name(u8),
    Opposite(usize),
    Both(Two, usize, usize),
    Raised(usize, u8),
}

/// Subtrees, no two of them equal, each after its operands, with the places at which each is used.
#[derive(Drop)]
pub(crate) struct Distinct {
    pub(crate) keys: Keys,
    places: Vec<u8>,
}

impl Distinct {
    /// No subtrees.
    pub(crate) fn new(alloc: Global) -> Result<Distinct, NoMemory> {
        Ok(Distinct {
            keys: Keys::new(alloc)?,
            places: Vec::new(alloc),
        })
    }

    // The number of a subtree, a new one where it isn't there.
    fn add(&mut self, key: Key) -> Result<usize, NoMemory>
        ensures { IfOk result (λ k. Added self.old.keys self.new.keys k key) }
    {
        let (k, is_new) = self.keys.insert(key)?;
        if is_new {
            self.note(key.op)?;
        }
        Ok(k)
    }

    // Notes a new subtree with this operation, and one place more of each of its operands.
    fn note(&mut self, op: KeyOp) -> Result<(), NoMemory>
        ensures { self.new.keys ≡ self.old.keys }
    {
        match op {
            KeyOp::Opposite(a) | KeyOp::Raised(a, _) => self.place(a),
            KeyOp::Both(_, a, b) => {
                self.place(a);
                self.place(b);
            }
            KeyOp::Number(_) | KeyOp::Variable(_) | KeyOp::Name(_) => {}
        }
        self.places.push(0)?;
        Ok(())
    }

    /// Notes one place more of a subtree.
    pub(crate) fn place(&mut self, k: usize)
        ensures { self.new.keys ≡ self.old.keys }
    {
        if let Some(places) = self.places.get_mut(k) {
            *places = places.saturating_add(1);
        }
    }

    /// Is a subtree used at two or more places?
    pub(crate) fn is_shared(&self, k: usize) -> bool {
        match self.places.get(k) {
            Some(places) => *places > 1,
            None => false,
        }
    }

    /// The number of the operand, of two the left one.
    pub(crate) fn operand(&self, k: usize) -> usize
        ensures { result ≡ operand_or (slice_get self.now.keys k) }
    {
        match self.keys.get(k) {
            Some(x) => match x.op {
                KeyOp::Opposite(a) | KeyOp::Both(_, a, _) | KeyOp::Raised(a, _) => a,
                KeyOp::Number(_) | KeyOp::Variable(_) | KeyOp::Name(_) => 0,
            },
            None => 0,
        }
    }

    /// The number of the right operand.
    pub(crate) fn right(&self, k: usize) -> usize
        ensures { result ≡ right_or (slice_get self.now.keys k) }
    {
        match self.keys.get(k) {
            Some(x) => match x.op {
                KeyOp::Both(_, _, b) => b,
                KeyOp::Opposite(_)
                | KeyOp::Raised(_, _)
                | KeyOp::Number(_)
                | KeyOp::Variable(_)
                | KeyOp::Name(_) => 0,
            },
            None => 0,
        }
    }
}

// The subtree of this operation with a tree's range and width.
fn key_of(op: KeyOp, t: &Fitted) -> Key
    ensures { result ≡ key op (range t.now.pair) t.now.width }
{
    Key {
        op,
        low: t.pair.low,
        high: t.pair.high,
        width: t.width,
    }
}

// The number of a tree with this operation over its operands' numbers, a new one where it isn't there.
fn noted(distinct: &mut Distinct, op: KeyOp, t: &Fitted) -> Result<usize, NoMemory>
    ensures { IfOk result (λ k. Added distinct.old.keys distinct.new.keys k (key op (range t.now.pair) t.now.width)) }
{
    distinct.add(key_of(op, t))
}

/// The number of a tree, which is appended after its subtrees where it isn't there.
pub(crate) fn number(distinct: &mut Distinct, t: &Fitted) -> Result<usize, NoMemory>
    ensures { IfOk result (λ k. Numbered distinct.old.keys distinct.new.keys k (typed t.now)) }
{
    match &t.op {
        FitOp::Num(c) => noted(distinct, KeyOp::Number(*c), t),
        FitOp::Input(v) => noted(distinct, KeyOp::Variable(*v), t),
        FitOp::Let(j) => noted(distinct, KeyOp::Name(*j), t),
        FitOp::Neg(x) => {
            let a = number(distinct, x)?;
            noted(distinct, KeyOp::Opposite(a), t)
        }
        FitOp::Add(x, y) | FitOp::Sub(x, y) | FitOp::Mul(x, y) => {
            let a = number(distinct, x)?;
            let b = number(distinct, y)?;
            noted(distinct, KeyOp::Both(t.operation(), a, b), t)
        }
        FitOp::Pow(x, n) => {
            let a = number(distinct, x)?;
            noted(distinct, KeyOp::Raised(a, *n), t)
        }
    }
}
