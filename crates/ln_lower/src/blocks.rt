//! Writes the block of a tree with its lets: stack code that computes equal subtrees once, while there are locals for them.
ghost use Rattle.std.specs.Prelude.{◌≡◌, ℕ, ◌+◌, ◌*◌, ◌≤◌, [], All, IfOk, OnOk, Some, List, ℤ, length, map};
ghost use Rattle.ln_algebra.specs.Coefficient.{normal_coefficient};
ghost use Rattle.ln_interval.specs.Range.{Covers};
ghost use Rattle.ln_interval.specs.View.{range};
ghost use Rattle.ln_tree.specs.Row.{AreWithin};
ghost use Rattle.ln_bound.specs.Value.{value, values};
ghost use Rattle.ln_bound.specs.Light.{let_values};
ghost use Rattle.ln_bound.specs.Typed.{cost, costs, pair, polynomial, untyped};
ghost use Rattle.ln_bound.specs.Sound.{AreSound, Sound};
ghost use Rattle.ln_bound.specs.View.{typed};
ghost use Rattle.ln_code.specs.Rules.{Known};
ghost use Rattle.ln_code.specs.Part.{block_value, known_of, lines_of};
ghost use Rattle.ln_code.specs.Kept.{AreOfSites, FollowsRules, IsBlock};
ghost use Rattle.ln_code.specs.Nodes.{IsNodeOf};
ghost use Rattle.ln_lower.specs.Nodes.{KeepsLets, PushNodes, pushed_by};
ghost use Rattle.ln_lower.specs.StackCode.{IsCodeOf};
ghost use Rattle.ln_lower.specs.Lowered.{IsLoweredBlock, PowersFit};
ghost use Rattle.ln_lower.specs.declared.distinct.Key.{Key};
ghost use Rattle.ln_lower.specs.Distinct.{AreNumbersOf, IsNumberOf};
ghost use Rattle.ln_lower.specs.Wrote.{Drafted, PutsLet, PutsLets};

use crate::distinct::{Distinct, number};
use crate::marks::nothing;
use ln_base::{NoMemory, Seq};
use ln_bound::Fitted;
use ln_code::{Block, Built, Draft, Op, put_tree};
use ln_interval::Pair;
use ln_tree::{Exps, Shape};
use std::alloc::Global;

// The numbers of trees, each of which is at one place more.
fn number_all(
    alloc: Global,
    distinct: &mut Distinct,
    trees: &[Fitted],
) -> Result<Seq<usize>, NoMemory>
    ensures { IfOk result (λ ns. AreNumbersOf distinct.new.keys ns (map typed trees.now)) }
{
    let mut numbers = Seq::new(alloc);
    'trees: for t in trees {
        let k = number(distinct, t)?;
        distinct.place(k);
        numbers.push(k)?;
    }
    Ok(numbers)
}

// The operations of a let, whose subtree has number k, into the local of its own number.
fn put_let(
    draft: &mut Draft<Pair>,
    distinct: &Distinct,
    u: &Fitted,
    k: usize,
    j: u8,
) -> Result<(), NoMemory>
    requires powers { PowersFit (typed u.now) }
    requires stands { IsNumberOf distinct.now.keys k (typed u.now) }
    ensures { OnOk result (PutsLet distinct.now.keys draft.old draft.new (typed u.now) j) }
{
    put_tree(draft, distinct, u, k)?;
    draft.code.push(Op::Set(j), nothing())
}

// The operations of the lets, whose subtrees have these numbers, each into the local of its own number.
#[tactic(auto, using(crate::proofs::Subtrees::Numbering::stands_at, crate::proofs::Operations::Writes::no_lets_put))]
fn put_lets(
    draft: &mut Draft<Pair>,
    distinct: &Distinct,
    lets: &[Fitted],
    numbers: &[usize],
) -> Result<(), NoMemory>
    requires few { length lets.now ≤ 64 }
    requires powers { All (λ u. PowersFit (typed u)) lets.now }
    requires stand { AreNumbersOf distinct.now.keys numbers.now (map typed lets.now) }
    requires code { draft.now.code ≡ [] }
    requires kept { draft.now.kept ≡ [] }
    ensures { OnOk result (PutsLets distinct.now.keys draft.new (map typed lets.now)) }
{
    'lets: for (j, u) in lets.iter().enumerate() {
        put_let(draft, distinct, u, numbers[j], j as u8)?;
    }
    Ok(())
}

// The operations of the lets and of a tree after them, whose subtrees have these numbers.
fn drafted(
    alloc: Global,
    distinct: &Distinct,
    lets: &[Fitted],
    numbers: &[usize],
    t: &Fitted,
    k: usize,
) -> Result<Draft<Pair>, NoMemory>
    requires few { length lets.now ≤ 64 }
    requires powers { All (λ u. PowersFit (typed u)) lets.now }
    requires stand { AreNumbersOf distinct.now.keys numbers.now (map typed lets.now) }
    requires root { PowersFit (typed t.now) }
    requires stands { IsNumberOf distinct.now.keys k (typed t.now) }
    ensures { IfOk result (λ d. Drafted distinct.now.keys (map typed lets.now) (typed t.now) d) }
{
    let mut draft = Draft::new(alloc);
    put_lets(&mut draft, distinct, lets, numbers)?;
    put_tree(&mut draft, distinct, t, k)?;
    Ok(draft)
}

// The operations of the lets and of a tree after them, whose subtrees get their numbers.
fn written(alloc: Global, lets: &[Fitted], t: &Fitted) -> Result<Draft<Pair>, NoMemory>
    requires few { length lets.now ≤ 64 }
    requires powers { All (λ u. PowersFit (typed u)) lets.now }
    requires root { PowersFit (typed t.now) }
    ensures { IfOk result (λ d. (ks : List Key) × Drafted ks (map typed lets.now) (typed t.now) d) }
{
    let mut distinct = Distinct::new(alloc)?;
    let numbers = number_all(alloc, &mut distinct, lets)?;
    let k = number(&mut distinct, t)?;
    distinct.place(k);
    drafted(alloc, &distinct, lets, numbers.as_slice(), t, k)
}

// The block of these operations, which computes the derivative of these exponents: copies without spare room, since lists that are cut where
// they lie leave holes between the lists of tens of thousands of blocks.
fn finished(alloc: Global, a: &Exps, code: Built<Pair>) -> Result<Block, NoMemory>
    requires { IsBlock (record { exps = a.now; ops = code.ops; pairs = map range code.bounds; depth = 2048 }) }
    ensures { IfOk result (λ b. b ≡ record { exps = a.now; ops = code.ops; pairs = map range code.bounds; depth = 2048 }) }
{
    let exps = a.copy(alloc)?;
    let ops = code.ops.as_slice().to_vec(alloc)?;
    let bounds = code.bounds.as_slice().to_vec(alloc)?;
    Ok(Block::seal(exps, Seq::from_vec(ops), Seq::from_vec(bounds), 2048))
}

// The block of a tree with its lets, and what is known of it.
#[tactic(auto, using(crate::proofs::Operations::Sealed::all_fit, crate::proofs::Operations::Sealed::root_fits))]
fn lowered(
    alloc: Global,
    a: &Exps,
    s: &Shape,
    t: &Fitted,
    lets: &Seq<Fitted>,
) -> Result<Block, NoMemory>
    requires few { length lets.now ≤ 64 }
    requires lets { AreSound s.now.vars [] (map typed lets.now) }
    requires root { Sound s.now.vars (map typed lets.now) (typed t.now) }
    ensures { IfOk result (λ b. IsLoweredBlock s.now.vars a.now (map typed lets.now) (typed t.now) b) }
{
    let Draft { code, kept: _kept } = written(alloc, lets.as_slice(), t)?;
    finished(alloc, a, code.built())
}

/// The block of a tree with its lets, which computes the derivative of these exponents. The exponents are of coordinates of
/// sites; there are at most 64 lets, each sound over the variables and the lets before it, and the tree is sound over all.
///
/// On every row in range the block has the tree's value. Its operations are the stack code of the lets and of the tree, and no other:
/// each comes from one node and carries that node's range, within a power that of the lower power. What they push are polynomials of
/// nodes of the tree and its lets, a power with the lower powers on its way, and the remaining value has the root's polynomial and a
/// pair within the root's; each sum, difference, product and negation has its node's width. It has at most four times as many operations
/// as the costs of tree and lets together, and 64 more. A let is kept in the local of its number; local 64 serves powers; locals 65 to 255
/// hold shared subtrees: of equal subtrees that are used at two or more places the first is computed, and the later ones are taken from
/// its local. Numbers, variables and names of lets are pushed anew.
pub fn lower(
    alloc: Global,
    a: &Exps,
    s: &Shape,
    t: &Fitted,
    lets: &Seq<Fitted>,
) -> Result<Block, NoMemory>
    requires exps { AreOfSites s.now.vars a.now }
    requires few { length lets.now ≤ 64 }
    requires lets { AreSound s.now.vars [] (map typed lets.now) }
    requires root { Sound s.now.vars (map typed lets.now) (typed t.now) }
    ensures exps { IfOk result (λ b. b.exps ≡ a.now) }
    ensures rules { IfOk result (λ b. FollowsRules s.now.vars b) }
    ensures value { IfOk result (λ b. (zs : List ℤ) → AreWithin s.now.vars zs →
        block_value zs b ≡ Some (value (values zs) (let_values (values zs) [] (map untyped (map typed lets.now)))
        (untyped (typed t.now)))) }
    ensures range { IfOk result (λ b. (k : Known) → known_of s.now.vars b ≡ Some k → Covers (pair (typed t.now)) k.range) }
    ensures root { IfOk result (λ b. (k : Known) → known_of s.now.vars b ≡ Some k → (m : List ℕ) →
        normal_coefficient k.tree m ≡ polynomial (map typed lets.now) (typed t.now) m) }
    ensures nodes { IfOk result (λ b. PushNodes (IsNodeOf (map typed lets.now) (typed t.now)) (pushed_by s.now.vars b)) }
    ensures locals { IfOk result (λ b. KeepsLets s.now.vars b (map typed lets.now)) }
    ensures code { IfOk result (λ b. IsCodeOf (map typed lets.now) (typed t.now) (lines_of b.ops b.pairs)) }
    ensures small { IfOk result (λ b. length b.ops ≤ 4 * (cost (typed t.now) + costs (map typed lets.now)) + 64) }
{
    let b = lowered(alloc, a, s, t, lets)?;
    Ok(b)
}
