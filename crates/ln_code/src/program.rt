//! Defines the stack program of a predicate: its filter, its blocks, and which blocks are run at each prefix of an order.
ghost use Rattle.std.specs.Prelude.{◌≡◌, ◌<◌, ◌≤◌, length, take, All, IfOk, MatchOption};
ghost use Rattle.ln_order.specs.Places.{order_places};
ghost use Rattle.ln_code.specs.Part.{Part, without_filter};
ghost use Rattle.ln_code.specs.Kept.{IsProgram};
ghost use Rattle.ln_code.specs.Lists.{list_from, segment_of};
ghost use Rattle.ln_code.specs.OneOrder.{DecidesRising, at_once, in_one_order, list_in_turn, past_all};

use crate::block::Block;
use crate::filter_block::FilterBlock;
use ln_base::{NoMemory, Seq};
use ln_order::{Order, at_prefix};
use ln_tree::Shape;
use std::alloc::Global;
use std::marker::Model;

// One more than the largest of these numbers.
fn past_all(numbers: &[u32]) -> usize
    ensures { result ≡ past_all numbers.now }
{
    let mut past = 0usize;
    'numbers: for n in numbers {
        past = past.max(*n as usize + 1);
    }
    past
}

// The first n blocks.
fn first(blocks: Seq<Block>, n: usize) -> Seq<Block>
    ensures { result ≡ take n blocks }
{
    let mut own = blocks.into_vec();
    own.truncate(n);
    Seq::from_vec(own)
}

// The list at the empty prefix, and at each other one nothing.
fn at_once(alloc: Global, list: Vec<u32>, segments: &[Seq<u32>]) -> Result<Seq<Seq<u32>>, NoMemory>
    ensures { IfOk result (λ s. s ≡ at_once list.items segments.now) }
{
    let mut all = Seq::new(alloc);
    let [_, others @ ..] = segments else {
        return Ok(all);
    };
    all.push(Seq::from_vec(list))?;
    'others: for _ in others {
        all.push(Seq::new(alloc))?;
    }
    Ok(all)
}

/// The stack program of a predicate: its shape, a filter or none, blocks, and for each prefix of orders of its sites, in the order
/// of `all_prefixes`, its segment: the numbers of the blocks that are run where it is reached, which may be none. The list of an
/// order is its segments one after the other. Blocks and filter follow the rules over the variables of the shape, so that on every
/// row in range each value stays in its pair and its width. It has fewer than `2^32` operations; its blocks' exponents are
/// of coordinates of sites; no list is empty or names a block twice.
#[derive(Drop)]
pub struct Program {
    shape: Shape,
    filter: Option<FilterBlock>,
    blocks: Seq<Block>,
    segments: Seq<Seq<u32>>,
}

impl Model for Program {
    ghost use Rattle.ln_code.specs.Part.{Part};
    ghost use Rattle.ln_code.specs.Kept.{IsProgram};

    ghost Value = { Part };

    ghost view = { λ p. record { shape = p.shape; filter = p.filter; blocks = p.blocks; segments = p.segments } };

    ghost invariant = { λ p. IsProgram (record { shape = p.shape; filter = p.filter; blocks = p.blocks; segments = p.segments }) };
}

impl Program {
    /// The program of these parts. It allocates nothing.
    pub fn join(
        shape: Shape,
        filter: Option<FilterBlock>,
        blocks: Seq<Block>,
        segments: Seq<Seq<u32>>,
    ) -> Program
        requires { IsProgram (record { shape = shape; filter = filter; blocks = blocks; segments = segments }) }
        ensures { result ≡ record { shape = shape; filter = filter; blocks = blocks; segments = segments } }
    {
        Program {
            shape,
            filter,
            blocks,
            segments,
        }
    }

    /// The program without its filter: on every row the blocks decide. It allocates nothing, and drops the filter.
    pub fn without_filter(self) -> Program
        ensures { result ≡ without_filter self }
    {
        Program::join(self.shape, None, self.blocks, self.segments)
    }

    /// The shape of its predicate.
    pub fn shape(&self) -> &Shape
        ensures { result.now ≡ self.now.shape }
    {
        &self.shape
    }

    /// Its filter, if it has one.
    pub fn filter(&self) -> Option<&FilterBlock>
        ensures value { MatchOption result (self.now.filter ≡ None) (λ f. self.now.filter ≡ Some f.now) }
        ensures kept { IsProgram self.now }
    {
        self.filter.as_ref()
    }

    /// Its blocks, by number.
    pub fn blocks(&self) -> &[Block]
        ensures value { result.now ≡ self.now.blocks }
        ensures kept { IsProgram self.now }
    {
        self.blocks.as_slice()
    }

    /// The numbers of the blocks that are run where the first j sites of this order are placed; for j = 0, 1, .. one after the
    /// other they are the list of the order. It allocates nothing.
    pub fn segment(&self, o: &Order, j: u8) -> &[u32]
        requires order { length (order_places o.now) ≡ self.now.shape.sites }
        requires within { j ≤ length (order_places o.now) }
        ensures value { result.now ≡ segment_of self.now (take j (order_places o.now)) }
        ensures named { All (λ n. n < length self.now.blocks) result.now }
    {
        at_prefix(self.segments.as_slice(), o, j)
    }

    // The list of the order of the arguments.
    #[tactic(auto, using(crate::proofs::OneOrder::turn_end, crate::proofs::OneOrder::turn_next))]
    fn list_in_turn(&self, alloc: Global) -> Result<Vec<u32>, NoMemory>
        ensures { IfOk result (λ v. v.items ≡ list_in_turn self.now) }
    {
        let sites = self.shape.sites;
        let order = Order::of_arguments(sites);
        let mut list = Vec::new(alloc);
        'sites: for j in 0..sites + 1 {
            list.extend_from_slice(self.segment(&order, j))?;
        }
        Ok(list)
    }

    // The program of the order of the arguments alone.
    fn reduced(self, alloc: Global) -> Result<Program, NoMemory>
        ensures is { IfOk result (λ p. p ≡ in_one_order self) }
        ensures kept { IfOk result (λ p. IsProgram self) }
    {
        let list = self.list_in_turn(alloc)?;
        let past = past_all(list.as_slice());
        let segments = at_once(alloc, list, self.segments.as_slice())?;
        Ok(Program::join(self.shape, None, first(self.blocks, past), segments))
    }

    /// Returns the program of the order of the arguments alone, without a filter: its list is, in each order of the sites, that of the order of
    /// the arguments, and it has no blocks past those of the list. On a row whose indices rise it decides as the program without its filter.
    pub fn in_one_order(self, alloc: Global) -> Result<Program, NoMemory>
        ensures program { IfOk result (λ p. p ≡ in_one_order self) }
        ensures decides { IfOk result (λ p. DecidesRising p (without_filter self)) }
    {
        self.reduced(alloc)
    }
}
