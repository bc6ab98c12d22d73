//! The stages of a polynomial.
ghost use Rattle.std.specs.Prelude.{◌≡◌, ◌<◌, ◌≤◌, slice_index_or, [], length, take, IfOk};
ghost use Rattle.ln_order.specs.Places.{order_places};
ghost use Rattle.ln_order.specs.Prefixes.{prefixes_of};
ghost use Rattle.ln_stage.specs.Staged.{count_numbers, lists_in, segment_of};

use ln_base::{NoMemory, Seq};
use ln_order::{Order, at_prefix};
use ln_tree::Exps;
use std::alloc::Global;
use std::marker::Model;

/// The stages of a polynomial: for each prefix of orders of the sites, in the order of `all_prefixes`, the blocks of its
/// segment by number, and the exponents of each block. The list of an order is its segments one after the other. Blocks are
/// numbered in order of first sight through the lists of all orders, in the order of `all_orders`.
#[derive(Drop)]
pub struct Stages {
    sites: u8,
    blocks: Seq<Exps>,
    segments: Seq<Seq<u32>>,
    count: u64,
}

impl Model for Stages {
    ghost use Rattle.std.specs.Prelude.{◌≡◌, ◌≤◌, length};
    ghost use Rattle.ln_order.specs.Prefixes.{prefixes_of};
    ghost use Rattle.ln_stage.specs.Staged.{Staged, count_numbers, lists_in};

    ghost Value = { Staged };

    ghost view = { λ s. record { sites = s.sites; exps = s.blocks; segments = s.segments; lists = lists_in s.sites s.segments } };

    ghost invariant = { λ s. record {
      few : s.sites ≤ 5;
      each : length s.segments ≡ length (prefixes_of s.sites);
      counted : s.count ≡ count_numbers (lists_in s.sites s.segments);
    } };
}

impl Stages {
    // The stages with these segments.
    pub(crate) fn of(sites: u8, blocks: Seq<Exps>, segments: Seq<Seq<u32>>, count: u64) -> Stages
        requires few { sites ≤ 5 }
        requires each { length segments ≡ length (prefixes_of sites) }
        requires counted { count ≡ count_numbers (lists_in sites segments) }
        ensures { result ≡ record { sites = sites; exps = blocks; segments = segments; lists = lists_in sites segments } }
    {
        Stages {
            sites,
            blocks,
            segments,
            count,
        }
    }

    /// The stage count: how many stages there are in all lists.
    pub fn count(&self) -> u64
        ensures { result ≡ count_numbers self.now.lists }
    {
        self.count
    }

    /// How many blocks there are.
    pub fn blocks(&self) -> usize
        ensures { result ≡ length self.now.exps }
    {
        self.blocks.len()
    }

    /// The exponents of a block, by its number.
    pub fn exps(&self, i: usize) -> &Exps
        requires { i < length self.now.exps }
        ensures { result.now ≡ slice_index_or self.now.exps i [] }
    {
        &self.blocks.as_slice()[i]
    }

    /// The exponents of all blocks, by number. It allocates nothing.
    pub fn all_exps(&self) -> &[Exps]
        ensures { result.now ≡ self.now.exps }
    {
        self.blocks.as_slice()
    }

    /// The segment of an order of the sites at its first j places, as numbers of blocks: the members of its list, in order,
    /// whose last site with an exponent is the j-th, and with j = 0 the member 0. It is that of every order with these
    /// first places, and the segments for j = 0, 1, .. are the list. It allocates nothing.
    pub fn segment(&self, o: &Order, j: u8) -> &[u32]
        requires order { length (order_places o.now) ≡ self.now.sites }
        requires within { j ≤ length (order_places o.now) }
        ensures { result.now ≡ segment_of self.now (take j (order_places o.now)) }
    {
        at_prefix(self.segments.as_slice(), o, j)
    }

    /// The segments of all prefixes, in the order of `all_prefixes`. It allocates nothing.
    pub fn segments(&self) -> &[Seq<u32>]
        ensures { result.now ≡ self.now.segments }
    {
        self.segments.as_slice()
    }

    /// A copy of the segments of all prefixes, in the order of `all_prefixes`.
    pub fn copy_segments(&self, alloc: Global) -> Result<Seq<Seq<u32>>, NoMemory>
        ensures { IfOk result (λ s. s ≡ self.now.segments) }
    {
        let mut segments = Vec::with_capacity(alloc, self.segments.len())?;
        'each: for segment in self.segments.as_slice() {
            let numbers = segment.as_slice().to_vec(alloc)?;
            segments.push(Seq::from_vec(numbers))?;
        }
        Ok(Seq::from_vec(segments))
    }

    /// The segments of all prefixes, in the order of `all_prefixes`, handed over. It allocates nothing.
    pub fn into_segments(self) -> Seq<Seq<u32>>
        ensures { result ≡ self.segments }
    {
        self.segments
    }
}
