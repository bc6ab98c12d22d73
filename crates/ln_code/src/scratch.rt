//! The memory in which programs run.
ghost use Rattle.std.specs.Prelude.{◌≡◌, ◌≤◌, All, IfOk, IfSome, length};
ghost use Rattle.ln_code.specs.Memory.{MadeFor};

use crate::block::Block;
use crate::program::Program;
use ln_base::NoMemory;
use std::alloc::Global;

/// A stack and locals, made for a program: the stack has as many places as the program's filter and each of its blocks may take.
#[derive(Drop)]
pub struct Scratch {
    pub(crate) stack: Vec<i128>,
    pub(crate) locals: Vec<i128>,
}

// The larger depth of a block and of those before it.
#[tactic(auto, using(crate::proofs::Engines::Depths::deeper))]
fn deepest(blocks: &[Block]) -> u32
    ensures { All (λ c. c.depth ≤ result) blocks.now }
{
    let mut most = 0;
    'each: for b in blocks {
        most = b.depth().max(most);
    }
    most
}

fn filter_depth(p: &Program) -> u32
    ensures { IfSome p.now.filter (λ f. f.depth ≤ result) }
{
    match p.filter() {
        Some(f) => f.depth(),
        None => 0,
    }
}

// So many zeros.
fn zeros(alloc: Global, n: usize) -> Result<Vec<i128>, NoMemory>
    ensures { IfOk result (λ v. length v.items ≡ n) }
{
    let v = vec![in alloc; 0i128; n]?;
    Ok(v)
}

impl Scratch {
    /// A scratch made for the program.
    pub fn new(alloc: Global, p: &Program) -> Result<Scratch, NoMemory>
        ensures { IfOk result (λ s. MadeFor p.now s) }
    {
        let places = deepest(p.blocks()).max(filter_depth(p));
        let stack = zeros(alloc, places as usize)?;
        let locals = zeros(alloc, 256)?;
        Ok(Scratch { stack, locals })
    }
}
