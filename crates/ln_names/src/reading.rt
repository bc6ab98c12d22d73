//! Reads the nodes of an expression in one pass over its tokens, without recursion.
ghost use Rattle.std.specs.Prelude.{◌≡◌, OnOk, IfOk, true, []};
ghost use Rattle.ln_names.specs.Machine.{machine, emit_if, settled, wait, operate, enclose, binding, machine_in, Settles};

use crate::nodes::{Node, Operation, Waiting, What};
use ln_base::{NoMemory, Seq, Span};
use ln_lex::Kind;
use std::alloc::Global;

/// What was read of an expression: the nodes whose operands were read, and what waits for an operand or its closing parenthesis.
#[derive(Drop)]
pub(crate) struct Reading {
    pub(crate) nodes: Seq<Node>,
    pub(crate) waiting: Vec<Waiting>,
}

// How tightly an operation binds its operands.
fn binding(p: Operation) -> u8
    ensures { result ≡ binding p }
{
    match p {
        Operation::Negation => 3,
        Operation::Product => 2,
        Operation::Sum | Operation::Difference => 1,
    }
}

impl Reading {
    /// Nothing was read.
    pub(crate) fn new(alloc: Global) -> Reading
        ensures { machine_in result ≡ machine [] [] }
    {
        Reading {
            nodes: Seq::new(alloc),
            waiting: Vec::new(alloc),
        }
    }

    /// Appends a node, if there is one.
    pub(crate) fn emit(&mut self, node: Option<Node>) -> Result<(), NoMemory>
        ensures { OnOk result (machine_in self.new ≡ emit_if (machine_in self.old) node) }
    {
        if let Some(node) = node {
            self.nodes.push(node)?;
        }
        Ok(())
    }

    /// An operation or a parenthesis waits.
    pub(crate) fn wait(&mut self, w: Waiting) -> Result<(), NoMemory>
        ensures { OnOk result (machine_in self.new ≡ wait (machine_in self.old) w) }
    {
        self.waiting.push(w)?;
        Ok(())
    }

    // What waited last is a node, where it is an operation that binds at least this tightly; or else it waits again.
    fn finish(&mut self, w: Waiting, bar: u8) -> Result<bool, NoMemory>
        ensures settles { IfOk result (λ more. Settles more bar (wait (machine_in self.old) w) (machine_in self.new)) }
        ensures rest { IfOk result (λ more. more ≡ true → self.new.waiting.items ≡ self.old.waiting.items) }
    {
        match w {
            Waiting::For(p, at) if binding(p) >= bar => {
                self.nodes.push(Node {
                    what: What::Apply(p),
                    at,
                })?;
                Ok(true)
            }
            _ => {
                self.wait(w)?;
                Ok(false)
            }
        }
    }

    /// Operations that wait and bind at least this tightly are nodes.
    pub(crate) fn settle(&mut self, bar: u8) -> Result<(), NoMemory>
        ensures { OnOk result (machine_in self.new ≡ settled bar (machine_in self.old)) }
    {
        'waiting: while let Some(w) = self.waiting.pop() {
            if !self.finish(w, bar)? {
                return Ok(());
            }
        }
        Ok(())
    }

    /// An operation comes.
    pub(crate) fn operate(&mut self, p: Operation, at: Span) -> Result<(), NoMemory>
        ensures { OnOk result (machine_in self.new ≡ operate p at (machine_in self.old)) }
    {
        if !matches!(p, Operation::Negation) {
            self.settle(binding(p))?;
        }
        self.wait(Waiting::For(p, at))
    }

    /// A parenthesis comes, or another token that is nothing.
    pub(crate) fn enclose(&mut self, kind: Option<Kind>) -> Result<(), NoMemory>
        ensures { OnOk result (machine_in self.new ≡ enclose kind (machine_in self.old)) }
    {
        match kind {
            Some(Kind::ParL) => self.wait(Waiting::Open),
            Some(Kind::ParR) => {
                self.settle(1)?;
                self.waiting.pop();
                Ok(())
            }
            _ => Ok(()),
        }
    }
}
