//! Builds expressions from their nodes.
ghost use Rattle.std.specs.Prelude.{◌≡◌, ◌≤◌, ◌<◌, [], ◌∷◌, length, map, reverse, IfOk, OnOk};
ghost use Rattle.ln_base.specs.declared.span.Span.{Span as SpanOf};
ghost use Rattle.ln_tree.specs.Formula.{Formula, formula, node_formula, FInput};
ghost use Rattle.ln_parse.specs.Stack.{applied, arity, negated, combined, raised, on_two, is_small_power, Brings, AreOne};

use ln_base::{NoMemory, Span};
use ln_names::{Node as Step, Operation, What};
use ln_tree::{Expr, Node, Var};
use std::alloc::Global;

/// The expression of nodes in postfix order, in one loop over them.
pub fn expression(alloc: Global, nodes: &[Step]) -> Result<Expr, NoMemory>
    requires { AreOne nodes.now }
    ensures { IfOk result (λ x. (f : Formula) → Brings nodes.now [] (f ∷ []) → formula x ≡ f) }
{
    let mut operands = Vec::new(alloc);
    'nodes: for node in nodes {
        apply(alloc, &mut operands, *node)?;
    }
    Ok(operands.pop().unwrap())
}

// A node takes the place of its operands.
fn apply(alloc: Global, operands: &mut Vec<Expr>, node: Step) -> Result<(), NoMemory>
    requires there { arity node.what ≤ length operands.old.items }
    requires small { is_small_power node.what }
    ensures { OnOk result (reverse (map formula operands.new.items) ≡ applied node (reverse (map formula operands.old.items))) }
{
    match node.what {
        What::Number(n) => leaf(operands, node.at, Node::Num(n)),
        What::Let(j) => leaf(operands, node.at, Node::Name(j as u8)),
        What::Input(a, c) => leaf(operands, node.at, input(a, c)),
        What::Apply(Operation::Negation) => negate(alloc, operands, node.at),
        What::Apply(Operation::Sum) => combine(alloc, operands, Operation::Sum, node.at),
        What::Apply(Operation::Difference) => combine(
            alloc,
            operands,
            Operation::Difference,
            node.at,
        ),
        What::Apply(Operation::Product) => combine(alloc, operands, Operation::Product, node.at),
        What::Power(n) => raise(alloc, operands, n, node.at),
    }
}

fn input(a: usize, c: usize) -> Node
    requires { (a < 256) × (c < 256) }
    ensures { (at : SpanOf) → node_formula at result ≡ FInput at a c }
{
    Node::Input(Var {
        arg: a as u8,
        coord: c as u8,
    })
}

fn leaf(operands: &mut Vec<Expr>, at: Span, node: Node) -> Result<(), NoMemory>
    ensures { OnOk result (reverse (map formula operands.new.items) ≡ node_formula at node ∷ reverse (map formula operands.old.items)) }
{
    operands.push(Expr { at, node })?;
    Ok(())
}

fn negate(alloc: Global, operands: &mut Vec<Expr>, at: Span) -> Result<(), NoMemory>
    requires { 1 ≤ length operands.old.items }
    ensures { OnOk result (reverse (map formula operands.new.items) ≡ negated at (reverse (map formula operands.old.items))) }
{
    let x = operands.pop().unwrap();
    let node = Node::Neg(Box::new(alloc, x)?);
    leaf(operands, at, node)
}

fn raise(alloc: Global, operands: &mut Vec<Expr>, n: u8, at: Span) -> Result<(), NoMemory>
    requires { 1 ≤ length operands.old.items }
    ensures { OnOk result (reverse (map formula operands.new.items) ≡ raised n at (reverse (map formula operands.old.items))) }
{
    let x = operands.pop().unwrap();
    let node = Node::Pow(Box::new(alloc, x)?, n);
    leaf(operands, at, node)
}

fn combine(alloc: Global, operands: &mut Vec<Expr>, p: Operation, at: Span) -> Result<(), NoMemory>
    requires { 2 ≤ length operands.old.items }
    ensures { OnOk result (reverse (map formula operands.new.items) ≡ combined p at (reverse (map formula operands.old.items))) }
{
    let y = operands.pop().unwrap();
    let x = operands.pop().unwrap();
    let node = on_two(alloc, p, x, y)?;
    leaf(operands, at, node)
}

// An operation on two operands, each in a box.
fn on_two(alloc: Global, p: Operation, x: Expr, y: Expr) -> Result<Node, NoMemory>
    ensures { IfOk result (λ n. (at : SpanOf) → node_formula at n ≡ on_two p at (formula x) (formula y)) }
{
    let x = Box::new(alloc, x)?;
    let y = Box::new(alloc, y)?;
    Ok(match p {
        Operation::Sum => Node::Add(x, y),
        Operation::Difference => Node::Sub(x, y),
        _ => Node::Mul(x, y),
    })
}
