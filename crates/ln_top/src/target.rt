//! Predicates of a source as they are run, one or the factors of a product, and the line of each record.
ghost use Rattle.std.specs.Prelude.{◌≡◌, ◌<◌, length, map, slice_get, Some, IfOk, Ok};
ghost use Rattle.ln_code.specs.Memory.{MadeFor};
ghost use Rattle.ln_algebra.specs.Orders.{ByDegree, BySmallest};
ghost use Rattle.ln_compile.specs.Filtered.{AnswersFor, IsDueIn};
ghost use Rattle.ln_tree.specs.Table.{PredOf, pred_of};
ghost use Rattle.ln_rows.specs.Header.{names_of};
ghost use Rattle.ln_top.specs.Target.Factors.{IsInRangeOf};
ghost use Rattle.ln_top.specs.Target.Target.{Belongs, pred_in, row_in};

pub mod alike;
pub mod factors;
pub mod line;

use ln_base::NoMemory;
use ln_code::{Program, Row, Scratch, Verdict, run_row};
use ln_compile::Checked;
use ln_tree::{Pred, Table};
use std::alloc::Global;
use std::borrow::Cow;
use std::marker::Model;

/// The order of infinitesimals in which a predicate is run.
#[derive(Clone, Copy)]
pub enum Order {
    /// By the smallest infinitesimal that differs.
    Smallest,
    /// By total degree first.
    Degree,
}

/// A predicate of a source with its table and its program. Contracts see the predicate, the names of its columns and the program; the type keeps the
/// invariant that the program follows the rules and has the verdicts of the predicate in its order of infinitesimals.
#[derive(Drop)]
pub struct Target<'a> {
    table: &'a Table,
    pred: &'a Pred,
    program: Cow<'a, Program>,
    order: Order,
}

impl<'a> Model for Target<'a> {
    ghost use Rattle.std.specs.Coded.{codes};
    ghost use Rattle.std.specs.Cow.{cow_value};
    ghost use Rattle.ln_tree.specs.contracts.expr.Node as node;
    ghost use Rattle.ln_rows.specs.Header.{names_of};
    ghost use Rattle.ln_top.specs.Target.Target.{Belongs, TargetOf, rank_of};

    ghost Value = { TargetOf };

    ghost coded = { Prim.hlevel (codes, node.the_row.coded) };

    ghost view = { λ t. record {
      rank = rank_of t.order;
      pred = t.pred.now;
      names = names_of t.table.now t.pred.now;
      program = cow_value t.program;
    } };

    ghost invariant = { λ t. Belongs (rank_of t.order) t.pred.now (cow_value t.program) };
}

impl<'a> Target<'a> {
    /// The predicate of a source with this number, from 0, and its program, which is made here.
    pub fn new(alloc: Global, c: &'a Checked, i: usize) -> Result<Target<'a>, NoMemory>
        requires { i < length c.now.table.preds }
        ensures pred { IfOk result (λ t. slice_get c.now.table.preds i ≡ Some t.pred) }
        ensures names { IfOk result (λ t. t.names ≡ names_of c.now.table t.pred) }
        ensures rank { IfOk result (λ t. t.rank ≡ BySmallest) }
        ensures belongs { IfOk result (λ t. Belongs t.rank t.pred t.program) }
    {
        let program = c.program(alloc, i)?;
        // The contract of `blocks` states that the program follows the rules.
        let _blocks = program.blocks();
        Ok(Target {
            table: c.table(),
            pred: c.pred(i),
            program: Cow::Owned(program),
            order: Order::Smallest,
        })
    }

    /// The predicate of a source with this number, from 0, and this program of it by total degree first.
    pub fn graded(c: &'a Checked, i: usize, program: &'a Program) -> Target<'a>
        requires within { i < length c.now.table.preds }
        requires answers { (p : PredOf) → slice_get (map pred_of c.now.table.preds) i ≡ Some p → AnswersFor ByDegree p program.now }
        ensures pred { slice_get c.now.table.preds i ≡ Some result.pred }
        ensures names { result.names ≡ names_of c.now.table result.pred }
        ensures rank { result.rank ≡ ByDegree }
        ensures belongs { Belongs result.rank result.pred result.program }
    {
        // The contract of `blocks` states that the program follows the rules.
        let _blocks = program.blocks();
        Target {
            table: c.table(),
            pred: c.pred(i),
            program: Cow::Borrowed(program),
            order: Order::Degree,
        }
    }

    /// The predicate.
    pub fn pred(&self) -> &Pred
        ensures { result.now ≡ self.now.pred }
    {
        self.pred
    }

    /// Returns the table that names the columns.
    pub fn table(&self) -> &Table
        ensures { self.now.names ≡ names_of result.now self.now.pred }
    {
        self.table
    }

    /// Returns the program.
    pub fn program(&self) -> &Program
        ensures { result.now ≡ self.now.program }
    {
        &self.program
    }

    /// Memory in which the program is run.
    pub fn scratch(&self, alloc: Global) -> Result<Scratch, NoMemory>
        ensures made { IfOk result (λ s. MadeFor self.now.program s) }
        ensures belongs { Belongs self.now.rank self.now.pred self.now.program }
    {
        Scratch::new(alloc, &self.program)
    }

    /// Returns the verdict that a row in range requires in its order. Allocates nothing and refuses nothing.
    pub fn verdict(&self, s: &mut Scratch, row: &Row) -> Verdict
        requires made { MadeFor self.now.program s.old }
        requires range { IsInRangeOf self.now.pred row.now }
        ensures due { IsDueIn self.now.rank (pred_in self.now) (row_in self.now row.now) result }
        ensures made { MadeFor self.now.program s.new }
    {
        run_row(&self.program, s, row)
    }
}
