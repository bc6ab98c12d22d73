//! Sources whose predicates have no fault.
ghost use Rattle.std.specs.Prelude.{◌≡◌, ◌≤◌, ◌<◌, length, map, slice_get, IfErr, IfOk, Some};
ghost use Rattle.std.specs.List.{AllZip};
ghost use Rattle.ln_base.specs.Limits.{most_source, most_stages};
ghost use Rattle.ln_tree.specs.Table.{pred_of, table_of};
ghost use Rattle.ln_compile.specs.Accepted.{Accepted};
ghost use Rattle.ln_compile.specs.Compiled.{AreProgramsOf, IsBeginningAt, IsProgramAt, IsStageCountAt, pred_number};
ghost use Rattle.ln_stage.specs.Accepted.{IsAcceptedPred, IsBasis};
ghost use Rattle.ln_compile.specs.Polynomial.{IsPolynomialAt};
ghost use Rattle.ln_compile.specs.Refused.{IsRefusal, IsTheOne, IsUnaccepted};
ghost use Rattle.ln_compile.specs.Symmetry.{IsSymmetryAt};

use crate::program::{beginning, program};
use crate::programs::{bases, programs};
use crate::refusal::{Refusal, refusal_of};
use ln_base::{NoMemory, Seq};
use ln_code::{Block, FilterBlock, Program, Programs};
use ln_parse::parse;
use ln_poly::Poly;
use ln_stage::{Basis, Symmetry, symmetry_of};
use ln_tree::{Pred, Table};
use std::alloc::Global;
use std::marker::Model;

// The number of the predicate of a name.
pub(crate) fn found(t: &Table, name: &str) -> Option<usize>
    ensures { result ≡ pred_number name.now t.now.preds }
{
    let name = name.as_bytes();
    t.preds
        .as_slice()
        .iter()
        .position(|p| p.name.bytes() == name)
}

/// The table of a source, each predicate of which is accepted, with the normal polynomial and the stages of each, in order.
/// Programs take more memory than it does, so they are made where they are asked for.
#[derive(Drop)]
pub struct Checked {
    table: Table,
    bases: Seq<Basis>,
}

impl Model for Checked {
    ghost use Rattle.std.specs.Prelude.{map};
    ghost use Rattle.std.specs.Coded.{codes};
    ghost use Rattle.ln_tree.specs.contracts.expr.Node as node;
    ghost use Rattle.ln_tree.specs.Table.{pred_of};
    ghost use Rattle.std.specs.List.{AllZip};
    ghost use Rattle.ln_compile.specs.Compiled.{CheckedOf};
    ghost use Rattle.ln_stage.specs.Accepted.{IsBasis};

    ghost Value = { CheckedOf };

    ghost coded = { Prim.hlevel (codes, node.the_row.coded) };

    ghost view = { λ c. record { table = c.table } };

    ghost invariant = { λ c. AllZip IsBasis (map pred_of c.table.preds) c.bases };
}

impl Checked {
    /// The table of the source.
    pub fn table(&self) -> &Table
        ensures { result.now ≡ self.now.table }
    {
        &self.table
    }

    /// The number of the predicate of a name, from 0; none where no predicate has it. It allocates nothing.
    pub fn find(&self, name: &str) -> Option<usize>
        ensures { result ≡ pred_number name.now self.now.table.preds }
    {
        found(&self.table, name)
    }

    /// The predicate of a number. It allocates nothing.
    pub fn pred(&self, i: usize) -> &Pred
        requires { i < length self.now.table.preds }
        ensures { slice_get self.now.table.preds i ≡ Some result.now }
    {
        self.accepted(i).pred()
    }

    /// A predicate, by its number, with its normal polynomial and the stages of that, which are lent. It allocates nothing.
    pub fn accepted(&self, i: usize) -> ln_stage::Accepted<'_>
        requires { i < length self.now.table.preds }
        ensures pred { slice_get self.now.table.preds i ≡ Some result.pred }
        ensures kept { IsAcceptedPred result }
    {
        ln_stage::Accepted::among(self.table.preds.as_slice(), self.bases.as_slice(), i)
    }

    /// The polynomials and the stages of the predicates, in order.
    pub fn bases(&self) -> &[Basis]
        ensures { AllZip IsBasis (map pred_of self.now.table.preds) result.now }
    {
        self.bases.as_slice()
    }

    /// The stage count of a predicate, by its number. It allocates nothing.
    pub fn stage_count(&self, i: usize) -> u64
        requires { i < length self.now.table.preds }
        ensures { IsStageCountAt (map pred_of self.now.table.preds) i result }
    {
        self.accepted(i).stages().count()
    }

    // The table, and what its predicates go by.
    pub(crate) fn into_parts(self) -> (Table, Seq<Basis>)
        ensures table { result.0 ≡ self.table }
        ensures bases { AllZip IsBasis (map pred_of self.table.preds) result.1 }
    {
        let Checked { table, bases } = self;
        (table, bases)
    }

    /// The program of a predicate, by its number. By `laws::programs_of_a_table` those of all predicates are what `Programs` may hold.
    pub fn program(&self, alloc: Global, i: usize) -> Result<Program, NoMemory>
        requires { i < length self.now.table.preds }
        ensures program { IfOk result (IsProgramAt (map pred_of self.now.table.preds) i) }
        ensures small { IfOk result (λ c. length c.blocks ≤ most_stages) }
    {
        program(alloc, &self.accepted(i))
    }

    /// The filter of a predicate, if it has one, and its block 0, by its number: what its program and that by total degree have in common.
    pub fn beginning(
        &self,
        alloc: Global,
        i: usize,
    ) -> Result<(Option<FilterBlock>, Block), NoMemory>
        requires { i < length self.now.table.preds }
        ensures { IfOk result (IsBeginningAt (map pred_of self.now.table.preds) i) }
    {
        beginning(alloc, self.accepted(i).pred())
    }

    /// The normal polynomial of a predicate, by its number: that of its sign expression with the lets in place of their names. It is
    /// copied, and not expanded once more.
    pub fn polynomial(&self, alloc: Global, i: usize) -> Result<Poly, NoMemory>
        requires { i < length self.now.table.preds }
        ensures { IfOk result (IsPolynomialAt (map pred_of self.now.table.preds) i) }
    {
        self.accepted(i).poly().copy(alloc)
    }

    /// The symmetry of a predicate, by its number: whether its sites are of one type and each exchange of two of them turns its sign, or keeps
    /// it; none exactly where neither holds.
    pub fn symmetry(&self, i: usize) -> Option<Symmetry>
        requires { i < length self.now.table.preds }
        ensures { IsSymmetryAt (map pred_of self.now.table.preds) i result }
    {
        let a = self.accepted(i);
        symmetry_of(&a.pred().shape, a.poly())
    }

    /// The programs of all predicates, in order.
    pub fn programs(&self, alloc: Global) -> Result<Programs, NoMemory>
        ensures { IfOk result (AreProgramsOf (map pred_of self.now.table.preds)) }
    {
        programs(alloc, self.table.preds.as_slice(), self.bases.as_slice())
    }
}

/// The table of a source, each predicate of which is accepted, with their polynomials and stages; or why the source is refused: the first fault
/// of its text, else the fault of the first predicate that has one. Unless memory runs out, it is the one or the other. No program is made.
pub fn check(alloc: Global, bytes: &[u8]) -> Result<Checked, Refusal>
    requires { length bytes.now ≤ most_source }
    ensures ok { IfOk result (λ c. Accepted bytes.now (table_of c.table.sites c.table.params c.table.preds)) }
    ensures err { IfErr result (λ r. IsRefusal bytes.now r) }
    ensures unaccepted { IfErr result (λ r. IsUnaccepted bytes.now r) }
    ensures one { IfErr result (λ r. IsTheOne bytes.now r) }
{
    let table = match parse(alloc, bytes) {
        Ok(table) => table,
        Err(e) => return Err(refusal_of(e)),
    };
    let bases = bases(alloc, table.preds.as_slice())?;
    Ok(Checked { table, bases })
}
