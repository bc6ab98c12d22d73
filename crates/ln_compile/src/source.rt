//! Compiles a whole source at once: its table, and a program and a stage count for each predicate.
ghost use Rattle.std.specs.Prelude.{◌≡◌, ◌≤◌, ◌<◌, length, map, IfErr, IfOk};
ghost use Rattle.ln_base.specs.Limits.{most_source};
ghost use Rattle.ln_tree.specs.Table.{pred_of, table_of};
ghost use Rattle.ln_compile.specs.Accepted.{Accepted};
ghost use Rattle.ln_compile.specs.Compiled.{AreProgramsOf, IsStageCountAt, pred_number};
ghost use Rattle.ln_compile.specs.Refused.{IsRefusal, IsTheOne, IsUnaccepted};

use crate::checked::{check, found};
use crate::refusal::Refusal;
use ln_base::Seq;
use ln_code::Programs;
use ln_stage::Basis;
use ln_tree::Table;
use std::alloc::Global;
use std::marker::Model;

/// What a source is compiled to: its table, each predicate of which is accepted, and one program and one stage count for each
/// predicate, in order.
#[derive(Drop)]
pub struct Compiled {
    /// The table of the source.
    pub table: Table,
    /// The programs of its predicates, in order.
    pub programs: Programs,
    bases: Seq<Basis>,
}

impl Model for Compiled {
    ghost use Rattle.std.specs.Prelude.{map};
    ghost use Rattle.std.specs.Coded.{codes};
    ghost use Rattle.ln_tree.specs.contracts.expr.Node as node;
    ghost use Rattle.ln_tree.specs.Table.{pred_of};
    ghost use Rattle.std.specs.List.{AllZip};
    ghost use Rattle.ln_compile.specs.Compiled.{AreProgramsOf, CompiledOf};
    ghost use Rattle.ln_stage.specs.Accepted.{IsBasis};

    ghost Value = { CompiledOf };

    ghost coded = { Prim.hlevel (codes, node.the_row.coded) };

    ghost view = { λ c. record { table = c.table; programs = c.programs } };

    ghost invariant = { λ c. record {
      made : AreProgramsOf (map pred_of c.table.preds) c.programs;
      bases : AllZip IsBasis (map pred_of c.table.preds) c.bases;
    } };
}

impl Compiled {
    /// Returns the field `table`.
    pub fn table(&self) -> &Table
        ensures { result.now ≡ self.now.table }
    {
        &self.table
    }

    /// Returns the field `programs`, of which the contract says what the type keeps: a caller that is lent a value knows it by this call alone.
    pub fn programs(&self) -> &Programs
        ensures value { result.now ≡ self.now.programs }
        ensures kept { AreProgramsOf (map pred_of self.now.table.preds) self.now.programs }
    {
        &self.programs
    }

    /// The number of the predicate of a name, from 0; none where no predicate has it. It allocates nothing.
    pub fn find(&self, name: &str) -> Option<usize>
        ensures { result ≡ pred_number name.now self.now.table.preds }
    {
        found(&self.table, name)
    }

    /// The stage count of a predicate, by its number. It allocates nothing.
    pub fn stage_count(&self, i: usize) -> u64
        requires { i < length self.now.table.preds }
        ensures { IsStageCountAt (map pred_of self.now.table.preds) i result }
    {
        ln_stage::Accepted::among(self.table.preds.as_slice(), self.bases.as_slice(), i)
            .stages()
            .count()
    }
}

/// The table of a source, each predicate of which is accepted, with its programs; or why the source is refused: the first fault
/// of its text, else the fault of the first predicate that has one. Unless memory runs out, it is the one or the other.
pub fn compile(alloc: Global, bytes: &[u8]) -> Result<Compiled, Refusal>
    requires { length bytes.now ≤ most_source }
    ensures ok { IfOk result (λ c. Accepted bytes.now (table_of c.table.sites c.table.params c.table.preds)) }
    ensures err { IfErr result (λ r. IsRefusal bytes.now r) }
    ensures unaccepted { IfErr result (λ r. IsUnaccepted bytes.now r) }
    ensures one { IfErr result (λ r. IsTheOne bytes.now r) }
{
    let checked = check(alloc, bytes)?;
    let programs = checked.programs(alloc)?;
    let (table, bases) = checked.into_parts();
    Ok(Compiled {
        table,
        programs,
        bases,
    })
}
