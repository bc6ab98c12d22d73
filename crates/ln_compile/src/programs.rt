//! Predicates, judged one after the other, and compiled.
ghost use Rattle.std.specs.Prelude.{◌≡◌, ◌≤◌, true, length, map, IfErr, IfOk};
ghost use Rattle.std.specs.List.{AllZip};
ghost use Rattle.ln_tree.specs.Table.{pred_of};
ghost use Rattle.ln_tree.specs.Whole.{differ};
ghost use Rattle.ln_stage.specs.Accepted.{IsBasis};
ghost use Rattle.ln_compile.specs.Compiled.{AreProgramsOf};
ghost use Rattle.ln_compile.specs.Refused.{StopsPreds};

use crate::judge::judged;
use crate::program::program;
use crate::refusal::Refusal;
use ln_base::{NoMemory, Seq};
use ln_code::Programs;
use ln_stage::{Accepted, Basis};
use ln_tree::Pred;
use std::alloc::Global;

/// What the predicates of a table go by; else the fault of the first that has one.
pub(crate) fn bases(alloc: Global, preds: &[Pred]) -> Result<Seq<Basis>, Refusal>
    requires { length preds.now ≤ 16 }
    ensures bases { IfOk result (λ bs. AllZip IsBasis (map pred_of preds.now) bs) }
    ensures err { IfErr result (λ r. StopsPreds (map pred_of preds.now) r) }
{
    let mut all = Seq::new(alloc);
    'each: for (k, p) in preds.iter().enumerate() {
        let one = judged(alloc, k as u8, p)?;
        all.push(one)?;
    }
    Ok(all)
}

/// The programs of the predicates of a table, whose names differ.
pub(crate) fn programs(alloc: Global, preds: &[Pred], bases: &[Basis]) -> Result<Programs, NoMemory>
    requires bases { AllZip IsBasis (map pred_of preds.now) bases.now }
    requires names { differ (map (λ p. p.shape_name) (map pred_of preds.now)) ≡ true }
    ensures { IfOk result (λ cs. AreProgramsOf (map pred_of preds.now) cs) }
{
    let mut programs = Programs::new(alloc);
    'each: for i in 0..preds.len() {
        let program = program(alloc, &Accepted::among(preds, bases, i))?;
        programs.push(program)?;
    }
    Ok(programs)
}
