//! The named predicates as they are run.
ghost use Rattle.std.specs.Prelude.{◌≡◌, IfOk, IfSome, length, map, slice_index_or};
ghost use Rattle.ln_tree.specs.Table.{pred_of};
ghost use Rattle.ln_top.specs.Frame.Given.{Given};
ghost use Rattle.ln_top.specs.Frame.Ready.{HasStanding, IsReadyFor, StandsFor};
ghost use Rattle.ln_top.specs.Signs.Graded.{IsGradedAt, rank_kept};
ghost use Rattle.ln_top.specs.Signs.Named.{AreGivenBy, IsGivenBy};
ghost use Rattle.ln_top.specs.Signs.Product.{product_signature};
ghost use Rattle.ln_top.specs.Target.Factors.{AreFactors};
ghost use Rattle.ln_top.specs.Target.Target.{Belongs};

use crate::frame::ready::Ready;
use crate::target::Target;
use crate::target::factors::Factors;
use ln_base::NoMemory;
use std::alloc::Global;

/// The one named predicate, with its program: the one that is kept, or else one that is made here.
pub fn one_target(alloc: Global, ready: &Ready) -> Result<Target<'_>, NoMemory>
    requires stands { HasStanding ready.now }
    requires one { length ready.now.numbers.items ≡ 1 }
    requires kept { IfSome ready.now.kept (IsGradedAt (map pred_of ready.now.compiled.table.preds) (slice_index_or ready.now.numbers.items 0 0)) }
    ensures given { IfOk result (λ t. (g : Given) → StandsFor ready.now g → IsGivenBy g t) }
    ensures rank { IfOk result (λ t. t.rank ≡ rank_kept ready.now.kept) }
    ensures belongs { IfOk result (λ t. Belongs t.rank t.pred t.program) }
{
    let i = ready.numbers.as_slice()[0];
    match &ready.kept {
        Some(program) => Ok(Target::graded(&ready.compiled, i, program)),
        None => {
            let target = Target::new(alloc, &ready.compiled, i)?;
            Ok(target)
        }
    }
}

/// Returns the named predicates of a product, with their programs.
pub fn product_factors(alloc: Global, ready: &Ready) -> Result<Factors<'_>, NoMemory>
    requires { IsReadyFor product_signature ready.now }
    ensures given { IfOk result (λ t. (g : Given) → StandsFor ready.now g → AreGivenBy g t) }
    ensures factors { IfOk result AreFactors }
{
    let factors = Factors::new(alloc, &ready.compiled, ready.numbers.as_slice())?;
    Ok(factors)
}
