//! Why a predicate has no program by total degree.
use ln_base::NoMemory;

/// Why a predicate has no program by total degree.
#[derive(Clone, Copy)]
pub enum GradedStop {
    /// Its stage lists by total degree have too many stages, or too many monomials cover them.
    Stages,
    /// Memory ran out.
    NoMemory(NoMemory),
}

impl From<NoMemory> for GradedStop {
    ghost use Rattle.std.specs.Prelude.{◌≡◌};
    ghost use Rattle.ln_graded.specs.declared.stop.GradedStop.TheVariants.{NoMemory};
    ghost use Rattle.ln_base.specs.Outside.{refused};

    ghost from_gives = { λ _ e. e ≡ NoMemory refused };

    fn from(e: NoMemory) -> Self {
        GradedStop::NoMemory(e)
    }
}
