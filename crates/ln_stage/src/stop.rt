//! Why a polynomial has no stages.
use ln_base::NoMemory;
use std::alloc::AllocFailed;

/// Why a polynomial has no stages.
#[derive(Clone, Copy)]
pub enum StageStop {
    /// The polynomial is 0, without any term.
    Zero,
    /// The stage count exceeds its limit, or the stage weight does.
    Stages,
    /// Out of memory.
    NoMemory(NoMemory),
}

impl From<NoMemory> for StageStop {
    ghost use Rattle.std.specs.Prelude.{◌≡◌};
    ghost use Rattle.ln_stage.specs.declared.stop.StageStop.TheVariants.{NoMemory};
    ghost use Rattle.ln_base.specs.Outside.{refused};

    ghost from_gives = { λ _ e. e ≡ NoMemory refused };

    fn from(e: NoMemory) -> Self {
        StageStop::NoMemory(e)
    }
}

impl<T: Drop> From<AllocFailed<T>> for StageStop {
    ghost use Rattle.std.specs.Prelude.{◌≡◌};
    ghost use Rattle.ln_stage.specs.declared.stop.StageStop.TheVariants.{NoMemory};
    ghost use Rattle.ln_base.specs.Outside.{refused};

    ghost from_gives = { λ _ e. e ≡ NoMemory refused };

    fn from(e: AllocFailed<T>) -> Self {
        StageStop::NoMemory(NoMemory::from(e))
    }
}
