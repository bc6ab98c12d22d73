//! Why bytes are no text of a form.
use crate::NoMemory;
use std::alloc::AllocFailed;

/// Why bytes are no text of a form.
#[derive(Clone, Copy)]
pub enum TextStop {
    /// The first line, from 1, at which the lines so far are no prefix of a text of the form. A last line without a line feed is such a line; where
    /// the bytes end too early it is the number of lines plus 1.
    Form(u32),
    /// Memory ran out.
    NoMemory(NoMemory),
}

impl From<NoMemory> for TextStop {
    ghost use Rattle.std.specs.Prelude.{◌≡◌};
    ghost use Rattle.ln_base.specs.declared.lines.stop.TextStop.TheVariants.{NoMemory as OutOfMemory};
    ghost use Rattle.ln_base.specs.Outside.{refused};

    ghost from_gives = { λ _ e. e ≡ OutOfMemory refused };

    fn from(e: NoMemory) -> Self {
        TextStop::NoMemory(e)
    }
}

impl<T: Drop> From<AllocFailed<T>> for TextStop {
    ghost use Rattle.std.specs.Prelude.{◌≡◌};
    ghost use Rattle.ln_base.specs.declared.lines.stop.TextStop.TheVariants.{NoMemory as OutOfMemory};
    ghost use Rattle.ln_base.specs.Outside.{refused};

    ghost from_gives = { λ _ e. e ≡ OutOfMemory refused };

    fn from(e: AllocFailed<T>) -> Self {
        TextStop::NoMemory(NoMemory::from(e))
    }
}
