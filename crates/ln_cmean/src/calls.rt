//! The functions that a function can call.
ghost use Rattle.std.specs.Prelude.{◌≡◌, ℕ, List, OnOk};
ghost use Rattle.ln_csyn.specs.Meaning.{Answer, Fails};
ghost use Rattle.ln_cmean.specs.Answered.{answered, tally};
ghost use Rattle.ln_cmean.specs.Room.{HasRoom, IsNoSmaller, IsSame};
ghost use Rattle.ln_cmean.specs.declared.inputs.Inputs.{Inputs};

use crate::inputs::Inputs;
use crate::number::{Counts, Fault, Number};
use crate::stack::Stack;

/// What a function can call, and the room that it needs.
pub trait Calls {
    ghost use Rattle.ln_csyn.specs.Meaning.{Counts};

    ghost given: { Self → Inputs → List ℕ → Counts → Answer };

    ghost slots: { Self → Inputs → ℕ };

    /// Calls the function of this name on the same values.
    fn call<'a>(
        &self,
        inputs: &Inputs<'a, '_>,
        name: &[u8],
        s: &mut Stack<'a>,
        counts: &mut Counts,
    ) -> Result<Number, Fault>
        requires { HasRoom s.old (slots self.now inputs.now) }
        ensures meaning { answered result (tally counts.new) ≡ given self.now inputs.now name.now (tally counts.old) }
        ensures capacity { IsNoSmaller s.old s.new }
        ensures same { OnOk result (IsSame s.old s.new) };
}

/// No function: what one with a single parameter can call.
pub struct NoCalls {}

impl Calls for NoCalls {
    ghost use Rattle.std.specs.Prelude.{None};

    ghost given = { λ _ _ _ _. Fails None };

    ghost slots = { λ _ _. 0 };

    fn call<'a>(
        &self,
        _inputs: &Inputs<'a, '_>,
        _name: &[u8],
        _s: &mut Stack<'a>,
        _counts: &mut Counts,
    ) -> Result<Number, Fault> {
        Err(Fault::Here)
    }
}
