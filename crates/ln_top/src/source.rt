//! Compiles the bytes of a source, or tells for what reason and at which place it is refused.
ghost use Rattle.std.specs.Prelude.{◌≡◌, ◌≤◌, length, IfOk, IfErr};
ghost use Rattle.ln_base.specs.Limits.{most_source};
ghost use Rattle.ln_top.specs.Frame.Source.{view, place_at};
ghost use Rattle.ln_top.specs.Steps.{Compiles};
ghost use Rattle.ln_top.specs.Frame.Given.{gives};
ghost use Rattle.ln_top.specs.Frame.Carried.{Halts};
ghost use Rattle.ln_top.specs.Frame.Stop.{stop_of};

use crate::frame::place::place_at;
use crate::frame::stop::{Stop, Why};
use ln_compile::{Checked, Refusal, check};
use std::alloc::Global;

// The stop for what `compile` refuses.
fn stop_for(bytes: &[u8], r: Refusal) -> Stop
    requires { length bytes.now ≤ most_source }
    ensures { result ≡ stop_of bytes.now r }
{
    match r.span() {
        Some(at) => Stop::Tell(Why::Refused(r, place_at(bytes, at))),
        None => Stop::Memory(r.memory()),
    }
}

/// A source, compiled; or why it is refused.
pub fn compiled(alloc: Global, bytes: &[u8]) -> Result<Checked, Stop>
    requires { length bytes.now ≤ most_source }
    ensures ok { IfOk result (λ c. Compiles bytes.now (gives (view c.table))) }
    ensures err { IfErr result (λ s. Halts (Compiles bytes.now) ⊥ s) }
{
    match check(alloc, bytes) {
        Ok(c) => Ok(c),
        Err(r) => Err(stop_for(bytes, r)),
    }
}
