//! The work of `verify`: a listing is judged against its source.
ghost use Rattle.std.specs.Prelude.{IfOk, MatchOption};
ghost use Rattle.ln_top.specs.Frame.Carried.{CarriesOut, NoPart};
ghost use Rattle.ln_top.specs.Frame.Ready.{IsReadyFor, StandsFor};
ghost use Rattle.ln_top.specs.Frame.Said.{OnConsole};
ghost use Rattle.ln_top.specs.Frame.Given.{Given};
ghost use Rattle.ln_top.specs.Judges.Verify.{HasFault, HasValid, VerifySaid, verify_signature};

use crate::frame::put::numbered;
use crate::frame::ready::{Ready, short_text};
use crate::frame::status::{Early, End};
use crate::frame::stop::put_text;
use ln_base::{Console, NoMemory};
use ln_verify::{Judged, verify_lines};
use std::alloc::Global;

// The first fault of the listing, of its form or of its rules; none where it is valid.
fn first_fault(alloc: Global, ready: &Ready) -> Result<Option<u32>, NoMemory>
    requires { IsReadyFor verify_signature ready.now }
    ensures { IfOk result (λ o. (g : Given) → StandsFor ready.now g → MatchOption o (HasValid g) (λ at. HasFault g at)) }
{
    match verify_lines(
        alloc,
        ready.compiled.table().preds.as_slice(),
        ready.compiled.bases(),
        short_text(ready),
    )? {
        Judged::Valid => Ok(None),
        Judged::Invalid(at) => Ok(Some(at)),
    }
}

/// Writes `valid`, or `invalid LINE`.
pub fn work<C: Console>(alloc: Global, con: &mut C, ready: &Ready) -> Result<End, Early>
    requires { IsReadyFor verify_signature ready.now }
    ensures { (g : Given) → StandsFor ready.now g → OnConsole C.faults C.shown con.old result con.new (CarriesOut (VerifySaid g) NoPart ⊥ ⊥) }
{
    let fault = first_fault(alloc, ready)?;
    let Some(at) = fault else {
        return put_text(con, b"valid\n", End::Done);
    };
    let text = numbered(alloc, b"invalid ", at)?;
    put_text(con, &text, End::Invalid)
}
