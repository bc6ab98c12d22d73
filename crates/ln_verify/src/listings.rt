//! The exact judge of listings.
ghost use Rattle.std.specs.Prelude.{◌≡◌, ◌↔◌, ◌<◌, ◌≤◌, ℕ, All, IfOk, length, map};
ghost use Rattle.ln_base.specs.Limits.{most_file};
ghost use Rattle.ln_cert.specs.Listing.{Kept};
ghost use Rattle.ln_tree.specs.Table.{pred_of};
ghost use Rattle.std.specs.List.{AllZip};
ghost use Rattle.ln_stage.specs.Accepted.{IsBasis};
ghost use Rattle.ln_stage.specs.Sound.{AreSound};
ghost use Rattle.ln_verify.specs.Here.{IsCase, subjects_of};
ghost use Rattle.ln_verify.specs.Verified.{AreSubjectsOf, IsFaultFor, IsTextFaultFor, IsValidFor, IsValidTextFor, judged_of, rules_of};
ghost use Rattle.ln_verify.specs.Versions.{version_of};
ghost use Rattle.ln_verify.specs.declared.listings.Judged.TheVariants.{Valid, Invalid};

use crate::case::Case;
use crate::cases::case_of;
use crate::judge::judge;
use crate::version::Version;
use ln_base::NoMemory;
use ln_base::lines::Held;
use ln_cert::{Entry, ListStop, Listing, listing_lines};
use ln_stage::{Accepted, Basis, bases_of};
use ln_tree::{Pred, Table};
use std::alloc::Global;

/// The verdict on a listing for a table.
#[derive(Clone, Copy)]
pub enum Judged {
    /// No line fails, and each predicate has its part.
    Valid,
    /// The first line whose rule fails. Lines count from 1; where the file ends too early it is the number of lines plus 1.
    Invalid(u32),
}

/// Why `verify` has no verdict: out of memory, which is the one cause.
#[derive(Clone, Copy)]
pub enum VerifyStop {
    NoMemory(NoMemory),
}

impl From<NoMemory> for VerifyStop {
    ghost use Rattle.ln_verify.specs.declared.listings.VerifyStop.TheVariants.{NoMemory};
    ghost use Rattle.ln_base.specs.Outside.{refused};

    ghost from_gives = { λ _ e. e ≡ NoMemory refused };

    fn from(e: NoMemory) -> Self {
        VerifyStop::NoMemory(e)
    }
}

// Each predicate with what its part is judged by.
fn cases_of<'a>(
    alloc: Global,
    preds: &'a [Pred],
    bases: &'a [Basis],
) -> Result<Vec<Case<'a>>, NoMemory>
    requires { AllZip IsBasis (map pred_of preds.now) bases.now }
    ensures cases { IfOk result (λ cs. All IsCase cs.items) }
    ensures subjects { IfOk result (λ cs. AreSubjectsOf (map pred_of preds.now) (subjects_of cs.items)) }
{
    let mut cases = Vec::new(alloc);
    'each: for i in 0..preds.len() {
        let case = case_of(alloc, &Accepted::among(preds, bases, i))?;
        cases.push(case)?;
    }
    Ok(cases)
}

// The version with this number.
fn of_number(number: u8) -> Version
    ensures { version_of result ≡ rules_of number }
{
    if number == 1 {
        return Version::One;
    }
    Version::Two
}

// The lines of a listing, few enough that one more has a number.
fn lines_of(l: &Listing) -> &[Entry]
    ensures value { result.now ≡ l.now.entries }
    ensures few { length result.now < 4294967294 }
    ensures kept { Kept l.now }
{
    l.entries()
}

// The verdict for the first line that fails, if there is one.
fn judged_of(first: Option<u32>) -> Judged
    ensures { result ≡ judged_of first }
{
    match first {
        Some(line) => Judged::Invalid(line),
        None => Judged::Valid,
    }
}

/// Is the listing valid for the table, and if not, at which line does it fail first? The table's predicates are such as
/// compile. Each is expanded and staged anew from the source: no compiled program is asked.
///
/// A `get` copies no term. A sum takes time near linear in its terms, a product a product of terms for each pair of its operands'
/// terms, of which there may be 1,048,576. Allocates for the polynomials of one stack, the exponents of one part and one product.
pub fn verify(alloc: Global, t: &Table, l: &Listing) -> Result<Judged, VerifyStop>
    requires { AreSound (map pred_of t.now.preds) }
    ensures valid { IfOk result (λ j. (j ≡ Valid) ↔ IsValidFor (map pred_of t.now.preds) l.now) }
    ensures invalid { IfOk result (λ j. (line : ℕ) → (j ≡ Invalid line) ↔ IsFaultFor (map pred_of t.now.preds) l.now line) }
{
    let preds = t.preds.as_slice();
    let bases = bases_of(alloc, preds)?;
    let cases = cases_of(alloc, preds, bases.as_slice())?;
    let version = of_number(l.version());
    let mut lines = Held::of(lines_of(l));
    let first = judge(alloc, cases.as_slice(), version, &mut lines)?;
    Ok(judged_of(first))
}

/// Are the bytes a listing that is valid for the accepted predicates of a table, and if not, at which line do they fail first? A line at
/// which they stop being a listing comes before any line whose rule fails. Each predicate has what it goes by, which isn't made anew.
///
/// The form of the whole text is checked first; then each line is read once more, judged and dropped. So it takes the memory of one line
/// beside that of the judge, and the time of the judge and of two readings.
pub fn verify_lines(
    alloc: Global,
    preds: &[Pred],
    bases: &[Basis],
    bytes: &[u8],
) -> Result<Judged, NoMemory>
    requires bases { AllZip IsBasis (map pred_of preds.now) bases.now }
    requires short { length bytes.now ≤ most_file }
    ensures valid { IfOk result (λ j. (j ≡ Valid) ↔ IsValidTextFor (map pred_of preds.now) bytes.now) }
    ensures invalid { IfOk result (λ j. (line : ℕ) → (j ≡ Invalid line) ↔ IsTextFaultFor (map pred_of preds.now) bytes.now line) }
{
    let mut lines = match listing_lines(alloc, bytes) {
        Ok(lines) => lines,
        Err(ListStop::Form(line)) => return Ok(Judged::Invalid(line)),
        Err(ListStop::NoMemory(e)) => return Err(e),
    };
    let cases = cases_of(alloc, preds, bases)?;
    let version = of_number(lines.version());
    let first = judge(alloc, cases.as_slice(), version, &mut lines)?;
    Ok(judged_of(first))
}

/// The same for a table whose predicates are such as compile, each of which is expanded and staged anew.
pub fn verify_text(alloc: Global, t: &Table, bytes: &[u8]) -> Result<Judged, NoMemory>
    requires accepted { AreSound (map pred_of t.now.preds) }
    requires short { length bytes.now ≤ most_file }
    ensures valid { IfOk result (λ j. (j ≡ Valid) ↔ IsValidTextFor (map pred_of t.now.preds) bytes.now) }
    ensures invalid { IfOk result (λ j. (line : ℕ) → (j ≡ Invalid line) ↔ IsTextFaultFor (map pred_of t.now.preds) bytes.now line) }
{
    let preds = t.preds.as_slice();
    let bases = bases_of(alloc, preds)?;
    verify_lines(alloc, preds, bases.as_slice(), bytes)
}
