//! The input of the work.
ghost use Rattle.std.specs.Prelude.{◌≡◌, ◌≤◌, [], ◌∷◌, length};
ghost use Rattle.std.specs.Prelude.{slice_get, slice_index_or, Some};
ghost use Rattle.ln_base.specs.Limits.{most_file};
ghost use Rattle.ln_top.specs.Frame.Given.{Given};
ghost use Rattle.ln_top.specs.Frame.Ready.{HasStanding, StandsFor};

use ln_code::Program;
use ln_compile::Checked;
use ln_stage::Accepted;

/// The input of the work.
#[derive(Drop)]
pub struct Ready {
    /// The source, which is accepted. Its programs are made by the work that wants them.
    pub compiled: Checked,
    /// The numbers of the named predicates, in order.
    pub numbers: Vec<usize>,
    /// The program by which the named predicates were seen to suit the command, where there is one.
    pub kept: Option<Program>,
    /// The further files, in order.
    pub texts: Vec<Vec<u8>>,
}

/// The one further file.
pub fn one_text(ready: &Ready) -> &[u8]
    requires one { length ready.now.texts.items ≡ 1 }
    ensures { (g : Given) → StandsFor ready.now g → g.texts ≡ result.now ∷ [] }
{
    ready.texts.as_slice()[0].as_slice()
}

/// Returns the bytes of the two further files, in order.
pub fn two_texts(ready: &Ready) -> (&[u8], &[u8])
    requires two { length ready.now.texts.items ≡ 2 }
    ensures { (g : Given) → StandsFor ready.now g → g.texts ≡ result.0.now ∷ result.1.now ∷ [] }
{
    let texts = ready.texts.as_slice();
    (texts[0].as_slice(), texts[1].as_slice())
}

/// The one further file, which is within its limit.
pub fn short_text(ready: &Ready) -> &[u8]
    requires stands { HasStanding ready.now }
    requires one { length ready.now.texts.items ≡ 1 }
    ensures is { (g : Given) → StandsFor ready.now g → g.texts ≡ result.now ∷ [] }
    ensures short { length result.now ≤ most_file }
{
    one_text(ready)
}

/// Returns the one named predicate, which is accepted.
pub fn named(ready: &Ready) -> Accepted<'_>
    requires stands { HasStanding ready.now }
    requires one { length ready.now.numbers.items ≡ 1 }
    ensures { slice_get ready.now.compiled.table.preds (slice_index_or ready.now.numbers.items 0 0) ≡ Some result.pred }
{
    ready.compiled.accepted(ready.numbers.as_slice()[0])
}
