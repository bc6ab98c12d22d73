//! The operations of a filter: those of its lets, then those of its sign expression.
ghost use Rattle.std.specs.Prelude.{◌≡◌, ◌+◌, ◌≤◌, [], All, IfOk, length, map};
ghost use Rattle.ln_bound.specs.Typed.{untyped};
ghost use Rattle.ln_bound.specs.View.{typed};
ghost use Rattle.ln_filter.specs.Tried.{IsSmall};
ghost use Rattle.ln_filter.specs.Wrote.{LetsPut, SteadyPut};

use crate::arithmetic::tried;
use crate::marks::{Scope, no_triple};
use ln_base::{NoMemory, Seq};
use ln_bound::Fitted;
use ln_code::{Draft, Op, Triple, put_tree};
use ln_tree::VarInfo;

/// The operations of a tree after lets of these triples, and its triple; none where one of its nodes isn't steady.
#[tactic(auto, using(crate::proofs::Truncation::Steady::tried_steady, crate::proofs::Truncation::Steady::triple_small))]
pub(crate) fn put_steady(
    draft: &mut Draft<Triple>,
    vars: &[VarInfo],
    lets: &[Triple],
    t: &Fitted,
) -> Result<Option<Triple>, NoMemory>
    requires lets { All IsSmall lets.now }
    requires kept { draft.now.kept ≡ [] }
    ensures { IfOk result (λ o. SteadyPut vars.now lets.now draft.old draft.new (untyped (typed t.now)) o) }
{
    match tried(vars, lets, t) {
        None => Ok(None),
        Some(_) => {
            let a = put_tree(draft, &Scope { vars, lets }, t, 0)?;
            Ok(Some(a))
        }
    }
}

/// The operations of the lets from number j on, each into the local of its number, and the triples of all lets; none where a node
/// isn't steady.
#[tactic(auto, using(crate::proofs::Operations::Writes::lets_more, crate::proofs::Slices::first_rest))]
pub(crate) fn put_lets(
    draft: &mut Draft<Triple>,
    vars: &[VarInfo],
    mut done: Seq<Triple>,
    lets: &[Fitted],
    j: u8,
) -> Result<Option<Seq<Triple>>, NoMemory>
    requires done { All IsSmall done }
    requires few { j + length lets.now ≤ 64 }
    requires kept { draft.now.kept ≡ [] }
    ensures { IfOk result (λ o. LetsPut vars.now j done draft.old draft.new (map untyped (map typed lets.now)) o) }
{
    match lets {
        [] => Ok(Some(done)),
        [t, rest @ ..] => match put_steady(draft, vars, done.as_slice(), t)? {
            None => Ok(None),
            Some(a) => {
                draft.code.push(Op::Set(j), no_triple())?;
                done.push(a)?;
                put_lets(draft, vars, done, rest, j + 1)
            }
        },
    }
}
