//! The filter of a predicate.
ghost use Rattle.std.specs.Prelude.{◌≡◌, ℕ, ℤ, ◌+◌, ◌*◌, ◌≤◌, ◌↔◌, List, IfOk, IfSome, IsSome, Some, length, map};
ghost use Rattle.ln_algebra.specs.Coefficient.{normal_coefficient};
ghost use Rattle.ln_tree.specs.Row.{AreWithin};
ghost use Rattle.ln_bound.specs.Typed.{cost, costs, polynomial, untyped};
ghost use Rattle.ln_bound.specs.View.{typed};
ghost use Rattle.ln_code.specs.FilterRules.{FilterKnown};
ghost use Rattle.ln_code.specs.Part.{filter_known_of, filter_value, lines_of};
ghost use Rattle.ln_code.specs.Kept.{FollowsFilterRules};
ghost use Rattle.ln_code.specs.Nodes.{IsNodeOf};
ghost use Rattle.ln_filter.specs.Lines.{all_lines};
ghost use Rattle.ln_filter.specs.Nodes.{PushNodes, pushed_by};
ghost use Rattle.ln_filter.specs.Planned.{IsPlan};
ghost use Rattle.ln_filter.specs.Steady.{HasFilter};
ghost use Rattle.ln_filter.specs.Truncated.{root_number, root_triple};

use crate::arithmetic::narrow;
use crate::emit::{put_lets, put_steady};
use ln_base::{NoMemory, Seq};
use ln_bound::FittedPred;
use ln_code::{Draft, FilterBlock};
use std::alloc::Global;

// The filter, or none, with all that is known of it.
#[tactic(auto, using(crate::proofs::Truncation::Steady::no_lets_filter, crate::proofs::Truncation::Steady::no_root_filter))]
fn written(alloc: Global, p: &FittedPred) -> Result<Option<FilterBlock>, NoMemory>
    ensures { IfOk result (λ o. IsPlan p.now.shape.vars (map typed p.now.lets) (typed p.now.root) o) }
{
    let vars = p.shape.vars.as_slice();
    narrow(vars);
    let mut draft = Draft::new(alloc);
    match put_lets(&mut draft, vars, Seq::new(alloc), p.lets.as_slice(), 0)? {
        None => Ok(None),
        Some(lets) => match put_steady(&mut draft, vars, lets.as_slice(), &p.root)? {
            None => Ok(None),
            Some(_) => {
                let Draft { code, kept: _kept } = draft;
                let code = code.built();
                Ok(Some(FilterBlock::seal(code.ops, code.bounds, 2048)))
            }
        },
    }
}

/// The filter of a predicate, or none where some node, of the lets or of the sign expression, has an error past `2^31 - 1` or
/// an exponent past 255. It is LN's first stage (Fortune and Van Wyk 1996) on truncated high bits in place of floating point.
///
/// On every row in range it leaves the truncated number of the sign expression, whose error is the error of its triple; its
/// polynomial is the predicate's. Its operations are those of the lets, each into the local of its number, then those of the sign
/// expression, and each carries its node's triple. What they push are polynomials of nodes of the sign expression and its lets, a power
/// with the lower powers on its way. It has at most eight times as many operations as the costs of lets and root together, and 64
/// more. A let is kept in the local of its number; local 64 serves powers.
pub fn plan(alloc: Global, p: &FittedPred) -> Result<Option<FilterBlock>, NoMemory>
    ensures where_ { IfOk result (λ o. IsSome o ↔ HasFilter p.now.shape.vars (map untyped (map typed p.now.lets))
        (untyped (typed p.now.root))) }
    ensures rules { IfOk result (λ o. IfSome o (FollowsFilterRules p.now.shape.vars)) }
    ensures triple { IfOk result (λ o. IfSome o (λ f. (k : FilterKnown) → filter_known_of p.now.shape.vars f ≡ Some k →
        k.triple ≡ root_triple p.now.shape.vars (map untyped (map typed p.now.lets)) (untyped (typed p.now.root)))) }
    ensures whole { IfOk result (λ o. IfSome o (λ f. (k : FilterKnown) → filter_known_of p.now.shape.vars f ≡ Some k →
        (m : List ℕ) → normal_coefficient k.tree m ≡ polynomial (map typed p.now.lets) (typed p.now.root) m)) }
    ensures lines { IfOk result (λ o. IfSome o (λ f. lines_of f.ops f.triples ≡
        all_lines p.now.shape.vars (map untyped (map typed p.now.lets)) (untyped (typed p.now.root)))) }
    ensures nodes { IfOk result (λ o. IfSome o (λ f. PushNodes (IsNodeOf (map typed p.now.lets) (typed p.now.root))
        (pushed_by p.now.shape.vars f))) }
    ensures value { IfOk result (λ o. IfSome o (λ f. (zs : List ℤ) → AreWithin p.now.shape.vars zs →
        filter_value zs f ≡ Some (record {
          number = root_number p.now.shape.vars zs (map untyped (map typed p.now.lets))
              (untyped (typed p.now.root));
          error =
              (root_triple p.now.shape.vars (map untyped (map typed p.now.lets)) (untyped (typed p.now.root))).e;
        }))) }
    ensures small { IfOk result (λ o. IfSome o (λ f. length f.ops ≤ 8 * (cost (typed p.now.root) + costs (map typed p.now.lets)) + 64)) }
{
    written(alloc, p)
}
