//! What `edges` asks of its predicate: three sites of one type.
ghost use Rattle.std.specs.Prelude.{◌≡◌, ◌<◌, All, List, length, map, Some};
ghost use Rattle.ln_tree.specs.Table.{PredOf, arg_of, pred_of};
ghost use Rattle.ln_top.specs.Judges.Three.{is_one_of_three, is_three, one_type, type_of};
ghost use Rattle.ln_compile.specs.Compiled.{AreNumbered};

use ln_tree::{Arg, Pred};

/// Returns the number of a site's type, from 0; none for a param.
pub(crate) fn type_of(a: &Arg) -> Option<u8>
    ensures { result ≡ type_of (arg_of a.now) }
{
    match a {
        Arg::Site(_, t) => Some(*t),
        Arg::Param(_) => None,
    }
}

// Returns whether all three are there and the same.
fn one_type(a: Option<u8>, b: Option<u8>, c: Option<u8>) -> bool
    ensures { result ≡ one_type a b c }
{
    match (a, b, c) {
        (Some(x), Some(y), Some(z)) => x == y && y == z,
        _ => false,
    }
}

/// Returns whether the arguments of a predicate are exactly three sites of one type. Allocates nothing.
fn three_of_one(p: &Pred) -> bool
    ensures { result ≡ is_three (map arg_of p.now.args) }
{
    match p.args.as_slice() {
        [a, b, c] => one_type(type_of(a), type_of(b), type_of(c)),
        _ => false,
    }
}

/// Is there exactly one predicate with these numbers, and are its arguments exactly three sites of one type?
pub fn one_of_three(preds: &[Pred], numbers: &[usize]) -> bool
    requires { All (λ i. i < length preds.now) numbers.now }
    ensures { (ps : List PredOf) → AreNumbered (map pred_of preds.now) numbers.now ps → result ≡ is_one_of_three ps }
{
    match numbers {
        [i] => three_of_one(&preds[*i]),
        _ => false,
    }
}
