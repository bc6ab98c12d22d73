//! What `product` asks of its predicates: that their arguments are the same.
ghost use Rattle.std.specs.Prelude.{◌≡◌, ◌<◌, All, List, length, map, slice_get, Some};
ghost use Rattle.std.specs.List.{list_all};
ghost use Rattle.ln_tree.specs.Table.{PredOf, arg_of, pred_of};
ghost use Rattle.ln_top.specs.Target.Alike.{are_alike, same_arg, same_args};
ghost use Rattle.ln_compile.specs.Compiled.{AreNumbered};

use ln_tree::{Arg, Pred};

// Compares two arguments: sites by name and type, params by their number.
fn same_arg(a: &Arg, b: &Arg) -> bool
    ensures { result ≡ same_arg (arg_of a.now) (arg_of b.now) }
{
    match a {
        Arg::Site(n, t) => match b {
            Arg::Site(m, u) => n.bytes() == m.bytes() && t == u,
            Arg::Param(_) => false,
        },
        Arg::Param(p) => match b {
            Arg::Site(..) => false,
            Arg::Param(q) => p == q,
        },
    }
}

// Compares two lists of arguments, one by one.
fn same_args(a: &[Arg], b: &[Arg]) -> bool
    ensures { result ≡ same_args (map arg_of a.now) (map arg_of b.now) }
{
    match a {
        [] => b.is_empty(),
        [x, xs @ ..] => match b {
            [] => false,
            [y, ys @ ..] => same_arg(x, y) && same_args(xs, ys),
        },
    }
}

// Returns the arguments of predicate number `i`.
fn args_at(preds: &[Pred], i: usize) -> &[Arg]
    requires { i < length preds.now }
    ensures { (p : PredOf) → slice_get (map pred_of preds.now) i ≡ Some p → p.args ≡ map arg_of result.now }
{
    preds[i].args.as_slice()
}

// Returns whether the predicates with these numbers have these arguments.
fn all_have(preds: &[Pred], args: &[Arg], numbers: &[usize]) -> bool
    requires { All (λ i. i < length preds.now) numbers.now }
    ensures { (ps : List PredOf) → AreNumbered (map pred_of preds.now) numbers.now ps
        → result ≡ list_all (λ p. same_args (map arg_of args.now) p.args) ps }
{
    match numbers {
        [] => true,
        [i, rest @ ..] => same_args(args, args_at(preds, *i)) && all_have(preds, args, rest),
    }
}

/// Returns whether the predicates with these numbers have the same arguments, in order: sites of the same name and type, and the same
/// params. Allocates nothing.
pub fn alike(preds: &[Pred], numbers: &[usize]) -> bool
    requires { All (λ i. i < length preds.now) numbers.now }
    ensures { (ps : List PredOf) → AreNumbered (map pred_of preds.now) numbers.now ps → result ≡ are_alike ps }
{
    match numbers {
        [] => true,
        [i, ..] => all_have(preds, args_at(preds, *i), numbers),
    }
}
