//! Limits of values in a filter: triples. The rules on them are tested in exact arithmetic.
ghost use Rattle.std.specs.Prelude.{◌≡◌, ◌==◌, ◌&&◌, ◌≤◌, ◌<◌, ◌+◌, ◌*◌, ◌/◌, ◌^◌, MatchOption, None, Some, unsigned_abs};
ghost use Rattle.std.specs.Prelude.{if◌then◌else◌};
ghost use Rattle.ln_bound.specs.declared.fitted.Width.TheVariants.{W64};
ghost use Rattle.ln_bound.specs.Value.{size_of};
ghost use Rattle.ln_bound.specs.Widths.{no_wider};
ghost use Rattle.ln_code.specs.FilterRules.{covers, error_after, push_error};
ghost use Rattle.ln_verify.specs.Joined.{two_covers};

use crate::limits::Limits;
use crate::stacks::Stack;
use crate::value::Value;
use crate::version::Version;
use ln_bound::{Two, Width};
use ln_code::{Triple, error_after, shifted};
use ln_tree::VarInfo;

/// The stack and the locals of a filter.
pub type FilterStack = Stack<Value<Triple>>;

// Has the triple this k, and are its H and E at least these, with an H that fits 64 bits?
fn covered(k: u32, h: u128, e: u128, a: Triple) -> bool
    ensures { result ≡ covers k h e a }
{
    u32::from(a.k) == k
        && h <= u128::from(a.h)
        && e <= u128::from(a.e)
        && u128::from(a.h) <= 9223372036854775807
}

// The least error of a number that is divided by 2^k.
fn push_error(k: u8) -> u128
    ensures { result ≡ push_error k }
{
    if k == 0 { 0 } else { 1 }
}

// Does the triple cover a number?
fn number_covered(c: i128, a: Triple) -> bool
    ensures { result ≡ covers a.k (unsigned_abs c / 2 ^ a.k) (push_error a.k) a }
{
    let k = u32::from(a.k);
    covered(k, shifted(c.unsigned_abs(), k), push_error(a.k), a)
}

// Does the triple cover a variable?
fn input_covered(i: VarInfo, a: Triple) -> bool
    ensures { result ≡ covers 0 (size_of i) 0 a }
{
    let m = i.lo.unsigned_abs().max(i.hi.unsigned_abs()).max(1);
    covered(0, u128::from(m), 0, a)
}

// Does the triple cover another?
fn same_covered(x: Triple, a: Triple) -> bool
    ensures { result ≡ covers x.k x.h x.e a }
{
    covered(u32::from(x.k), u128::from(x.h), u128::from(x.e), a)
}

// Does the triple cover a sum or a difference of two? They have to have the same k.
fn sum_covered(x: Triple, y: Triple, a: Triple) -> bool
    ensures { result ≡ ((x.k == y.k) && covers x.k (x.h + y.h) (x.e + y.e) a) }
{
    if x.k != y.k {
        return false;
    }
    covered(
        u32::from(x.k),
        u128::from(x.h) + u128::from(y.h),
        u128::from(x.e) + u128::from(y.e),
        a,
    )
}

// The error of a product, where it is below 2^128; each of its parts is one of the other's sizes or errors times another.
fn product_error(h: u64, e: u64, k: u64, d: u64) -> Option<u128>
    ensures { MatchOption result (2 ^ 128 ≤ h * d + k * e + e * d) (λ r. r ≡ h * d + k * e + e * d) }
{
    let left = u128::from(h) * u128::from(d);
    let right = u128::from(k) * u128::from(e);
    let both = u128::from(e) * u128::from(d);
    match left.checked_add(right) {
        Some(sum) => sum.checked_add(both),
        None => None,
    }
}

// Does the triple cover a product of two?
fn product_covered(x: Triple, y: Triple, a: Triple) -> bool
    ensures { result ≡ covers (x.k + y.k) (x.h * y.h) (x.h * y.e + y.h * x.e + x.e * y.e) a }
{
    match product_error(x.h, x.e, y.h, y.e) {
        Some(e) => covered(
            u32::from(x.k) + u32::from(y.k),
            u128::from(x.h) * u128::from(y.h),
            e,
            a,
        ),
        None => false,
    }
}

// Does the triple cover a sum, a difference or a product of two?
fn two_covered(t: Two, x: Triple, y: Triple, a: Triple) -> bool
    ensures { result ≡ two_covers t x y a }
{
    match t {
        Two::Plus => sum_covered(x, y, a),
        Two::Minus => sum_covered(x, y, a),
        Two::Times => product_covered(x, y, a),
    }
}

// Does the triple cover another that is divided by 2^n?
fn cut_covered(n: u8, x: Triple, a: Triple) -> bool
    ensures { result ≡ covers (x.k + n) (x.h / 2 ^ n) (error_after n x.e) a }
{
    let m = u32::from(n);
    covered(
        u32::from(x.k) + m,
        shifted(u128::from(x.h), m),
        u128::from(error_after(m, x.e)),
        a,
    )
}

// Is it 64 bits?
fn is_64(w: Width) -> bool
    ensures { result ≡ no_wider w W64 }
{
    matches!(w, Width::W64)
}

// The triple, where it covers what it has to, which is known.
fn covering(ok: bool, a: Triple) -> Option<Triple>
    ensures { result ≡ (if ok then Some a else None) }
{
    if ok { Some(a) } else { None }
}

impl Limits for Triple {
    /// The triple on a line.
    type Said = Triple;

    ghost use Rattle.std.specs.Prelude.{refl};
    ghost use Rattle.ln_code.specs.declared.op.Triple.{Triple};
    ghost use Rattle.ln_code.specs.FilterRules.{FilterKnown};
    ghost use Rattle.ln_verify.specs.BlockRules.{triple_rules};
    ghost use Rattle.ln_verify.specs.Line.{filter_tree_of};
    ghost use Rattle.ln_verify.specs.Rules.{in_triple, no_number, triples_have_stack};

    ghost Bound = { Triple };

    ghost Known = { FilterKnown };

    ghost known = { in_triple };

    ghost tree = { filter_tree_of };

    ghost rules = { triple_rules };

    ghost tells = { λ a b. a ≡ b };

    fn of_number(c: i128, a: Triple) -> Option<Triple> {
        covering(number_covered(c, a), a)
    }

    fn of_input(_version: Version, i: VarInfo, a: Triple) -> Option<Triple> {
        covering(input_covered(i, a), a)
    }

    fn of_local(x: Triple, a: Triple) -> Option<Triple> {
        covering(same_covered(x, a), a)
    }

    fn of_two(t: Two, w: Width, a: Triple, x: Triple, y: Triple) -> Option<Triple> {
        if !is_64(w) {
            return None;
        }
        covering(two_covered(t, x, y, a), a)
    }

    fn of_minus(w: Width, a: Triple, x: Triple) -> Option<Triple> {
        if !is_64(w) {
            return None;
        }
        covering(same_covered(x, a), a)
    }

    fn of_cut(n: u8, a: Triple, x: Triple) -> Option<Triple> {
        covering(cut_covered(n, x, a), a)
    }

    ghost tree_known = { λ x t n. refl };

    ghost missing = { no_number };

    ghost stacked = { triples_have_stack };
}
