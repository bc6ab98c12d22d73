//! The check on nesting: no parenthesis is nested deeper than 64, so that what reads expressions may recurse.
ghost use Rattle.std.specs.Prelude.{◌≡◌, ◌<◌, ◌≤◌, ◌^◌, length, IfSome, IfNone, ◌⊎◌, ℕ, List};
ghost use Rattle.ln_lex.specs.declared.token.Token.{Token as AToken};
ghost use Rattle.ln_lex.specs.declared.token.Kind.TheVariants.{ParL};
ghost use Rattle.ln_syntax.specs.Place.{depth_behind, IsShallow, IsNestingFault};

use ln_lex::{Kind, Token};

/// How deep parentheses may be nested.
const DEEPEST: usize = 64;

/// The depth after a token; none after a `(` that is nested too deep.
fn deeper(depth: usize, kind: Kind) -> Option<usize>
    requires { depth ≤ 64 }
    ensures step { IfSome result (λ d. d ≡ depth_behind depth kind) }
    ensures within { IfSome result (λ d. d ≤ 64) }
    ensures shallow { IfSome result (λ d. kind ≡ ParL → depth < 64) }
    ensures opens { IfNone result (kind ≡ ParL) }
    ensures full { IfNone result (depth ≡ 64) }
{
    match kind {
        Kind::ParL if depth < DEEPEST => Some(depth + 1),
        Kind::ParL => None,
        Kind::ParR => Some(depth.saturating_sub(1)),
        _ => Some(depth),
    }
}

/// The place of the nesting fault: the number of the first `(` that makes the depth 65, where `)` never takes it
/// below 0. None, where the tokens are nested at most 64 deep.
pub fn nesting_fault(ts: &[Token]) -> Option<usize>
    requires { length ts.now < 2 ^ 32 }
    ensures some { IfSome result (IsNestingFault ts.now) }
    ensures none { IfNone result (IsShallow ts.now) }
{
    let mut depth = 0usize;
    'tokens: for (i, t) in ts.iter().enumerate() {
        let Some(behind) = deeper(depth, t.kind) else {
            return Some(i);
        };
        depth = behind;
    }
    None
}

/// Tokens have one place of a nesting fault at most, and none where they are nested at most 64 deep.
pub fn one_depth()
    ensures place { (ts : List AToken) (i j : ℕ) → IsNestingFault ts i → IsNestingFault ts j → i ≡ j }
    ensures none { (ts : List AToken) (i : ℕ) → IsNestingFault ts i → IsShallow ts → ⊥ }
    ensures either { (ts : List AToken) → ((i : ℕ) × IsNestingFault ts i) ⊎ IsShallow ts }
{}
