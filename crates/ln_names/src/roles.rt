//! What the tokens of an expression are, by their kinds and their neighbours'.
ghost use Rattle.std.specs.Prelude.{◌≡◌, ◌<◌};
ghost use Rattle.ln_syntax.specs.Raw.{kind_at};
ghost use Rattle.ln_names.specs.Visits.{is_dot, is_caret, ends_operand, role_at, is_node};

use crate::nodes::Operation;
use ln_lex::{Kind, Token};

/// What a token of an expression is; parentheses and the dot are nothing.
#[derive(Clone, Copy)]
pub enum Role {
    /// A NUMBER that is a node.
    Value,
    /// A NUMBER after `^`.
    AfterCaret,
    /// A NAME that is a let's or a param argument's.
    Bare,
    /// The first NAME of an input.
    Input,
    /// The second NAME of an input.
    AfterDot,
    /// `+`, `-` or `*`.
    Operator(Operation),
    /// `^`.
    Caret,
}

/// What token `k` of the file is in its expression, by its kind and the kinds beside it.
pub fn role_at(ts: &[Token], k: usize) -> Option<Role>
    ensures { result ≡ role_at ts.now k }
{
    match kind_at(ts, k) {
        Some(Kind::Number) => {
            if caret_at(ts, k.saturating_sub(1)) {
                Some(Role::AfterCaret)
            } else {
                Some(Role::Value)
            }
        }
        Some(Kind::Name) => {
            if dot_at(ts, k.saturating_sub(1)) {
                Some(Role::AfterDot)
            } else if dot_at(ts, k + 1) {
                Some(Role::Input)
            } else {
                Some(Role::Bare)
            }
        }
        Some(Kind::Minus) => {
            if operand_at(ts, k.saturating_sub(1)) {
                Some(Role::Operator(Operation::Difference))
            } else {
                Some(Role::Operator(Operation::Negation))
            }
        }
        Some(Kind::Plus) => Some(Role::Operator(Operation::Sum)),
        Some(Kind::Star) => Some(Role::Operator(Operation::Product)),
        Some(Kind::Caret) => Some(Role::Caret),
        _ => None,
    }
}

/// How many nodes the token is: 1, or 0 for an exponent and for the second NAME of an input.
pub fn node_of(role: Role) -> usize
    ensures { result ≡ is_node role }
{
    match role {
        Role::AfterCaret => 0,
        Role::AfterDot => 0,
        _ => 1,
    }
}

/// The kind of the token at a place, if there is one.
pub fn kind_at(ts: &[Token], i: usize) -> Option<Kind>
    ensures { result ≡ kind_at ts.now i }
{
    match ts.get(i) {
        Some(t) => Some(t.kind),
        None => None,
    }
}

fn dot_at(ts: &[Token], i: usize) -> bool
    ensures { result ≡ is_dot (kind_at ts.now i) }
{
    matches!(kind_at(ts, i), Some(Kind::Dot))
}

fn caret_at(ts: &[Token], i: usize) -> bool
    ensures { result ≡ is_caret (kind_at ts.now i) }
{
    matches!(kind_at(ts, i), Some(Kind::Caret))
}

fn operand_at(ts: &[Token], i: usize) -> bool
    ensures { result ≡ ends_operand (kind_at ts.now i) }
{
    matches!(kind_at(ts, i), Some(Kind::Number | Kind::Name | Kind::ParR))
}
