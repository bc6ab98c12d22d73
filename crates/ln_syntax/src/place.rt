//! The place of a syntax fault: the tokens are recognised in one loop, and no tree is built.
ghost use Rattle.std.specs.Prelude.{◌≡◌, ◌<◌, ◌^◌, length, IfSome, IfNone, ◌⊎◌, ◌+◌, ◌≤◌, ℕ, List};
ghost use Rattle.ln_lex.specs.declared.token.Token.{Token as AToken};
ghost use Rattle.ln_syntax.specs.Place.{IsText, IsSyntaxFault};
ghost use Rattle.ln_syntax.specs.Automaton.{next_of, behind, closed, ended, range_ended, is_end};

use ln_lex::{Kind, Token};

/// Whose range it is.
#[derive(Clone, Copy)]
enum Ranged {
    Coordinate,
    Parameter,
}

/// Which expression it is: the value of a let, or the root after `sign`.
#[derive(Clone, Copy)]
enum Part {
    Value,
    Root,
}

/// The operand that ended last: a name, which a dot may follow, another atom, or a power.
#[derive(Clone, Copy)]
enum Last {
    Named,
    Whole,
    Raised,
}

/// What the tokens so far end in, named for what is read next.
#[derive(Clone, Copy)]
enum State {
    AnItem,
    SiteName,
    SiteOpen,
    CoordName,
    CoordColon,
    CoordOrEnd,
    ParamName,
    ParamColon,
    Low(Ranged),
    LowNumber(Ranged),
    Between(Ranged),
    High(Ranged),
    HighNumber(Ranged),
    RangeEnd(Ranged),
    PredicateName,
    PredicateOpen,
    ArgName,
    ArgColon,
    ArgKind,
    ArgEnd,
    BodyOpen,
    Body,
    LetName,
    LetEquals,
    Operand(Part),
    InputName(Part),
    Exponent(Part),
    After(Part, Last),
    BodyEnd,
}

/// The state after a `)` in an expression.
fn close(part: Part, depth: usize) -> Option<(State, usize)>
    ensures step { result ≡ closed part depth }
    ensures shallow { IfSome result (λ x. x.1 ≤ depth + 1) }
{
    if depth == 0 {
        None
    } else {
        Some((State::After(part, Last::Whole), depth - 1))
    }
}

/// The state after a `;` that ends an expression.
fn end(part: Part, depth: usize) -> Option<(State, usize)>
    ensures step { result ≡ ended part depth }
    ensures shallow { IfSome result (λ x. x.1 ≤ depth + 1) }
{
    if depth > 0 {
        return None;
    }
    match part {
        Part::Value => Some((State::Body, 0)),
        Part::Root => Some((State::BodyEnd, 0)),
    }
}

/// The state after a `;` that ends a range.
fn end_range(of: Ranged, depth: usize) -> Option<(State, usize)>
    ensures step { result ≡ range_ended of depth }
    ensures shallow { IfSome result (λ x. x.1 ≤ depth + 1) }
{
    match of {
        Ranged::Coordinate => Some((State::CoordOrEnd, depth)),
        Ranged::Parameter => Some((State::AnItem, depth)),
    }
}

/// The state after a token that follows an operand.
fn past_operand(part: Part, last: Last, depth: usize, kind: Kind) -> Option<(State, usize)>
    ensures step { result ≡ behind part last depth kind }
    ensures shallow { IfSome result (λ x. x.1 ≤ depth + 1) }
{
    match (last, kind) {
        (_, Kind::Plus | Kind::Minus | Kind::Star) => Some((State::Operand(part), depth)),
        (_, Kind::ParR) => close(part, depth),
        (_, Kind::Semi) => end(part, depth),
        (Last::Named, Kind::Dot) => Some((State::InputName(part), depth)),
        (Last::Named | Last::Whole, Kind::Caret) => Some((State::Exponent(part), depth)),
        _ => None,
    }
}

/// The state after a token, and how many parentheses of an expression are open there; none after a token with
/// which no file goes on.
fn next(state: State, depth: usize, kind: Kind) -> Option<(State, usize)>
    requires { depth < 2 ^ 32 }
    ensures step { result ≡ next_of state depth kind }
    ensures shallow { IfSome result (λ x. x.1 ≤ depth + 1) }
{
    match (state, kind) {
        (State::AnItem, Kind::Site) => Some((State::SiteName, depth)),
        (State::AnItem, Kind::Param) => Some((State::ParamName, depth)),
        (State::AnItem, Kind::Predicate) => Some((State::PredicateName, depth)),
        (State::SiteName, Kind::Name) => Some((State::SiteOpen, depth)),
        (State::SiteOpen, Kind::BraceL) => Some((State::CoordName, depth)),
        (State::CoordName, Kind::Name) => Some((State::CoordColon, depth)),
        (State::CoordColon, Kind::Colon) => Some((State::Low(Ranged::Coordinate), depth)),
        (State::CoordOrEnd, Kind::Name) => Some((State::CoordColon, depth)),
        (State::CoordOrEnd, Kind::BraceR) => Some((State::AnItem, depth)),
        (State::ParamName, Kind::Name) => Some((State::ParamColon, depth)),
        (State::ParamColon, Kind::Colon) => Some((State::Low(Ranged::Parameter), depth)),
        (State::Low(r), Kind::Number) => Some((State::Between(r), depth)),
        (State::Low(r), Kind::Minus) => Some((State::LowNumber(r), depth)),
        (State::LowNumber(r), Kind::Number) => Some((State::Between(r), depth)),
        (State::Between(r), Kind::Dots) => Some((State::High(r), depth)),
        (State::High(r), Kind::Number) => Some((State::RangeEnd(r), depth)),
        (State::High(r), Kind::Minus) => Some((State::HighNumber(r), depth)),
        (State::HighNumber(r), Kind::Number) => Some((State::RangeEnd(r), depth)),
        (State::RangeEnd(r), Kind::Semi) => end_range(r, depth),
        (State::PredicateName, Kind::Name) => Some((State::PredicateOpen, depth)),
        (State::PredicateOpen, Kind::ParL) => Some((State::ArgName, depth)),
        (State::ArgName, Kind::Name) => Some((State::ArgColon, depth)),
        (State::ArgColon, Kind::Colon) => Some((State::ArgKind, depth)),
        (State::ArgKind, Kind::Name | Kind::Param) => Some((State::ArgEnd, depth)),
        (State::ArgEnd, Kind::Comma) => Some((State::ArgName, depth)),
        (State::ArgEnd, Kind::ParR) => Some((State::BodyOpen, depth)),
        (State::BodyOpen, Kind::BraceL) => Some((State::Body, depth)),
        (State::Body, Kind::Let) => Some((State::LetName, depth)),
        (State::Body, Kind::Sign) => Some((State::Operand(Part::Root), 0)),
        (State::LetName, Kind::Name) => Some((State::LetEquals, depth)),
        (State::LetEquals, Kind::Equals) => Some((State::Operand(Part::Value), 0)),
        (State::Operand(p), Kind::Number) => Some((State::After(p, Last::Whole), depth)),
        (State::Operand(p), Kind::Name) => Some((State::After(p, Last::Named), depth)),
        (State::Operand(p), Kind::ParL) => Some((State::Operand(p), depth + 1)),
        (State::Operand(p), Kind::Minus) => Some((State::Operand(p), depth)),
        (State::InputName(p), Kind::Name) => Some((State::After(p, Last::Whole), depth)),
        (State::Exponent(p), Kind::Number) => Some((State::After(p, Last::Raised), depth)),
        (State::After(p, last), k) => past_operand(p, last, depth, k),
        (State::BodyEnd, Kind::BraceR) => Some((State::AnItem, depth)),
        _ => None,
    }
}

/// May a file end in this state?
fn ends(state: State) -> bool
    ensures { result ≡ is_end state }
{
    match state {
        State::AnItem => true,
        _ => false,
    }
}

/// The place of the syntax fault: the number of the first token with which no file begins, or the count of the
/// tokens where they are a prefix of a file and no file. None, where they are a file.
pub fn syntax_fault(ts: &[Token]) -> Option<usize>
    requires { length ts.now < 2 ^ 32 }
    ensures some { IfSome result (IsSyntaxFault ts.now) }
    ensures none { IfNone result (IsText ts.now) }
{
    let mut state = State::AnItem;
    let mut depth = 0usize;
    'tokens: for (i, t) in ts.iter().enumerate() {
        let Some((after, open)) = next(state, depth, t.kind) else {
            return Some(i);
        };
        state = after;
        depth = open;
    }
    if ends(state) { None } else { Some(ts.len()) }
}

/// Tokens have one place of a syntax fault at most, and a file has none.
pub fn one_place()
    ensures place { (ts : List AToken) (i j : ℕ) → IsSyntaxFault ts i → IsSyntaxFault ts j → i ≡ j }
    ensures none { (ts : List AToken) (i : ℕ) → IsSyntaxFault ts i → IsText ts → ⊥ }
    ensures either { (ts : List AToken) → ((i : ℕ) × IsSyntaxFault ts i) ⊎ IsText ts }
{}
