//! Faults of names and limits.
use ln_base::{NoMemory, Span};

/// A limit of the language. Those of tokens and nesting are tested before names are.
#[derive(Clone, Copy, PartialEq, Eq, Debug)]
pub enum LimitWhat {
    /// 65,536 tokens of a source.
    Tokens,
    /// 64 open parentheses.
    Nesting,
    /// 32 bytes of a name.
    NameLength,
    /// A NUMBER of `2^127 - 1`.
    Literal,
    /// An end of a range within `2^63 - 1`, and a low end that is at most the high end.
    RangeEnd,
    /// 16 site types of a file.
    Sites,
    /// 32 coordinates of a site type.
    Coords,
    /// 16 params of a file.
    Params,
    /// 16 predicates of a file.
    Predicates,
    /// 5 site arguments of a predicate.
    SiteArgs,
    /// 8 param arguments of a predicate.
    ParamArgs,
    /// 64 lets of a predicate.
    Lets,
    /// 2,048 nodes of a predicate, lets and sign expression together.
    Nodes,
    /// An exponent of 16.
    Exponent,
}

/// What is wrong with a name.
#[derive(Clone, Copy, PartialEq, Eq, Debug)]
pub enum NameWhat {
    /// An earlier one of its kind has it.
    Twice,
    /// Nothing that may be named here has it.
    Unknown,
}

/// A fault of names or limits.
#[derive(Clone, Copy)]
pub enum Fault {
    Limit(LimitWhat),
    Named(NameWhat),
}

/// A fault, and the token that has it.
#[derive(Clone, Copy)]
pub struct Found {
    pub fault: Fault,
    pub at: Span,
}

/// Why a file's expressions have no nodes: its first fault, or out of memory.
#[derive(Clone, Copy)]
pub enum NamesStop {
    Found(Found),
    NoMemory(NoMemory),
}

impl From<NoMemory> for NamesStop {
    ghost use Rattle.std.specs.Prelude.{◌≡◌};
    ghost use Rattle.ln_base.specs.Outside.{refused};
    ghost use Rattle.ln_names.specs.declared.faults.NamesStop.TheVariants.{NoMemory as OutOfMemory};

    ghost from_gives = { λ _ e. e ≡ OutOfMemory refused };

    fn from(e: NoMemory) -> Self {
        NamesStop::NoMemory(e)
    }
}
