//! Why a source is refused.
ghost use Rattle.std.specs.Prelude.{◌≡◌, None};
ghost use Rattle.ln_compile.specs.Refused.{refusal_of, span_of, word_of};

use ln_base::{NoMemory, Span};
use ln_names::{LimitWhat, NameWhat};
use ln_parse::ParseStop;
use thiserror::Error;

// The message for a source that breaks a limit.
fn limit_text(what: LimitWhat) -> &'static str {
    match what {
        LimitWhat::Tokens => "more than 65,536 tokens",
        LimitWhat::Nesting => "more than 64 open parentheses",
        LimitWhat::NameLength => "a name of more than 32 bytes",
        LimitWhat::Literal => "a number above 2^127 - 1",
        LimitWhat::RangeEnd =>
            "a range whose low end is above its high end, or an end beyond 2^63 - 1",
        LimitWhat::Sites => "more than 16 site types",
        LimitWhat::Coords => "more than 32 coordinates of a site type",
        LimitWhat::Params => "more than 16 params",
        LimitWhat::Predicates => "more than 16 predicates",
        LimitWhat::SiteArgs => "more than 5 site arguments of a predicate",
        LimitWhat::ParamArgs => "more than 8 param arguments of a predicate",
        LimitWhat::Lets => "more than 64 lets of a predicate",
        LimitWhat::Nodes => "more than 2,048 nodes of a predicate",
        LimitWhat::Exponent => "an exponent above 16",
    }
}

fn name_text(what: NameWhat) -> &'static str {
    match what {
        NameWhat::Twice => "an earlier one of its kind has this name",
        NameWhat::Unknown => "nothing that may stand here has this name",
    }
}

/// Why a source is refused, and where: a fault of its text; a fault of one of its predicates, which are numbered from 0; or out of memory. Its
/// text names the kind of fault, the place as a byte of the source, counted from 0, and the predicate.
#[derive(Clone, Copy, Debug, Error)]
pub enum Refusal {
    /// The first byte that begins neither blank, comment nor token.
    #[error("byte {}: no blank, comment or token begins here", .0.start)]
    Lexical(Span),
    /// The first place at which a limit of the language is broken.
    #[error("byte {}: {}", .1.start, limit_text(*.0))]
    Limit(LimitWhat, Span),
    /// The first token, or the end, with which no source goes on.
    #[error("byte {}: no source goes on with this token, or ends here", .0.start)]
    Syntax(Span),
    /// The first name that is unknown there, or that an earlier one of its kind has.
    #[error("byte {}: {}", .1.start, name_text(*.0))]
    Name(NameWhat, Span),
    /// The first node of the predicate whose range or size exceeds `2^127 - 1`; or, where no node does and none has too many terms,
    /// the root, where the weighted sum of the normal polynomial exceeds it.
    #[error("predicate {}, byte {}: a range, a size or the weighted sum of the polynomial exceeds 2^127 - 1", .0, .1.start)]
    Bound(u8, Span),
    /// The first node of the predicate that has more than 1,024 terms.
    #[error("predicate {}, byte {}: more than 1,024 terms", .0, .1.start)]
    Terms(u8, Span),
    /// The name of the predicate whose root is 0, however it is perturbed.
    #[error("predicate {}, byte {}: the value is 0 however the sites are perturbed", .0, .1.start)]
    Zero(u8, Span),
    /// The name of the predicate whose stage count exceeds 65,536, or whose stage weight exceeds 131,072.
    #[error("predicate {}, byte {}: more than 65,536 stages, or a stage weight above 131,072", .0, .1.start)]
    Stages(u8, Span),
    /// Out of memory.
    #[error("out of memory")]
    NoMemory(NoMemory),
}

impl Refusal {
    /// What it is for, in a word: `lexical`, `limit`, `syntax`, `name`, `bound`, `terms`, `zero`, `stages` or `memory`.
    pub fn word(self) -> &'static str
        ensures { result.now ≡ word_of self }
    {
        match self {
            Refusal::Lexical(_) => "lexical",
            Refusal::Limit(..) => "limit",
            Refusal::Syntax(_) => "syntax",
            Refusal::Name(..) => "name",
            Refusal::Bound(..) => "bound",
            Refusal::Terms(..) => "terms",
            Refusal::Zero(..) => "zero",
            Refusal::Stages(..) => "stages",
            Refusal::NoMemory(_) => "memory",
        }
    }

    /// Its place in the source; none for out of memory.
    pub fn span(self) -> Option<Span>
        ensures { result ≡ span_of self }
    {
        match self {
            Refusal::Lexical(at)
            | Refusal::Limit(_, at)
            | Refusal::Syntax(at)
            | Refusal::Name(_, at)
            | Refusal::Bound(_, at)
            | Refusal::Terms(_, at)
            | Refusal::Zero(_, at)
            | Refusal::Stages(_, at) => Some(at),
            Refusal::NoMemory(_) => None,
        }
    }

    /// The refused allocation of a refusal that has no place: it is out of memory.
    pub fn memory(self) -> NoMemory
        requires { span_of self ≡ None }
    {
        match self {
            Refusal::NoMemory(e) => e,
            _ => unreachable!(),
        }
    }
}

impl From<NoMemory> for Refusal {
    ghost use Rattle.std.specs.Prelude.{◌≡◌, None};
    ghost use Rattle.ln_compile.specs.declared.refusal.Refusal.TheVariants.{NoMemory};
    ghost use Rattle.ln_base.specs.Outside.{refused};

    ghost from_gives = { λ _ e. e ≡ NoMemory refused };

    fn from(e: NoMemory) -> Self {
        Refusal::NoMemory(e)
    }
}

/// The refusal for what `parse` returns.
pub fn refusal_of(e: ParseStop) -> Refusal
    ensures { result ≡ refusal_of e }
{
    match e {
        ParseStop::Lexical(at) => Refusal::Lexical(at),
        ParseStop::Limit(what, at) => Refusal::Limit(what, at),
        ParseStop::Syntax(at) => Refusal::Syntax(at),
        ParseStop::Name(what, at) => Refusal::Name(what, at),
        ParseStop::NoMemory(e) => Refusal::NoMemory(e),
    }
}
