//! How a call of the program ends.
ghost use Rattle.std.specs.Prelude.{◌≡◌, Ok, Err};
ghost use Rattle.ln_top.specs.Frame.Said.{end_status, early_status, status_of, code_of};

use ln_base::NoMemory;
use std::alloc::AllocError;

/// An end that the words and the files require.
#[derive(Clone, Copy)]
pub enum End {
    /// The command was carried out.
    Done,
    /// The source is refused.
    Refused,
    /// The words are no command.
    Usage,
    /// A record or the header is refused.
    Rows,
    /// The source has no predicate of a name.
    NoPredicate,
    /// A listing is invalid.
    Invalid,
    /// A file is over its limit.
    TooLong,
    /// The arguments of the named predicates are not those that the command takes.
    Shape,
    /// There are too many records.
    Many,
}

/// An early end.
#[derive(Clone, Copy)]
pub enum Early {
    /// By a fault of reading.
    Read,
    /// By a fault of writing.
    Write,
    /// Memory ran out.
    Memory(NoMemory),
}

impl From<NoMemory> for Early {
    ghost use Rattle.ln_top.specs.declared.frame.status.Early.TheVariants.{Memory};
    ghost use Rattle.ln_base.specs.Outside.{refused};

    ghost from_gives = { λ _ e. e ≡ Memory refused };

    fn from(e: NoMemory) -> Self {
        Early::Memory(e)
    }
}

impl From<AllocError> for Early {
    ghost use Rattle.ln_top.specs.declared.frame.status.Early.TheVariants.{Memory};
    ghost use Rattle.ln_base.specs.Outside.{refused};

    ghost from_gives = { λ _ e. e ≡ Memory refused };

    fn from(e: AllocError) -> Self {
        Early::Memory(NoMemory::from(e))
    }
}

/// How a call of the program ended: by an end that is required or an early one.
#[derive(Clone, Copy, Debug, PartialEq, Eq)]
pub enum Status {
    /// 0: the command was carried out.
    Done,
    /// 1: the source is refused.
    Refused,
    /// 2: the words are no command.
    Usage,
    /// 3: the header or a record is refused.
    Rows,
    /// 4: the source has no predicate of a name.
    NoPredicate,
    /// 5: a listing is invalid.
    Invalid,
    /// 6: a file wasn't read.
    Read,
    /// 7: a stream failed.
    Write,
    /// 8: a file is over its limit.
    TooLong,
    /// 9: memory ran out.
    Memory(NoMemory),
    /// 10: the arguments of the named predicates are not those that the command takes.
    Shape,
    /// 11: there are too many records.
    Many,
}

impl Status {
    /// The exit code, from 0 to 11.
    pub fn code(self) -> u8
        ensures { result ≡ code_of self }
    {
        match self {
            Status::Done => 0,
            Status::Refused => 1,
            Status::Usage => 2,
            Status::Rows => 3,
            Status::NoPredicate => 4,
            Status::Invalid => 5,
            Status::Read => 6,
            Status::Write => 7,
            Status::TooLong => 8,
            Status::Memory(_) => 9,
            Status::Shape => 10,
            Status::Many => 11,
        }
    }
}

impl End {
    /// The status of an end.
    pub fn status(self) -> Status
        ensures { result ≡ end_status self }
    {
        match self {
            End::Done => Status::Done,
            End::Refused => Status::Refused,
            End::Usage => Status::Usage,
            End::Rows => Status::Rows,
            End::NoPredicate => Status::NoPredicate,
            End::Invalid => Status::Invalid,
            End::TooLong => Status::TooLong,
            End::Shape => Status::Shape,
            End::Many => Status::Many,
        }
    }
}

impl Early {
    /// The status of an early end.
    pub fn status(self) -> Status
        ensures { result ≡ early_status self }
    {
        match self {
            Early::Read => Status::Read,
            Early::Write => Status::Write,
            Early::Memory(e) => Status::Memory(e),
        }
    }
}

/// The status of what a command came to.
pub fn status_of(ended: Result<End, Early>) -> Status
    ensures { result ≡ status_of ended }
{
    match ended {
        Ok(end) => end.status(),
        Err(early) => early.status(),
    }
}
