//! Why the program stops before its end, with the exit statuses.
ghost use Rattle.std.specs.Prelude.{◌≡◌, ◌⊎◌, IfErr, OnErr, OnOk};
ghost use Rattle.ln_base.specs.Outside.{Rose, appended};
ghost use Rattle.ln_base.specs.declared.outside.Port.TheVariants.{Err as ErrPort};
ghost use Rattle.ln_cmean.specs.Carrying.Stops.{status, stop_line};

use itoa::Buffer;
use ln_base::{Console, Failed, NoMemory, Port, ReadStop, put_all};
use ln_csyn::CStop;

/// Why nothing, or not all, was written on standard output. A number that a command of `lnc` has too means the same there.
#[derive(Clone, Copy)]
pub enum Stop {
    /// 1, `error subset`: FILE isn't of the C subset.
    Subset,
    /// 2, `error usage`: the command line isn't two words.
    Usage,
    /// 3, `error call N`: line N of CALLS, from 1, is the first that isn't a call.
    Call(u64),
    /// 6, `error read`: a file couldn't be read.
    Read,
    /// 7, without a line: standard output or standard error couldn't be written.
    Write,
    /// 8, `error long`: a file has more than 64 MiB.
    Long,
    /// 9, without a line: out of memory.
    Memory(NoMemory),
}

impl Stop {
    // The exit status.
    fn code(self) -> u8
        ensures { result ≡ status self }
    {
        match self {
            Stop::Subset => 1,
            Stop::Usage => 2,
            Stop::Call(_) => 3,
            Stop::Read => 6,
            Stop::Write => 7,
            Stop::Long => 8,
            Stop::Memory(_) => 9,
        }
    }
}

// Writes the line of a stop.
fn put_line<C: Console>(con: &mut C, stop: Stop) -> Result<(), Failed>
    ensures ok { OnOk result (C.shown con.new ≡ appended ErrPort (stop_line stop) (C.shown con.old)) }
    ensures cause { OnErr result (Rose (C.faults con.old) (C.faults con.new)) }
{
    match stop {
        Stop::Subset => put_all(con, Port::Err, b"error subset\n"),
        Stop::Usage => put_all(con, Port::Err, b"error usage\n"),
        Stop::Call(n) => {
            let mut digits = Buffer::new();
            put_all(con, Port::Err, b"error call ")?;
            put_all(con, Port::Err, digits.format(n).as_bytes())?;
            put_all(con, Port::Err, b"\n")
        }
        Stop::Read => put_all(con, Port::Err, b"error read\n"),
        Stop::Long => put_all(con, Port::Err, b"error long\n"),
        Stop::Write | Stop::Memory(_) => Ok(()),
    }
}

/// Writes the line of a stop on standard error, if it has one, and returns the exit status: 0 where there is no stop.
pub fn exit_code<C: Console>(con: &mut C, ended: Result<(), Stop>) -> u8
    ensures done { OnOk ended ((result ≡ 0) × (C.shown con.new ≡ C.shown con.old)) }
    ensures stopped { IfErr ended (λ s.
        ((result ≡ status s) × (C.shown con.new ≡ appended ErrPort (stop_line s) (C.shown con.old)))
        ⊎ ((result ≡ 7) × Rose (C.faults con.old) (C.faults con.new))) }
{
    match ended {
        Ok(()) => 0,
        Err(stop) => match put_line(con, stop) {
            Ok(()) => stop.code(),
            Err(_) => Stop::Write.code(),
        },
    }
}

impl From<NoMemory> for Stop {
    ghost use Rattle.ln_cmean.specs.declared.program.stop.Stop.TheVariants.{Memory};
    ghost use Rattle.ln_base.specs.Outside.{refused};

    ghost from_gives = { λ _ e. e ≡ Memory refused };

    fn from(e: NoMemory) -> Self {
        Stop::Memory(e)
    }
}

impl From<Failed> for Stop {
    ghost use Rattle.ln_cmean.specs.declared.program.stop.Stop.TheVariants.{Write};

    ghost from_gives = { λ _ e. e ≡ Write };

    fn from(_e: Failed) -> Self {
        Stop::Write
    }
}

impl From<ReadStop> for Stop {
    ghost use Rattle.ln_cmean.specs.Carrying.Stops.{of_read};

    ghost from_gives = { λ x e. e ≡ of_read x };

    fn from(e: ReadStop) -> Self {
        match e {
            ReadStop::Fault => Stop::Read,
            ReadStop::TooLong => Stop::Long,
            ReadStop::NoMemory(e) => Stop::Memory(e),
        }
    }
}

impl From<CStop> for Stop {
    ghost use Rattle.ln_cmean.specs.Carrying.Stops.{of_c};

    ghost from_gives = { λ x e. e ≡ of_c x };

    fn from(e: CStop) -> Self {
        match e {
            CStop::NotSubset => Stop::Subset,
            CStop::NoMemory(e) => Stop::Memory(e),
        }
    }
}
