//! The words of a command line.

use ln_base::{NoMemory, ReportsNoMemory};
use std::alloc::Global;
use std::env;
use std::env::Env;
use std::io::{Error, ErrorKind};

// Why the words of the command line weren't read: memory ran out where the error says so, and else one of them isn't text.
#[derive(Drop)]
struct Unread {
    why: Error,
}

impl ReportsNoMemory for Unread {
    ghost use Rattle.std.specs.Prelude.{◌≡◌};
    ghost use Rattle.std.specs.IoError.{error_kind};
    ghost use Rattle.std.specs.declared.io.ErrorKind.TheVariants.{OutOfMemory};

    ghost reports = { λ u. error_kind u.why ≡ OutOfMemory };
}

/// The words after the program's name. Where one of them isn't text there are none, which is a faulty command line.
pub fn words_of(rt: &(impl Env + Alloc<A = Global>)) -> Result<Vec<String>, NoMemory> {
    let mut words = Vec::new(rt.alloc());
    match env::args(rt) {
        Ok(args) => {
            for word in args.skip(1) {
                words.push(word)?;
            }
        }
        Err(e) => {
            if e.kind() == ErrorKind::OutOfMemory {
                return Err(NoMemory::reported_by(&Unread { why: e }));
            }
        }
    }
    Ok(words)
}
