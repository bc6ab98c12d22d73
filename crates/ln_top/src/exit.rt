//! The calls that main makes around `lnc`: whether watchers look on, and the exit code.
ghost use Rattle.std.specs.Prelude.{◌≡◌, map, string_bytes, IfOk, OnErr};
ghost use Rattle.ln_base.specs.Outside.{refused};
ghost use Rattle.ln_top.specs.Exit.{is_gen};
ghost use Rattle.ln_top.specs.Frame.Said.{code_of};
ghost use Rattle.ln_top.specs.declared.frame.status.Status.TheVariants.{Memory};

use crate::frame::status::Status;
use ln_base::NoMemory;

/// Returns whether watchers look on while the command of these words is carried out: where the first word is `gen`.
pub fn has_watchers(words: &[String]) -> bool
    ensures { result ≡ is_gen (map string_bytes words.now) }
{
    match words {
        [first, ..] => first.as_str() == "gen",
        [] => false,
    }
}

/// Returns the exit code, from 0 to 11: that of the status that `lnc` returned, or that of `Memory`, 9, where memory ran out before it
/// could be called.
pub fn exit_code(ended: Result<Status, NoMemory>) -> u8
    ensures status { IfOk ended (λ s. result ≡ code_of s) }
    ensures memory { OnErr ended (result ≡ code_of (Memory refused)) }
{
    match ended {
        Ok(status) => status.code(),
        Err(e) => Status::Memory(e).code(),
    }
}
