//! The program `lnc_exact`: C for the predicates of a source whose functions call no filter.
//!
//! `lnc_exact FILE` writes what `lnc emit FILE` writes, but for the functions of filters and their calls: each `ln_NAME` computes the stages of
//! a row in turn, each exactly, from the first on. It ends with the statuses of `lnc emit`, and writes the same lines on standard error.
//! `lnc_exact turning FILE` writes C of one order for predicates whose sign each exchange of two sites turns, or keeps.
#![tactic(auto)]

use ln_base::NoMemory;
use ln_disk::{DiskFiles, StdConsole, words_of};
use ln_top::frame::status::status_of;
use ln_top::{Status, exact, exit_code};
use std::process::ExitCode;

// The words, the disk and the streams are those of this program.
fn carry_out(rt: &HostRuntime) -> Result<Status, NoMemory> {
    let words = words_of(rt)?;
    let mut files = DiskFiles::new(rt);
    let mut con = StdConsole::new(rt.stdout(), rt.stderr());
    let ended = exact(rt.alloc(), words.as_slice(), &mut files, &mut con);
    Ok(status_of(ended))
}

fn main(rt: HostRuntime) -> ExitCode {
    ExitCode::from(exit_code(carry_out(&rt)))
}
