//! The program `lnc_c`: calls functions of a C file by the written meaning of the subset, and writes what each call means.
//!
//! `lnc_c FILE CALLS`, where FILE is a C file of the subset and each line of CALLS is a call, `NAME INDICES VALUES`: the name of a function of two
//! parameters, and what its `x` and its `v` hold, each as integers of 64 bits with a comma between any two. For each line it writes one:
//! `SIGN W C`, the sign, how many operations were done in `__int128` and how many functions were called; `undefined L`, where
//! the call has no meaning, the line of FILE at which it has none; or `none`, where FILE has no such function. It writes nothing on standard
//! output unless every line of CALLS is a call.
//!
//! Where it stops, it writes one line on standard error and ends with a status that isn't 0, which `ln_cmean::Stop` lists.
#![tactic(auto)]

use ln_base::Console;
use ln_cmean::{Stop, carry_out, exit_code};
use ln_disk::{DiskFiles, StdConsole, words_of};
use std::process::ExitCode;

// The words and the disk are those of this program.
fn ended<C: Console>(rt: &HostRuntime, con: &mut C) -> Result<(), Stop> {
    let words = words_of(rt)?;
    let mut files = DiskFiles::new(rt);
    carry_out(rt.alloc(), words.as_slice(), &mut files, con)
}

fn main(rt: HostRuntime) -> ExitCode {
    let mut con = StdConsole::new(rt.stdout(), rt.stderr());
    let ended = ended(&rt, &mut con);
    ExitCode::from(exit_code(&mut con, ended))
}
