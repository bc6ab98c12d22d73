//! The program `lnc`: hands the words, the files on the disk, the two streams and for `gen` three watchers to `ln_top::lnc`, and ends
//! with its status.
#![tactic(auto)]

use ln_base::NoMemory;
use ln_disk::{DiskFiles, StdConsole, words_of};
use ln_top::{Status, exit_code, has_watchers, lnc};
use ln_watch::{Watch, Watcher};
use std::process::ExitCode;

// The words, the disk and the streams are those of this program.
fn carry_out(rt: &HostRuntime) -> Result<Status, NoMemory> {
    let alloc = rt.alloc();
    let words = words_of(rt)?;
    let mut watchers: Vec<Box<dyn Watch>> = Vec::new(alloc);
    if has_watchers(words.as_slice()) {
        for watcher in Watcher::those_of_gen() {
            watchers.push(Box::new(alloc, watcher)?)?;
        }
    }
    let mut files = DiskFiles::new(rt);
    let mut con = StdConsole::new(rt.stdout(), rt.stderr());
    Ok(lnc(alloc, words.as_slice(), &mut files, &mut con, watchers))
}

fn main(rt: HostRuntime) -> ExitCode {
    ExitCode::from(exit_code(carry_out(&rt)))
}
