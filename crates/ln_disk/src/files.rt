//! Reads the files on a disk by their names, and counts each read that fails and the bytes of those that don't.
ghost use Rattle.std.specs.Prelude.{◌≡◌, ◌<◌, None, true, length, take, IfOk, OnOk};
ghost use Rattle.std.specs.Io.{ReadsAtMost};
ghost use Rattle.std.specs.Io.KnownBytes.{Consumes, IsAtEnd};
ghost use Rattle.ln_disk.specs.Flow.{Passes};

use crate::tries::{Ended, Tries};
use ln_base::{Failed, Files};
use std::io::Read;
use std::{fs, rt};

// How long a name may be. The system opens no file by a longer one.
const LONGEST: usize = 4_096;

// A file by its name, of which the bytes before `at` are read. The name is held in place, so that a read allocates nothing.
#[derive(Drop)]
struct Open<T> {
    name: [u8; LONGEST],
    len: usize,
    file: T,
    at: u64,
}

impl<T> Open<T> {
    // Whether the next byte is that of the file of this name at this place.
    fn is_at(&self, name: &str, at: u64) -> bool
        ensures { result ≡ true → (self.now.at ≡ at) × (take self.now.len self.now.name ≡ name.now) }
    {
        match self.name.get(..self.len) {
            Some(own) if self.at == at => own == name.as_bytes(),
            _ => false,
        }
    }
}

/// The files of a runtime. The last file stays open, so that successive reads go through it once.
#[derive(Drop)]
pub struct DiskFiles<'a, R: rt::Files> {
    rt: &'a R,
    open: Option<Open<R::File>>,
    faults: u64,
    given: u64,
}

impl<'a, R: rt::Files> DiskFiles<'a, R> {
    /// The files of this runtime, none of them open and nothing counted.
    pub fn new(rt: &'a R) -> Self
        ensures faults { result.faults ≡ 0 }
        ensures given { result.given ≡ 0 }
    {
        DiskFiles {
            rt,
            open: None,
            faults: 0,
            given: 0,
        }
    }
}

// One read, again where a signal interrupts it.
fn read_once<T: Read>(file: &mut T, buf: &mut [u8]) -> Ended
    ensures bound { ReadsAtMost result.count buf.new }
    ensures bytes { IfOk result.count (λ n. Consumes (T.remaining file.old) (T.remaining file.new) (take n buf.new)) }
    ensures end { IfOk result.count (λ n. n ≡ 0 → 0 < length buf.old → IsAtEnd (T.remaining file.new)) }
{
    let mut tries = Tries::new();
    loop {
        let answer = file.read(buf);
        if let Some(end) = tries.end(answer) {
            return end;
        }
    }
}

// Reads past that many bytes, or to the end.
fn skip<T: Read>(file: &mut T, count: u64) -> Result<(), Failed>
    ensures { OnOk result (Passes (T.remaining file.old) (T.remaining file.new) count) }
{
    let mut buf = [0u8; 4096];
    let mut done = 0u64;
    while done < count {
        let most = (count - done).min(4096) as usize;
        let n = read_once(file, &mut buf[..most]).count()?;
        if n == 0 {
            return Ok(());
        }
        done += n as u64;
    }
    Ok(())
}

// Opens a file and reads past what is before the place.
fn open_at<R: rt::Files>(rt: &R, name: &str, at: u64) -> Result<Open<R::File>, Failed> {
    let len = name.len();
    if len > LONGEST {
        return Err(Failed);
    }
    let mut own = [0u8; LONGEST];
    own[..len].copy_from_slice(name.as_bytes());
    let Ok(mut file) = fs::open(rt, name) else {
        return Err(Failed);
    };
    skip(&mut file, at)?;
    Ok(Open {
        name: own,
        len,
        file,
        at,
    })
}

// Reads on in the file that is open, where the call fits its name and place, and else opens it anew.
fn read_from<R: rt::Files>(
    rt: &R,
    open: &mut Option<Open<R::File>>,
    name: &str,
    at: u64,
    buf: &mut [u8],
) -> Result<usize, Failed>
    ensures { ReadsAtMost result buf.new }
{
    let mut now = match open.take() {
        Some(held) if held.is_at(name, at) => held,
        _ => open_at(rt, name, at)?,
    };
    let n = read_once(&mut now.file, buf).count()?;
    if let Some(next) = now.at.checked_add(n as u64) {
        now.at = next;
        *open = Some(now);
    }
    Ok(n)
}

impl<R: rt::Files> Files for DiskFiles<'_, R> {
    ghost told = { λ _. None };

    ghost faults = { λ d. d.faults };

    ghost given = { λ d. d.given };

    fn read_at(&mut self, name: &str, at: u64, buf: &mut [u8]) -> Result<usize, Failed> {
        let read = read_from(self.rt, &mut self.open, name, at, buf);
        match read {
            Ok(n) => self.given = self.given.saturating_add(n as u64),
            Err(_) => self.faults = self.faults.saturating_add(1),
        }
        read
    }
}
