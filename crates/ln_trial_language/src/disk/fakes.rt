//! Writers, files and words that tests hand in, which return and take parts, and fail and are interrupted at calls that the test names.

use std::alloc::{Allocator, Global};
use std::env::{Env, FillError};
use std::fs::{Metadata, OpenFile, OpenOptions};
use std::io::{ErrorKind, Read, Seek, SeekFrom, Write};
use std::{io, rt};

fn error(kind: ErrorKind) -> io::Error {
    io::Error::from(kind)
}

/// When a fake is slow or fails: what it takes or returns at once, and the numbers, from 1, of the calls that fail.
#[derive(Clone, Copy)]
pub struct Habit {
    /// The most bytes at once.
    pub most: usize,
    /// The call that fails; 0 is none.
    pub fails: usize,
    /// Every second call, the first among them, is interrupted by a signal.
    pub interrupted: bool,
}

/// A writer that keeps what it takes.
#[derive(Drop)]
pub struct Paper {
    pub held: Vec<u8>,
    pub habit: Habit,
    pub calls: usize,
    pub flushes: usize,
    pub bad_flush: usize,
}

impl Paper {
    /// An empty paper with this habit, whose flush of this number fails, counted from 1; 0 for none.
    pub fn new(alloc: Global, habit: Habit, bad_flush: usize) -> Paper {
        Paper {
            held: Vec::new(alloc),
            habit,
            calls: 0,
            flushes: 0,
            bad_flush,
        }
    }
}

// Whether this call gets through, and the count of calls with it.
fn turn(calls: &mut usize, habit: &Habit) -> io::Result<()> {
    *calls = calls.saturating_add(1);
    if habit.interrupted && *calls % 2 == 1 {
        return Err(error(ErrorKind::Interrupted));
    }
    if *calls == habit.fails {
        return Err(error(ErrorKind::Other));
    }
    Ok(())
}

impl Write for Paper {
    fn write(&mut self, buf: &[u8]) -> io::Result<usize> {
        turn(&mut self.calls, &self.habit)?;
        let n = buf.len().min(self.habit.most);
        self.held.extend_from_slice(&buf[..n])?;
        Ok(n)
    }

    fn flush(&mut self) -> io::Result<()> {
        self.flushes = self.flushes.saturating_add(1);
        if self.flushes == self.bad_flush {
            return Err(error(ErrorKind::Other));
        }
        Ok(())
    }
}

/// Files of one length, of each name but "none". Their bytes depend on all bytes of the name.
#[derive(Drop)]
pub struct Shelf {
    pub len: usize,
    pub habit: Habit,
}

/// The byte of a file at a place.
pub fn byte_at(name: &[u8], at: usize) -> u8 {
    let turns = at / name.len().max(1);
    match name.get(at % name.len().max(1)) {
        Some(byte) => *byte ^ (turns % 251) as u8,
        None => 0,
    }
}

/// An open file of a shelf.
#[derive(Drop)]
pub struct Page {
    name: [u8; 255],
    size: usize,
    len: usize,
    at: usize,
    habit: Habit,
    calls: usize,
}

impl Read for Page {
    fn read(&mut self, buf: &mut [u8]) -> io::Result<usize> {
        turn(&mut self.calls, &self.habit)?;
        let most = self.habit.most.saturating_add(self.calls);
        let n = buf.len().min(most).min(self.len.saturating_sub(self.at));
        let name = &self.name[..self.size.min(255)];
        for (i, slot) in buf[..n].iter_mut().enumerate() {
            *slot = byte_at(name, self.at.saturating_add(i));
        }
        self.at = self.at.saturating_add(n);
        Ok(n)
    }
}

impl Write for Page {
    fn write(&mut self, _buf: &[u8]) -> io::Result<usize> {
        Err(error(ErrorKind::Unsupported))
    }

    fn flush(&mut self) -> io::Result<()> {
        Err(error(ErrorKind::Unsupported))
    }
}

impl Seek for Page {
    fn seek(&mut self, _to: SeekFrom) -> io::Result<u64> {
        Err(error(ErrorKind::Unsupported))
    }
}

impl OpenFile for Page {
    fn metadata(&self) -> io::Result<Metadata> {
        Err(error(ErrorKind::Unsupported))
    }

    fn set_len(&self, _size: u64) -> io::Result<()> {
        Err(error(ErrorKind::Unsupported))
    }

    fn sync_all(&self) -> io::Result<()> {
        Err(error(ErrorKind::Unsupported))
    }

    fn sync_data(&self) -> io::Result<()> {
        Err(error(ErrorKind::Unsupported))
    }
}

impl rt::Files for Shelf {
    type File = Page;

    type Dir = Page;

    fn open_file(&self, _how: &OpenOptions, path: &str) -> io::Result<Page> {
        let size = path.len();
        if path == "none" || size > 255 {
            return Err(error(ErrorKind::NotFound));
        }
        let mut name = [0u8; 255];
        name[..size].copy_from_slice(path.as_bytes());
        Ok(Page {
            name,
            size,
            len: self.len,
            at: 0,
            habit: self.habit,
            calls: 0,
        })
    }

    fn open_dir(&self, _path: &str) -> io::Result<Page> {
        Err(error(ErrorKind::Unsupported))
    }

    fn metadata(&self, _path: &str) -> io::Result<Metadata> {
        Err(error(ErrorKind::Unsupported))
    }

    fn symlink_metadata(&self, _path: &str) -> io::Result<Metadata> {
        Err(error(ErrorKind::Unsupported))
    }

    fn copy(&self, _from: &str, _to: &str) -> io::Result<u64> {
        Err(error(ErrorKind::Unsupported))
    }

    fn rename(&self, _from: &str, _to: &str) -> io::Result<()> {
        Err(error(ErrorKind::Unsupported))
    }

    fn remove_file(&self, _path: &str) -> io::Result<()> {
        Err(error(ErrorKind::Unsupported))
    }

    fn create_dir(&self, _path: &str) -> io::Result<()> {
        Err(error(ErrorKind::Unsupported))
    }

    fn remove_dir(&self, _path: &str) -> io::Result<()> {
        Err(error(ErrorKind::Unsupported))
    }

    fn remove_dir_all<B: Allocator>(&self, _alloc: B, _path: &str) -> io::Result<()> {
        Err(error(ErrorKind::Unsupported))
    }
}

/// A command line, the program's name first.
#[derive(Drop)]
pub struct Line<'a> {
    pub words: &'a [&'a [u8]],
}

impl Env for Line<'_> {
    fn arg(&self, i: usize, buf: &mut [u8]) -> Result<usize, FillError> {
        let Some(word) = self.words.get(i) else {
            return Err(FillError::NotPresent);
        };
        let n = word.len();
        if n > buf.len() {
            return Err(FillError::TooLong);
        }
        buf[..n].copy_from_slice(word);
        Ok(n)
    }

    fn var(&self, _name: &str, _buf: &mut [u8]) -> Result<usize, FillError> {
        Err(FillError::NotPresent)
    }

    fn var_at(&self, _i: usize, _buf: &mut [u8]) -> Result<usize, FillError> {
        Err(FillError::NotPresent)
    }
}
