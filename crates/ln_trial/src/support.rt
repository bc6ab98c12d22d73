//! Files and a console in memory, for the tests.
use ln_base::{MemConsole, MemFiles, NoMemory, Port};
use ln_top::{Status, lnc};
use ln_watch::{DeciderWatch, FirstWatch, SignWatch, Watch};
use std::alloc::Global;

/// The header of rows of the orientation.
pub const HEAD: &str = "p,p.x,p.y,q,q.x,q.y,r,r.x,r.y\n";

/// Words, with blanks between them, over a source and rows; the status that they require, and the bytes on Out and on Err.
pub type Case<'a> = (&'a str, &'a str, &'a str, Status, &'a str, &'a str);

/// The failures: these calls of the files, these writes, and the writes past this many bytes of a stream.
#[derive(Clone, Copy)]
pub struct Faults<'a> {
    pub reads: &'a [u64],
    pub puts: &'a [u64],
    pub room: usize,
}

/// Nothing fails.
pub const NO_FAULTS: Faults<'static> = Faults {
    reads: &[],
    puts: &[],
    room: 4096,
};

/// The files `s.ln` and `r.csv` with these bytes; the calls in `fails` fail.
pub fn shelf(alloc: Global, source: &str, rows: &str, fails: &[u64]) -> Result<MemFiles, NoMemory> {
    let mut files = Vec::new(alloc);
    let source = Vec::from_slice(alloc, source.as_bytes())?;
    files.push((String::from_str(alloc, "s.ln")?, source))?;
    let rows = Vec::from_slice(alloc, rows.as_bytes())?;
    files.push((String::from_str(alloc, "r.csv")?, rows))?;
    Ok(MemFiles::new(files, Vec::from_slice(alloc, fails)?))
}

/// The words of a text, each a text of its own.
pub fn texts(alloc: Global, words: &str) -> Result<Vec<String>, NoMemory> {
    let mut all = Vec::new(alloc);
    for word in words.split_ascii_whitespace() {
        all.push(String::from_str(alloc, word)?)?;
    }
    Ok(all)
}

/// The status of the words, with these watchers. Nothing else here calls the program.
pub fn answered(
    alloc: Global,
    words: &str,
    files: &mut MemFiles,
    con: &mut MemConsole,
    watchers: Vec<Box<dyn Watch>>,
) -> Result<Status, NoMemory> {
    let words = texts(alloc, words)?;
    Ok(lnc(alloc, &words, files, con, watchers))
}

/// What the words write over a source, on streams with room for 2^20 bytes.
pub fn written(alloc: Global, words: &str, source: &str) -> Result<MemConsole, NoMemory> {
    let mut con = MemConsole::new(alloc, 1 << 20, 7, Vec::new(alloc))?;
    let mut files = shelf(alloc, source, "", &[])?;
    answered(alloc, words, &mut files, &mut con, Vec::new(alloc))?;
    Ok(con)
}

/// Have the words their status and their bytes over these files and this console?
pub fn is_said(
    alloc: Global,
    case: &Case<'_>,
    files: &mut MemFiles,
    mut con: MemConsole,
    watchers: Vec<Box<dyn Watch>>,
) -> Result<bool, NoMemory> {
    let (words, _, _, status, out, err) = *case;
    let was = answered(alloc, words, files, &mut con, watchers)?;
    let put = con.bytes(Port::Out) == out.as_bytes() && con.bytes(Port::Err) == err.as_bytes();
    Ok(was == status && put)
}

/// Have the words their status and their bytes, with these watchers, where this fails? A write takes seven bytes at most.
pub fn is_answered(
    alloc: Global,
    case: &Case<'_>,
    faults: Faults<'_>,
    watchers: Vec<Box<dyn Watch>>,
) -> Result<bool, NoMemory> {
    let (_, source, rows, ..) = *case;
    let con = MemConsole::new(alloc, faults.room, 7, Vec::from_slice(alloc, faults.puts)?)?;
    let mut files = shelf(alloc, source, rows, faults.reads)?;
    is_said(alloc, case, &mut files, con, watchers)
}

/// Have all words their status and their bytes, without watchers, where nothing fails?
pub fn are_answered(alloc: Global, cases: &[Case<'_>]) -> Result<bool, NoMemory> {
    for case in cases {
        if !is_answered(alloc, case, NO_FAULTS, Vec::new(alloc))? {
            return Ok(false);
        }
    }
    Ok(true)
}

/// A watcher of signs, of deciders, or of the first perturbed row, the first two or the first three.
#[derive(Clone, Copy)]
pub enum Kind {
    Signs,
    Deciders,
    First,
    FirstTwo,
    FirstThree,
}

/// Two watchers of the first perturbed rows, and one of the signs between them.
pub const AROUND_SIGNS: &[Kind] = &[Kind::First, Kind::Signs, Kind::FirstTwo];

/// Watchers of these kinds.
pub fn boxes(alloc: Global, kinds: &[Kind]) -> Result<Vec<Box<dyn Watch>>, NoMemory> {
    let mut boxes: Vec<Box<dyn Watch>> = Vec::new(alloc);
    for kind in kinds {
        match kind {
            Kind::Signs => boxes.push(Box::new(alloc, SignWatch::new())?)?,
            Kind::Deciders => boxes.push(Box::new(alloc, DeciderWatch::new())?)?,
            Kind::First => boxes.push(Box::new(alloc, FirstWatch::new(1))?)?,
            Kind::FirstTwo => boxes.push(Box::new(alloc, FirstWatch::new(2))?)?,
            Kind::FirstThree => boxes.push(Box::new(alloc, FirstWatch::new(3))?)?,
        }
    }
    Ok(boxes)
}
