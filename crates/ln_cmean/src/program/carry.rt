//! The work of the program: two files are read, and the meanings of the calls are written.
ghost use Rattle.std.specs.Prelude.{◌≡◌, ◌≢◌, ◌∷◌, [], IfErr, IfSome, MatchOption, OnOk, length, map, string_bytes};
ghost use Rattle.ln_cmean.specs.Carrying.Calls.{AreWritten};
ghost use Rattle.ln_cmean.specs.Carrying.Stops.{IsCause, IsUnwritten};

use crate::program::meaning::meanings;
use crate::program::stop::Stop;
use ln_base::limits::MOST_FILE;
use ln_base::{Console, Files, Port, put_all, read_whole};
use ln_csyn::read_c;
use std::alloc::Global;

// Returns the two words, where there are two.
fn two_words(words: &[String]) -> Option<(&str, &str)>
    ensures { MatchOption result (length (map string_bytes words.now) ≢ 2)
        (λ x. map string_bytes words.now ≡ x.0.now ∷ (x.1.now ∷ [])) }
{
    match words {
        [file, calls] => Some((file.as_str(), calls.as_str())),
        _ => None,
    }
}

/// Reads the two files that the words name, a C file and a text of calls, and writes the meanings of the calls on standard output, all at
/// once. Where the content of the files is known, so are the bytes that it has written when it returns without a stop. A stop has its cause,
/// and nothing was written, unless writing itself failed: then what was written begins the meanings.
pub fn carry_out<F: Files, C: Console>(
    alloc: Global,
    words: &[String],
    files: &mut F,
    con: &mut C,
) -> Result<(), Stop>
    ensures written { OnOk result (IfSome (F.told files.old) (λ shelf.
        AreWritten (map string_bytes words.now) shelf (C.shown con.old) (C.shown con.new))) }
    ensures stopped { IfErr result (λ s. IsCause s (map string_bytes words.now) (F.told files.old)
        (F.faults files.old, F.faults files.new) (C.faults con.old, C.faults con.new)) }
    ensures unwritten { IfErr result (λ s. IsUnwritten s (map string_bytes words.now) (F.told files.old)
        (C.shown con.old) (C.shown con.new)) }
{
    let Some((file, calls)) = two_words(words) else {
        return Err(Stop::Usage);
    };
    let file = {
        let text = read_whole(alloc, files, file, MOST_FILE)?;
        read_c(alloc, text.as_slice())?
    };
    let calls = read_whole(alloc, files, calls, MOST_FILE)?;
    let out = meanings(alloc, file, calls)?;
    put_all(con, Port::Out, out.as_slice())?;
    Ok(())
}
