//! Laws of the text: contracts of functions with nothing to do.
ghost use Rattle.ln_csyn.specs.Laws.{BodyIsComplete, FileIsComplete, FileIsSound, FlatIsSame, KeepsIs, LaidEndsLines, LaidIsFile, LinesSayNothing};
ghost use Rattle.ln_csyn.specs.Laws.{OneFile, OneFirst, OneLexed, OneText, ReadBack, ReadIsComplete};
ghost use Rattle.ln_csyn.specs.Laws.{ReadIsSound, SpelledIsDerived, TextIsKept, WrittenIsFile};

/// No bytes have two files: of each place one token is the longest, no bytes are two lists of tokens, and no tokens are two files.
pub fn one_text()
    ensures first { OneFirst }
    ensures lexed { OneLexed }
    ensures file { OneFile }
    ensures text { OneText }
{}

/// The file of a text keeps all conditions; each file that keeps them has a text with all tokens on line 2, and one
/// that is laid out, in which a line ends after each `;`, `{` and `}`.
pub fn files_have_texts()
    ensures kept { TextIsKept }
    ensures derived { SpelledIsDerived }
    ensures text { WrittenIsFile }
    ensures laid { LaidIsFile }
    ensures lines { LaidEndsLines }
{}

/// Two files are the same up to lines exactly where their flat files are one; so what is read of a written file is that file, up to
/// lines, and its calls say the same.
pub fn lines_alone()
    ensures same { FlatIsSame }
    ensures calls { LinesSayNothing }
    ensures back { ReadBack }
{}

/// A text that the grammar derives within the limits is read.
pub fn read_is_complete()
    ensures expr { ReadIsComplete }
    ensures body { BodyIsComplete }
    ensures file { FileIsComplete }
{}

/// A text that is read is derived, within the limits.
pub fn read_is_sound()
    ensures expr { ReadIsSound }
    ensures file { FileIsSound }
{}

/// The checker's tests are the conditions.
pub fn keeps_is()
    ensures { KeepsIs }
{}
