//! Reads a text line by line.
ghost use Rattle.std.specs.Prelude.{◌≡◌, ◌<◌, ◌≤◌, ◌∷◌, IfOk, IfErr, MatchOption, OnErr, drop, length};
ghost use Rattle.ln_base.specs.Limits.{most_file};
ghost use Rattle.ln_base.specs.Lines.{lines};
ghost use Rattle.ln_base.specs.Forms.Form.{AreSound};
ghost use Rattle.ln_base.specs.Forms.Unread.{Begins, IsFirst, IsOpened, IsUnread, NoFirst, NoneBegins, Stops, Takes};

use crate::NoMemory;
use crate::lines::grammar::Grammar;
use crate::lines::rest::Rest;
use crate::lines::stop::TextStop;
use crate::scan::{after, between, find};
use std::alloc::Global;

/// The first line of a text, with its line feed, and how many bytes it has; none where no line feed ends it.
pub fn first_line(text: &[u8]) -> Option<(&[u8], usize)>
    ensures { MatchOption result (NoFirst text.now) (λ x. IsFirst text.now x.0.now x.1) }
{
    let end = find(text, 0, b'\n');
    if end == text.len() {
        return None;
    }
    Some((between(text, 0, end + 1), end + 1))
}

// The line at the start of a text, the state after it, and how many bytes it has, with its line feed.
fn front<S: Copy, L: Drop, G: Grammar<S, L>>(
    alloc: Global,
    form: &G,
    state: S,
    text: &[u8],
) -> Result<Option<(L, S, usize)>, NoMemory>
    requires sound { AreSound (G.rules form.now) }
    requires some { 0 < length text.now }
    ensures { IfOk result (λ o. MatchOption o (NoneBegins (G.rules form.now) state text.now)
        (λ x. Begins (G.rules form.now) state text.now x.0 x.1 x.2)) }
{
    let end = find(text, 0, b'\n');
    if end == text.len() {
        return Ok(None);
    }
    let read = form.line(alloc, state, between(text, 0, end))?;
    let Some((line, next)) = read else {
        return Ok(None);
    };
    Ok(Some((line, next, end + 1)))
}

// Reads a text from after its first line to the end, and keeps nothing of it.
fn check<S: Copy, L: Drop, G: Grammar<S, L>>(
    alloc: Global,
    form: &G,
    bytes: &[u8],
    behind: usize,
) -> Result<(), TextStop>
    requires sound { AreSound (G.rules form.now) }
    requires short { length bytes.now ≤ most_file }
    requires within { behind ≤ length bytes.now }
    requires first { lines bytes.now ≡ (G.rules form.now).first ∷ lines (drop behind bytes.now) }
    ensures ok { IfOk result (λ _. IsOpened (G.rules form.now) bytes.now
        (record { state = (G.rules form.now).start; line = 2; text = drop behind bytes.now })) }
    ensures err { IfErr result (λ e. Stops (G.rules form.now) bytes.now e) }
{
    let mut text = after(bytes, behind);
    let mut state = form.start();
    let mut number = 2u32;
    'lines: while text.len() > 0 {
        let read = front::<S, L, G>(alloc, form, state, text)?;
        let Some((line, next, count)) = read else {
            return Err(TextStop::Form(number));
        };
        drop(line);
        state = next;
        text = after(text, count);
        number += 1;
    }
    if form.is_end(state) {
        Ok(())
    } else {
        Err(TextStop::Form(number))
    }
}

/// The lines of a text of the form, whose first line ends at a place. The form of the whole text is checked first, and no line is kept: each is read
/// once more where it is taken. It takes time in proportion to the number of bytes, and memory for one line.
pub fn opened<'a, S: Copy, L: Drop, G: Grammar<S, L>>(
    alloc: Global,
    form: &G,
    bytes: &'a [u8],
    behind: usize,
) -> Result<Rest<'a, S>, TextStop>
    requires sound { AreSound (G.rules form.now) }
    requires short { length bytes.now ≤ most_file }
    requires within { behind ≤ length bytes.now }
    requires first { lines bytes.now ≡ (G.rules form.now).first ∷ lines (drop behind bytes.now) }
    ensures ok { IfOk result (λ r. IsOpened (G.rules form.now) bytes.now r) }
    ensures state { IfOk result (λ r. r.state ≡ (G.rules form.now).start) }
    ensures err { IfErr result (λ e. Stops (G.rules form.now) bytes.now e) }
{
    check::<S, L, G>(alloc, form, bytes, behind)?;
    let state = form.start();
    let text = after(bytes, behind);
    Ok(Rest {
        state,
        line: 2,
        text,
    })
}

/// The next line, or none at the end. Allocates for this line alone. After `NoMemory` the same lines remain.
pub fn next<S: Copy, L: Drop, G: Grammar<S, L>>(
    alloc: Global,
    form: &G,
    rest: &mut Rest<'_, S>,
) -> Result<Option<L>, NoMemory>
    requires sound { AreSound (G.rules form.now) }
    requires unread { IsUnread (G.rules form.now) rest.old }
    ensures takes { IfOk result (λ o. Takes (G.rules form.now) rest.old o rest.new) }
    ensures err { OnErr result (rest.new ≡ rest.old) }
{
    if rest.text.len() == 0 {
        return Ok(None);
    }
    let read = front::<S, L, G>(alloc, form, rest.state, rest.text)?;
    let Some((line, state, count)) = read else {
        unreachable!()
    };
    rest.state = state;
    rest.line += 1;
    rest.text = after(rest.text, count);
    Ok(Some(line))
}
