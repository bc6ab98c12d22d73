//! The scanner of texts of lines: the words of a line, from one space to the next, by places.
ghost use Rattle.std.specs.Prelude.{◌≡◌, ◌<◌, ◌≤◌, ◌+◌, ◌-◌, ◌∷◌, [], length, drop, take, IfSome, IfNone, IsTrue, ◌↔◌};
ghost use Rattle.ln_base.specs.Lines.{span_to, words_from};

/// The place of the first `stop` from `at` on, or the end.
pub fn find(bytes: &[u8], at: usize, stop: u8) -> usize
    requires { at ≤ length bytes.now }
    ensures place { result ≡ at + span_to stop (drop at bytes.now) }
    ensures after { at ≤ result }
    ensures within { result ≤ length bytes.now }
{
    let mut end = at;
    'bytes: while end < bytes.len() {
        if bytes[end] == stop {
            return end;
        }
        end += 1;
    }
    end
}

/// The bytes from a place on.
pub fn after(bytes: &[u8], i: usize) -> &[u8]
    requires { i ≤ length bytes.now }
    ensures { result.now ≡ drop i bytes.now }
{
    &bytes[i..]
}

/// The bytes from one place to another.
pub fn between(bytes: &[u8], i: usize, j: usize) -> &[u8]
    requires order { i ≤ j }
    requires within { j ≤ length bytes.now }
    ensures { result.now ≡ take (j - i) (drop i bytes.now) }
{
    &bytes[i..j]
}

/// The word at a place within the text, and the place of the next one.
pub fn word(bytes: &[u8], at: usize) -> (&[u8], usize)
    requires { at ≤ length bytes.now }
    ensures word { words_from at bytes.now ≡ result.0.now ∷ words_from result.1 bytes.now }
    ensures on { at < result.1 }
{
    let end = find(bytes, at, b' ');
    (between(bytes, at, end), end + 1)
}

/// The word at a place, and the place of the next one; none after the last.
pub fn next_word(bytes: &[u8], at: usize) -> Option<(&[u8], usize)>
    ensures some { IfSome result (λ x. words_from at bytes.now ≡ x.0.now ∷ words_from x.1 bytes.now) }
    ensures none { IfNone result (words_from at bytes.now ≡ []) }
{
    if at > bytes.len() {
        None
    } else {
        Some(word(bytes, at))
    }
}

/// Whether no word follows from the place on.
pub fn ended(bytes: &[u8], at: usize) -> bool
    ensures { IsTrue result ↔ (words_from at bytes.now ≡ []) }
{
    next_word(bytes, at).is_none()
}
