//! The kind of a line by its first word.
ghost use Rattle.std.specs.Prelude.{◌≡◌, Some, None, if◌then◌else◌, bytes_eq};

/// This one where the word is the first.
pub fn only<K: Copy>(w: &[u8], first: &[u8], one: K) -> Option<K>
    ensures { result ≡ (if bytes_eq w.now first.now then Some one else None) }
{
    if w == first { Some(one) } else { None }
}

/// One of two by their words.
pub fn either<K: Copy>(w: &[u8], first: &[u8], one: K, second: &[u8], two: K) -> Option<K>
    ensures { result ≡ (if bytes_eq w.now first.now then Some one else if bytes_eq w.now second.now then Some two else None) }
{
    if w == first {
        Some(one)
    } else {
        only(w, second, two)
    }
}
