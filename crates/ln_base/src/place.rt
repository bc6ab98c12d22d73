//! Finds the line and the column of a byte in a source.
ghost use Rattle.std.specs.Prelude.{◌≡◌, ◌==◌, ◌+◌, ◌-◌, ◌<◌, ◌≤◌, ◌^◌, length, count_by};
ghost use Rattle.ln_base.specs.Place.{line_of, column_of, behind_line_feed};

fn line_feeds(bytes: &[u8]) -> usize
    ensures count { result ≡ count_by (λ b. b == 10) bytes.now }
    ensures within { result ≤ length bytes.now }
{
    let mut n = 0usize;
    'each: for b in bytes {
        n += usize::from(*b == 10);
    }
    n
}

fn since_line_feed(bytes: &[u8]) -> u32
    requires { length bytes.now < 2 ^ 32 - 1 }
    ensures count { result ≡ behind_line_feed 0 bytes.now }
    ensures within { result ≤ length bytes.now }
{
    let mut n = 0u32;
    'each: for b in bytes {
        n = if *b == 10 { 0 } else { n + 1 };
    }
    n
}

/// The line and the column of a byte's place, from 1: the line is 1 plus the line feeds before it, the column 1 plus the
/// bytes since the last of them.
pub fn line_col(bytes: &[u8], at: u32) -> (u32, u32)
    requires within { at ≤ length bytes.now }
    requires small { at < 2 ^ 32 - 1 }
    ensures line { result.0 ≡ line_of bytes.now at }
    ensures column { result.1 ≡ column_of bytes.now at }
{
    let before = &bytes[..at as usize];
    (line_feeds(before) as u32 + 1, since_line_feed(before) + 1)
}
