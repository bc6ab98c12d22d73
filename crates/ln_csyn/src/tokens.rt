//! The tokens of a text from a place on.
ghost use Rattle.std.specs.Prelude.{◌<◌, ◌≤◌, ◌+◌, ◌^◌, length};

/// The tokens from a place on, without a list of them: the bytes from the first one on, how many of them it has, and the line that it begins on.
#[derive(Clone, Copy)]
pub struct Tokens<'a> {
    pub bytes: &'a [u8],
    pub len: usize,
    pub line: u32,
    pub ghost within: { len ≤ length bytes.now },
    pub ghost few: { line + length bytes.now < 2 ^ 32 },
}
