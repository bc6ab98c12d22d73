//! The place of a byte in a source.
ghost use Rattle.std.specs.Prelude.{◌≡◌, ◌≤◌, length};
ghost use Rattle.ln_base.specs.Limits.{most_source};
ghost use Rattle.ln_top.specs.Frame.Source.{place_at};

use crate::frame::stop::Place;
use ln_base::{Span, line_col};

/// Returns the place of the start of a span, both from 1. Allocates nothing.
pub fn place_at(bytes: &[u8], at: Span) -> Place
    requires { length bytes.now ≤ most_source }
    ensures { result ≡ place_at bytes.now at }
{
    let (line, col) = line_col(bytes, at.start.min(bytes.len() as u32));
    Place { line, col }
}
