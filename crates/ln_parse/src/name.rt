//! Names, from their places in the source.
ghost use Rattle.std.specs.Prelude.{◌≡◌};
ghost use Rattle.ln_syntax.specs.Raw.{text};
ghost use Rattle.ln_tree.specs.Names.{name_bytes};
ghost use Rattle.ln_parse.specs.Ready.{IsNamed};

use ln_base::Span;
use ln_names::spans::text;
use ln_tree::Name;

/// The name at a place.
pub fn name_at(bytes: &[u8], at: Span) -> Name
    requires { IsNamed bytes.now at }
    ensures { name_bytes result ≡ text bytes.now at }
{
    Name::of(text(bytes, at))
}
