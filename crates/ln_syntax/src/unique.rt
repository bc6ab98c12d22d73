//! What tokens spell is one: no tokens have two trees or two lists of items.
ghost use Rattle.std.specs.Prelude.{◌≡◌, ℕ, List};
ghost use Rattle.ln_syntax.specs.Raw.{Token as TokenOf, Item, Is};
ghost use Rattle.ln_lex.specs.declared.token.Kind.TheVariants.{Semi};
ghost use Rattle.ln_syntax.specs.Expression.{Tree, Sum, Derives};
ghost use Rattle.ln_syntax.specs.File.{Spelt};

/// A law: an expression that begins at one place and ends before a semicolon has one end and one tree.
pub fn one_tree()
    ensures end { (ts : List TokenOf) (i j k : ℕ) (e f : Tree) → Derives ts Sum i j e → Is ts j Semi → Derives ts Sum i k f →
        Is ts k Semi → j ≡ k }
    ensures tree { (ts : List TokenOf) (i j k : ℕ) (e f : Tree) → Derives ts Sum i j e → Is ts j Semi → Derives ts Sum i k f →
        Is ts k Semi → e ≡ f }
{}

/// A law: no tokens spell two lists of items.
#[tactic(auto, using(crate::proofs::Spellings::OneSpelling::one_spelling))]
pub fn one_spelling()
    ensures { (ts : List TokenOf) (xs ys : List Item) → Spelt ts xs → Spelt ts ys → xs ≡ ys }
{}
