//! Finds the first site of a row whose index an earlier site has.
ghost use Rattle.std.specs.Prelude.{◌≡◌, ◌≢◌, ◌≤◌, length, AllPairs, MatchOption};
ghost use Rattle.std.specs.List.{list_any};
ghost use Rattle.std.specs.Ordering.{int_eq};
ghost use Rattle.ln_order.specs.Order.{first_equal, IsFirstEqual};

/// Two sites of a row have one index: the first place whose index an earlier place has.
#[derive(Clone, Copy)]
pub struct Equal(pub u8);

// Is the index among these?
fn is_among(before: &[i64], z: &i64) -> bool
    ensures { result ≡ list_any (λ y. int_eq y z.now) before.now }
{
    before.iter().any(|y| *y == *z)
}

/// The first place whose index an earlier place has, if any.
pub fn first_equal(indices: &[i64]) -> Option<u8>
    requires { length indices.now ≤ 5 }
    ensures value { result ≡ first_equal indices.now }
    ensures first { MatchOption result (AllPairs (λ y z. y ≢ z) indices.now) (λ k. IsFirstEqual indices.now k) }
{
    'places: for (k, z) in indices.iter().enumerate() {
        if is_among(&indices[..k], z) {
            return Some(k as u8);
        }
    }
    None
}
