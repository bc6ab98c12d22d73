//! Defines a prefix of an order of at most five sites.
ghost use Rattle.std.specs.Prelude.{◌≤◌};

/// The first places of an order of at most five sites.
#[derive(Clone, Copy)]
pub struct Front {
    places: [u8; 5],
    len: u8,
    ghost within: { len ≤ 5 },
}

impl Front {
    ghost use Rattle.std.specs.Prelude.{◌≡◌, ◌≤◌, length, take};
    ghost use Rattle.ln_order.specs.Fronts.{front_places};

    // The prefix with these places, of which the first `len` count.
    pub(crate) fn of(places: [u8; 5], len: u8) -> Front
        requires { len ≤ 5 }
        ensures { front_places result ≡ take len places }
    {
        Front { places, len }
    }

    /// The places of the sites, the largest infinitesimals first.
    pub fn places(&self) -> &[u8]
        ensures value { result.now ≡ front_places self.now }
        ensures few { length (front_places self.now) ≤ 5 }
    {
        &self.places[..usize::from(self.len)]
    }
}
