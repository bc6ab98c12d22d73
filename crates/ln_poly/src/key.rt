//! Numbers of several words, each of 127 bits, which stand for monomials.
ghost use Rattle.std.specs.Prelude.{◌≡◌, ℕ, ◌+◌, ◌-◌, ◌*◌, ◌/◌, ◌<◌, ◌^◌, ◌↔◌, IsTrue};
ghost use Rattle.std.specs.Ordering.{MatchOrdering};
ghost use Rattle.ln_poly.specs.Words.{IsPlace};

use std::cmp::Ordering;
use std::marker::Model;

/// A number of N words, the lowest first.
#[derive(Clone, Copy)]
pub struct Key<const N: usize> {
    words: [u128; N],
}

impl<const N: usize> Model for Key<N> {
    ghost use Rattle.std.specs.Prelude.{ℕ};
    ghost use Rattle.std.proofs.Common.{ap};
    ghost use Rattle.ln_poly.specs.Words.{value, digits, AreWords, digits-value};

    ghost Value = { ℕ };

    ghost view = { λ k. value k.words };

    ghost invariant = { λ k. AreWords N k.words };

    ghost inverse = { λ n. record { words = digits N n } };

    ghost inverse_ok = { λ k h. ap (λ z. record { words = z }) (digits-value N k.words h) };
}

impl<const N: usize> Key<N> {
    /// 0.
    pub(crate) fn zero() -> Key<N>
        ensures { result ≡ 0 }
    {
        Key { words: [0u128; N] }
    }

    /// An exponent in the field that begins at this bit.
    pub(crate) fn field(e: u8, shift: u16) -> Key<N>
        requires place { IsPlace N shift }
        requires small { e < 128 }
        requires fits { e * 2 ^ shift < 2 ^ (127 * N) }
        ensures { result ≡ e * 2 ^ shift }
    {
        let mut words = [0u128; N];
        words[usize::from(shift / 127)] = u128::from(e) << u32::from(shift % 127);
        Key { words }
    }

    /// Takes the exponent out of the field that begins at this bit, above which there is nothing.
    pub(crate) fn take(&mut self, shift: u16) -> u8
        requires place { IsPlace N shift }
        requires small { self.old / 2 ^ shift < 128 }
        ensures exponent { result ≡ self.old / 2 ^ shift }
        ensures rest { self.new ≡ self.old - self.old / 2 ^ shift * 2 ^ shift }
    {
        let i = usize::from(shift / 127);
        let s = u32::from(shift % 127);
        let w = self.words[i];
        let e = w >> s;
        self.words[i] = w - (e << s);
        e as u8
    }

    /// The sum, which fits.
    pub(crate) fn sum(&self, other: &Key<N>) -> Key<N>
        requires { self.now + other.now < 2 ^ (127 * N) }
        ensures { result ≡ self.now + other.now }
    {
        let mut words = [0u128; N];
        let mut carry = 0u128;
        'words: for i in 0..N {
            let w = self.words[i] + other.words[i] + carry;
            carry = w >> 127u32;
            words[i] = w - (carry << 127u32);
        }
        Key { words }
    }

    /// The order of the two numbers.
    pub(crate) fn order(&self, other: &Key<N>) -> Ordering
        ensures { MatchOrdering result (self.now < other.now) (self.now ≡ other.now) (other.now < self.now) }
    {
        'words: for k in 0..N {
            let i = N - 1 - k;
            if self.words[i] != other.words[i] {
                return self.words[i].cmp(&other.words[i]);
            }
        }
        Ordering::Equal
    }

    /// Is it below the other one?
    pub(crate) fn is_below(&self, other: &Key<N>) -> bool
        ensures { IsTrue result ↔ (self.now < other.now) }
    {
        self.order(other).is_lt()
    }
}
