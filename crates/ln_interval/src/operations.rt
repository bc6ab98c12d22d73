//! Operations on pairs: interval arithmetic (Moore 1966) on integers, without rounding.
ghost use Rattle.std.specs.Prelude.{◌≡◌, ◌≤◌, ◌*◌, ◌<◌, ◌≤ℤ◌, ◌+ℤ◌, ◌-ℤ◌, ◌*ℤ◌, unsigned_abs, MatchOption, IsTrue, ◌↔◌};
ghost use Rattle.ln_interval.specs.Range.{most, magnitude, sum, difference, opposite, product};
ghost use Rattle.ln_interval.specs.Range.{power, Covers, IsNoPair, least_of, greatest_of};
ghost use Rattle.ln_interval.specs.View.{range};

use crate::pair::{MOST, Pair};

// The sum, where it is within the limit.
fn plus(a: i128, b: i128) -> Option<i128>
    ensures { MatchOption result (most < unsigned_abs (a +ℤ b)) (λ z. (z ≡ a +ℤ b) × (unsigned_abs z ≤ most)) }
{
    match a.checked_add(b) {
        Some(z) if z.unsigned_abs() <= MOST => Some(z),
        _ => None,
    }
}

// The difference, where it is within the limit.
fn minus(a: i128, b: i128) -> Option<i128>
    ensures { MatchOption result (most < unsigned_abs (a -ℤ b)) (λ z. (z ≡ a -ℤ b) × (unsigned_abs z ≤ most)) }
{
    match a.checked_sub(b) {
        Some(z) if z.unsigned_abs() <= MOST => Some(z),
        _ => None,
    }
}

// Is the product of two magnitudes past the limit?
fn is_past(a: u128, b: u128) -> bool
    ensures { IsTrue result ↔ (most < a * b) }
{
    match a.checked_mul(b) {
        Some(m) => m > MOST,
        None => true,
    }
}

fn least_of(a: i128, b: i128, c: i128, d: i128) -> i128
    ensures { result ≡ least_of a b c d }
{
    a.min(b).min(c.min(d))
}

fn greatest_of(a: i128, b: i128, c: i128, d: i128) -> i128
    ensures { result ≡ greatest_of a b c d }
{
    a.max(b).max(c.max(d))
}

// The pair of two ends that are known to be those of one.
fn of_ends(low: i128, high: i128) -> Pair
    requires ordered { low ≤ℤ high }
    requires low_small { unsigned_abs low ≤ most }
    requires high_small { unsigned_abs high ≤ most }
    ensures low { result.low ≡ low }
    ensures high { result.high ≡ high }
{
    Pair { low, high }
}

// The product of two numbers, where it is within the limit.
fn times(a: i128, b: i128) -> i128
    requires { unsigned_abs a * unsigned_abs b ≤ most }
    ensures { result ≡ a *ℤ b }
{
    a * b
}

// The pair of a product, where its magnitude is within the limit: none of the four products is past it.
fn product_of(p: Pair, q: Pair) -> Pair
    requires { magnitude (range p) * magnitude (range q) ≤ most }
    ensures { range result ≡ product (range p) (range q) }
{
    let a = times(p.low, q.low);
    let b = times(p.low, q.high);
    let c = times(p.high, q.low);
    let d = times(p.high, q.high);
    of_ends(least_of(a, b, c, d), greatest_of(a, b, c, d))
}

impl Pair {
    /// The pair of these ends. `None` where low is above high, or one is past `2^127 - 1` in absolute value.
    pub fn new(low: i128, high: i128) -> Option<Pair>
        ensures { MatchOption result (IsNoPair low high) (λ p. (p.low ≡ low) × (p.high ≡ high)) }
    {
        if low <= high && low.unsigned_abs() <= MOST && high.unsigned_abs() <= MOST {
            Some(Pair { low, high })
        } else {
            None
        }
    }

    /// The pair of a sum of two values, `L1 + L2 .. H1 + H2`. `None` where an end is past `2^127 - 1`.
    pub fn add(self, o: Pair) -> Option<Pair>
        ensures { MatchOption result (most < magnitude (sum (range self) (range o))) (λ p. range p ≡ sum (range self) (range o)) }
    {
        match (plus(self.low, o.low), plus(self.high, o.high)) {
            (Some(low), Some(high)) => Some(of_ends(low, high)),
            _ => None,
        }
    }

    /// The pair of a difference of two values, `L1 - H2 .. H1 - L2`. `None` where an end is past `2^127 - 1`.
    pub fn sub(self, o: Pair) -> Option<Pair>
        ensures { MatchOption result (most < magnitude (difference (range self) (range o)))
            (λ p. range p ≡ difference (range self) (range o)) }
    {
        match (minus(self.low, o.high), minus(self.high, o.low)) {
            (Some(low), Some(high)) => Some(of_ends(low, high)),
            _ => None,
        }
    }

    /// The pair of a product of two values: the least and the greatest of the four products of ends. `None` where one of
    /// these is past `2^127 - 1`.
    pub fn mul(self, o: Pair) -> Option<Pair>
        ensures { MatchOption result (most < magnitude (product (range self) (range o))) (λ p. range p ≡ product (range self) (range o)) }
    {
        if is_past(self.magnitude(), o.magnitude()) {
            return None;
        }
        Some(product_of(self, o))
    }

    /// The pair of the n-th power: `1 .. 1` for 0, and from there the pair of the product of the power before it and the
    /// base, so that `-2 .. 3` has the square `-6 .. 9`. `None` where an end is past `2^127 - 1`.
    pub fn power(self, n: u8) -> Option<Pair>
        ensures { MatchOption result (most < magnitude (power (range self) n)) (λ p. range p ≡ power (range self) n) }
    {
        if n == 0 {
            return Some(of_ends(1, 1));
        }
        match self.power(n - 1) {
            Some(p) => p.mul(self),
            None => None,
        }
    }

    /// The pair of the opposite, `-H .. -L`.
    pub fn neg(self) -> Pair
        ensures { range result ≡ opposite (range self) }
    {
        Pair {
            low: -self.high,
            high: -self.low,
        }
    }

    /// Is the pair's low not above the other's, and its high not below the other's?
    pub fn covers(self, o: Pair) -> bool
        ensures { IsTrue result ↔ Covers (range self) (range o) }
    {
        self.low <= o.low && o.high <= self.high
    }

    /// The larger absolute value of the two ends, which no value of the range exceeds.
    pub fn magnitude(self) -> u128
        ensures value { result ≡ magnitude (range self) }
        ensures small { result ≤ most }
    {
        self.low.unsigned_abs().max(self.high.unsigned_abs())
    }
}
