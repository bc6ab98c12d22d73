//! Laws of ranges, over all integers.
ghost use Rattle.std.specs.Prelude.{◌≡◌, ◌≤◌, ◌+◌, ◌*◌, ◌^◌, ℕ, ℤ, ◌+ℤ◌, ◌-ℤ◌, ◌*ℤ◌, neg_ℤ, unsigned_abs};
ghost use Rattle.ln_interval.specs.Number.{power as power_of};
ghost use Rattle.ln_interval.specs.Range.{Range, Covers, Holds, IsOrdered, difference, magnitude, opposite, power, product, sum};

/// The value of an operation on values in ranges is in the operation's range.
///
/// On it rests that each value of a compiled predicate is between its two ends.
pub fn operations_hold_values()
    ensures sum { (p q : Range) (x y : ℤ) → Holds p x → Holds q y → Holds (sum p q) (x +ℤ y) }
    ensures difference { (p q : Range) (x y : ℤ) → Holds p x → Holds q y → Holds (difference p q) (x -ℤ y) }
    ensures opposite { (p : Range) (x : ℤ) → Holds p x → Holds (opposite p) (neg_ℤ x) }
    ensures product { (p q : Range) (x y : ℤ) → Holds p x → Holds q y → Holds (product p q) (x *ℤ y) }
    ensures power { (p : Range) (n : ℕ) (x : ℤ) → Holds p x → Holds (power p n) (power_of x n) }
{}

/// Operations on covered ranges are covered, and no lower power of a range exceeds a limit that the power keeps.
///
/// On it rests that a range may be replaced by a wider one at any step, and that a power may be computed factor by factor.
pub fn operations_are_monotone()
    ensures sum { (p q r s : Range) → Covers p r → Covers q s → Covers (sum p q) (sum r s) }
    ensures difference { (p q r s : Range) → Covers p r → Covers q s → Covers (difference p q) (difference r s) }
    ensures opposite { (p r : Range) → Covers p r → Covers (opposite p) (opposite r) }
    ensures product { (p q r s : Range) → IsOrdered r → IsOrdered s → Covers p r → Covers q s → Covers (product p q) (product r s) }
    ensures power { (p r : Range) (n : ℕ) → IsOrdered r → Covers p r → Covers (power p n) (power r n) }
    ensures lower { (p q : Range) (m k n : ℕ) → 1 ≤ m → k ≤ n → Covers q (power p n) → magnitude q ≤ m → magnitude (power p k) ≤ m }
{}

/// Magnitudes follow the operations: of a sum or difference at most the sum, of a product and a power exactly the product
/// and the power. No value of a range is above its magnitude.
///
/// On it rests that a bound in absolute value and a range count alike where nothing but the magnitude counts.
pub fn magnitudes_follow()
    ensures value { (p : Range) (x : ℤ) → Holds p x → unsigned_abs x ≤ magnitude p }
    ensures covers { (p q : Range) → IsOrdered q → Covers p q → magnitude q ≤ magnitude p }
    ensures sum { (p q : Range) → magnitude (sum p q) ≤ magnitude p + magnitude q }
    ensures difference { (p q : Range) → magnitude (difference p q) ≤ magnitude p + magnitude q }
    ensures opposite { (p : Range) → magnitude (opposite p) ≡ magnitude p }
    ensures product { (p q : Range) → magnitude (product p q) ≡ magnitude p * magnitude q }
    ensures power { (p : Range) (n : ℕ) → magnitude (power p n) ≡ magnitude p ^ n }
{}
