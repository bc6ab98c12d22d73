//! Decimal numbers: `specs/Decimal.antt` defines which text is which number, for every reader and writer of the product.
ghost use Rattle.std.specs.Prelude.{◌≡◌, ℕ, ℤ, ◌-◌, ◌*◌, ◌^◌, ◌<◌, List, true, Some, min, ◌&&◌, decimal, unsigned_abs};
ghost use Rattle.std.specs.Fmt.{signed_decimal};
ghost use Rattle.std.specs.List.{list_all};
ghost use Rattle.std.specs.Char.{is_ascii_digit};
ghost use Rattle.ln_base.specs.Decimal.{is_digits, decimal_value, integer_value, IsPlain, reading_of};

/// The reading of a field that should be a number: an optional `-` and one or more digits.
#[derive(Clone, Copy)]
pub enum Reading {
    /// It isn't of that form.
    NotANumber,
    /// It is a number below `-(2^63 - 1)` or above `2^63 - 1`.
    Outside,
    /// The number.
    Value(i64),
}

// The value of a digit.
fn digit_value(digit: u8) -> u8
    ensures { result ≡ digit - 48 }
{
    digit.saturating_sub(b'0')
}

/// The number that digits write, or `2^128 - 1` where it is larger. Leading zeros count for nothing.
pub fn unsigned(digits: &[u8]) -> u128
    ensures { result ≡ min (decimal_value digits.now) (2 ^ 128 - 1) }
{
    let mut n: u128 = 0;
    for digit in digits {
        n = n
            .saturating_mul(10)
            .saturating_add(u128::from(digit_value(*digit)));
    }
    n
}

// The same in 64 bits, for the many fields of rows.
fn unsigned_64(digits: &[u8]) -> u64
    ensures { result ≡ min (decimal_value digits.now) (2 ^ 64 - 1) }
{
    let mut n: u64 = 0;
    for digit in digits {
        n = n
            .saturating_mul(10)
            .saturating_add(u64::from(digit_value(*digit)));
    }
    n
}

fn every_digit(bytes: &[u8]) -> bool
    ensures { result ≡ list_all is_ascii_digit bytes.now }
{
    'bytes: for b in bytes {
        if !b.is_ascii_digit() {
            return false;
        }
    }
    true
}

/// Are the bytes one or more digits from 0 to 9?
pub fn all_digits(bytes: &[u8]) -> bool
    ensures { result ≡ is_digits bytes.now }
{
    every_digit(bytes) && !bytes.is_empty()
}

/// Reads a field as a signed number of 64 bits; `-0` is 0, and leading zeros are ignored.
pub fn integer(field: &[u8]) -> Reading
    ensures { result ≡ reading_of (integer_value field.now) }
{
    let (negative, digits) = match field {
        [b'-', rest @ ..] => (true, rest),
        _ => (false, field),
    };
    if !all_digits(digits) {
        return Reading::NotANumber;
    }
    let size = unsigned_64(digits);
    if size > i64::MAX as u64 {
        Reading::Outside
    } else if negative {
        Reading::Value(-(size as i64))
    } else {
        Reading::Value(size as i64)
    }
}

/// The text that is written for a number is std's `decimal` or `signed_decimal`. It is read back as the number, has no
/// leading zero and no `-0`, and below `2^64` no other text without leading zeros is the number's.
pub fn written_numbers_read_back()
    ensures natural { (n : ℕ) → n < 10 ^ 64 → decimal_value (decimal n) ≡ n }
    ensures plain { (n : ℕ) → n < 10 ^ 64 → IsPlain (decimal n) }
    ensures only { (ds : List ℕ) → IsPlain ds → decimal_value ds < 2 ^ 64 → decimal (decimal_value ds) ≡ ds }
    ensures integer { (z : ℤ) → unsigned_abs z < 10 ^ 64 → integer_value (signed_decimal z) ≡ Some z }
{}
