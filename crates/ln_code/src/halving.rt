//! Divisions by powers of 2, of sizes and of errors.
ghost use Rattle.std.specs.Prelude.{◌≡◌, ◌≤◌, ◌+◌, ◌/◌, ◌^◌};
ghost use Rattle.ln_code.specs.FilterRules.{error_after};

/// A number divided by 2^n, rounded down.
pub fn shifted(h: u128, n: u32) -> u128
    ensures { result ≡ h / 2 ^ n }
{
    if n < 128 { h >> n } else { 0 }
}

/// The error after a division by 2^n: the error divided by it, rounded up, and 1 for the division's own. With n = 0 it stays.
#[tactic(auto, using(crate::proofs::Engines::Quotients::ceil_fits, crate::proofs::Engines::Quotients::unit_is))]
pub fn error_after(n: u32, e: u64) -> u64
    ensures value { result ≡ error_after n e }
    ensures most { result ≤ e + 2 }
{
    if n == 0 {
        return e;
    }
    if n < 64 {
        return e.div_ceil(1u64 << n) + 1;
    }
    if e == 0 { 1 } else { 2 }
}
