//! Names, and the buckets that they are found by.
ghost use Rattle.std.specs.Prelude.{◌≡◌, ◌<◌, ◌*◌, ◌/◌, ◌^◌, fold};
ghost use Rattle.ln_csyn.specs.Meaning.{same_name};
ghost use Rattle.ln_cmean.specs.Chains.{mixed, bucket_of};

/// Whether two names are one.
pub fn is_named(a: &[u8], b: &[u8]) -> bool
    ensures { result ≡ same_name a.now b.now }
{
    a == b
}

fn mix(hash: u64, letter: u8) -> u64
    ensures { result ≡ mixed hash letter }
{
    (((u128::from(hash) + u128::from(letter)) * 11400714819323198485) % 18446744073709551616) as u64
}

fn hash(name: &[u8]) -> u64
    ensures { result ≡ fold mixed 0 name.now }
{
    let mut hash = 0u64;
    'letters: for letter in name {
        hash = mix(hash, *letter);
    }
    hash
}

fn part(hash: u64, count: usize) -> usize
    requires { 0 < count }
    ensures within { result < count }
    ensures is { result ≡ hash * count / 2 ^ 64 }
{
    (u128::from(hash) * (count as u128) / 18446744073709551616) as usize
}

/// The bucket of a name, of this many.
pub fn bucket(name: &[u8], count: usize) -> usize
    requires { 0 < count }
    ensures within { result < count }
    ensures is { result ≡ bucket_of name.now count }
{
    part(hash(name), count)
}
