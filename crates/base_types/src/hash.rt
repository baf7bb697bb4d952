// The 64-bit hash FNV-1a.
ghost use Rattle.std.specs.Prelude.{◌≡◌};
ghost use Rattle.base_types.specs.Hash.{fnv1a, hash_on, hash_start, hash_step};

/// The hash of no bytes.
pub(crate) const START: u64 = 14695981039346656037;

/// What the hash is multiplied by at each byte.
const PRIME: u64 = 1099511628211;

/// The hash with one word more.
pub(crate) fn step(hash: u64, word: u64) -> u64
    ensures { result ≡ hash_step hash word }
{
    (hash ^ word).wrapping_mul(PRIME)
}

// The hash with these bytes more.
pub(crate) fn hash_on(start: u64, bytes: &[u8]) -> u64
    ensures { result ≡ hash_on start bytes.now }
{
    let mut hash = start;
    for byte in bytes {
        hash = step(hash, u64::from(*byte));
    }
    hash
}

/// The 64-bit FNV-1a hash of bytes.
#[tactic(auto, unfolding(crate::specs::Hash::fnv1a))]
pub fn fnv1a(bytes: &[u8]) -> u64
    ensures { result ≡ fnv1a bytes.now }
{
    hash_on(START, bytes)
}
