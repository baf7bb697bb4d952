// Draws.
ghost use Rattle.std.specs.Prelude.{◌≡◌};
ghost use Rattle.base_random.specs.Draws.{drawn};

/// The number drawn after this one: three times it is combined by exclusive or with itself moved,
/// by 13 bits to the left, 7 to the right and 17 to the left, in 64 bits.
#[tactic(auto, unfolding(crate::specs::Draws::drawn))]
pub fn drawn(number: u64) -> u64
    ensures { result ≡ drawn number }
{
    let mut next = number;
    next ^= next << 13;
    next ^= next >> 7;
    next ^= next << 17;
    next
}
