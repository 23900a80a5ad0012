// Digests of numbers, by which two pictures are told apart.
#![tactic(auto)]

ghost use Rattle.std.specs.Prelude.{◌≡◌};
ghost use Rattle.digests.specs.Digest.{digested};

// Two numbers below 2^32.
#[derive(Clone, Copy, Debug, PartialEq, Eq)]
pub struct Halves {
    pub first: u64,
    pub second: u64,
}

// The digest of numbers in their order.
#[tactic(auto, unfolding(crate::specs::Digest::digested))]
pub fn digest(numbers: &[u16]) -> Halves
    ensures { result ≡ digested numbers.now }
{
    let mut first: u64 = 0;
    let mut second: u64 = 0;
    for n in numbers {
        let v = u64::from(*n);
        first = (first * 1000003 + v + 1) % 4294967291;
        second = (second * 998244353 + v + 1) % 4294967279;
    }
    Halves { first, second }
}
