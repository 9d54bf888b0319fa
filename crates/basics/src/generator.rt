//! The generator of all numbers that a run draws from a seed: the linear congruential one of
//! Knuth's MMIX.
ghost use Rattle.std.specs.Prelude.{◌≡◌};
ghost use Rattle.basics.specs.Generator.{advance as advanced};

/// What a number is multiplied by.
pub const MULTIPLIER: u64 = 6364136223846793005;

/// What is added then.
pub const INCREMENT: u64 = 1442695040888963407;

/// The number after `x`, modulo 2^64.
pub fn advance(x: u64) -> u64
    ensures { result ≡ advanced x }
{
    x.wrapping_mul(MULTIPLIER).wrapping_add(INCREMENT)
}
