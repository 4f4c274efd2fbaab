// Bytes: taken from numbers, and summed.
ghost use Rattle.std.specs.Prelude.{◌≡◌, ◌<◌, ◌%◌, map, IfOk};

use std::alloc::{AllocError, Global};

// Numbers as bytes.
pub fn of_numbers(alloc: Global, numbers: &[u64]) -> Result<Vec<u8>, AllocError>
    ensures { IfOk result (λ bytes. bytes.items ≡ map (λ x. x % 256) numbers.now) }
{
    numbers.iter().map(|x| (*x % 256) as u8).collect(alloc)
}

// The sum goes by this factor and is a remainder of this prime, so that no step is out of range.
const SUM_FACTOR: u64 = 257;

const SUM_PRIME: u64 = 1_000_000_007;

fn with_byte(sum: u64, b: u8) -> u64 {
    (sum % SUM_PRIME) * SUM_FACTOR + u64::from(b) + 1
}

// A sum of all bytes, in which each counts by its place.
pub fn sum(bytes: &[u8]) -> u64
    ensures { result < 1000000007 }
{
    bytes.iter().fold(0, |sum, b| with_byte(sum, *b)) % SUM_PRIME
}
