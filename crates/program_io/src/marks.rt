// Runs that hold marks, by which is seen whether what is lent to a call is written.
ghost use Rattle.std.specs.Prelude.{◌≡◌, ◌<◌, ◌≤◌, length, vec_len, IfOk, IfSome};

use std::alloc::{AllocError, Global};

pub trait Mark: Copy + PartialEq {
    // What stands at a place before a call.
    fn mark(place: usize) -> Self;
}

// Place k holds k + 1, which the outputs that are expected say. No run is so long that `min` matters: it bounds the sum.
impl Mark for u64 {
    fn mark(place: usize) -> u64 {
        place.min(999_999) as u64 + 1
    }
}

// The largest prime that a byte can hold, so that marks repeat at no width of a line.
impl Mark for u8 {
    fn mark(place: usize) -> u8 {
        (place % 251) as u8
    }
}

// A run of so many marks.
pub fn marked<T: Mark>(alloc: Global, length: usize) -> Result<Vec<T>, AllocError>
    ensures { IfOk result (λ run. vec_len run ≡ length) }
{
    (0..length).map(|place| T::mark(place)).collect(alloc)
}

// The first place from one on that no longer has its mark.
pub fn first_marred<T: Mark>(run: &[T], from: usize) -> Option<usize>
    ensures { IfSome result (λ place. (from ≤ place) × (place < length run.now)) }
{
    run.iter()
        .enumerate()
        .skip(from)
        .find(|(place, x)| **x != T::mark(*place))
        .map(|(place, _)| place)
}

// The first place at which two runs differ, as far as both go.
pub fn first_difference<T: PartialEq>(a: &[T], b: &[T]) -> Option<usize>
    ensures { IfSome result (λ place. (place < length a.now) × (place < length b.now)) }
{
    a.iter().zip(b.iter()).position(|(x, y)| x != y)
}
