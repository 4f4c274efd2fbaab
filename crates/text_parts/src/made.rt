// Texts that are made from few bytes: a change of the last text that was given whole, and a front, a part that stands in it many
// times, and a tail.
// The casts by `as` lose nothing: usize and u64 both have 64 bits.
use crate::bytes;
use program_io::fault::Fault;
use program_io::items::split;
use std::alloc::Global;

// The longest text that is made of a part many times.
const MOST_BYTES: usize = 4_000_000;

// The place of the bytes that go, how many they are, and the bytes that come in their place.
#[derive(Clone, Copy)]
pub struct Change<'a> {
    place: usize,
    gone: usize,
    come: &'a [u64],
}

// How often a part stands in a text, the front before it, and the tail behind it.
#[derive(Clone, Copy)]
pub struct Grown<'a> {
    times: usize,
    front: &'a [u64],
    part: &'a [u64],
    tail: &'a [u64],
}

impl<'a> TryFrom<&'a [u64]> for Change<'a> {
    type Error = Fault;

    fn try_from(numbers: &'a [u64]) -> Result<Change<'a>, Fault> {
        match numbers {
            [place, gone, come @ ..] => Ok(Change {
                place: *place as usize,
                gone: *gone as usize,
                come,
            }),
            _ => Err(Fault::BadInput),
        }
    }
}

impl Change<'_> {
    // The text that it makes of another.
    pub fn made(&self, alloc: Global, base: &[u8]) -> Result<Vec<u8>, Fault> {
        let (before, rest) = split(base, self.place)?;
        let (_, behind) = split(rest, self.gone)?;
        let mut text = before.to_vec(alloc)?;
        text.extend_from_slice(&bytes::of_numbers(alloc, self.come)?)?;
        text.extend_from_slice(behind)?;
        Ok(text)
    }
}

impl<'a> TryFrom<&'a [u64]> for Grown<'a> {
    type Error = Fault;

    // Of how often its part stands in it, the lengths of its front and of that part, and the bytes of all three.
    fn try_from(numbers: &'a [u64]) -> Result<Grown<'a>, Fault> {
        let [times, front, part, bytes @ ..] = numbers else {
            return Err(Fault::BadInput);
        };
        let (front, rest) = split(bytes, *front as usize)?;
        let (part, tail) = split(rest, *part as usize)?;
        Ok(Grown {
            times: *times as usize,
            front,
            part,
            tail,
        })
    }
}

impl Grown<'_> {
    // How long it is, where it is no longer than the longest text.
    fn length(&self) -> Option<usize> {
        let rest = self.front.len().saturating_add(self.tail.len());
        let parts = self.times.saturating_mul(self.part.len());
        let length = parts.saturating_add(rest);
        (length <= MOST_BYTES).then_some(length)
    }

    // The text, in the room that it takes: all its parts together are not made beside it. A part of no bytes, which may stand in it any number
    // of times, is put no more often than the longest text has bytes.
    pub fn made(&self, alloc: Global) -> Result<Vec<u8>, Fault> {
        let length = self.length().ok_or(Fault::BadInput)?;
        let part = bytes::of_numbers(alloc, self.part)?;
        let mut text = Vec::with_capacity(alloc, length)?;
        text.extend_from_slice(&bytes::of_numbers(alloc, self.front)?)?;
        for _ in 0..self.times.min(MOST_BYTES) {
            text.extend_from_slice(&part)?;
        }
        text.extend_from_slice(&bytes::of_numbers(alloc, self.tail)?)?;
        Ok(text)
    }
}
