// Items of an input: a tag, how many numbers follow, and these. Numbers are unsigned, in base ten, with blanks or line ends between
// them.
ghost use Rattle.std.specs.Prelude.{◌≡◌, length, take, drop, IfOk};

use crate::fault::Fault;
use std::alloc::Global;
use std::io;
use std::io::{BufReader, Bytes, Read};

#[derive(Drop)]
pub struct Item {
    pub tag: u64,
    pub numbers: Vec<u64>,
}

// So many numbers or bytes of a run, and the rest; bad input where there are fewer.
pub fn split<T>(run: &[T], at: usize) -> Result<(&[T], &[T]), Fault>
    ensures front { IfOk result (λ parts. parts.0.now ≡ take at run.now) }
    ensures front_length { IfOk result (λ parts. length parts.0.now ≡ at) }
    ensures rest { IfOk result (λ parts. parts.1.now ≡ drop at run.now) }
{
    run.split_at_checked(at).ok_or(Fault::BadInput)
}

fn is_between(b: u8) -> bool {
    b == b' ' || b == b'\n'
}

// A number with one digit more; nothing where that is no digit, or the number is past 64 bits. Digit by digit: the bytes come from a
// reader, and are no text to parse.
fn with_digit(number: u64, b: u8) -> Option<u64> {
    let digit = char::from(b).to_digit(10)?;
    number.checked_mul(10)?.checked_add(u64::from(digit))
}

// The items of an input, each read when it is asked for. Where the input cannot be read it ends.
#[derive(Drop)]
pub struct Items<R: Read + Drop> {
    alloc: Global,
    bytes: Bytes<BufReader<R>>,
    // The most numbers that an item may have.
    most: usize,
}

impl<R: Read + Drop> Items<R> {
    pub fn new(alloc: Global, input: R, most: usize) -> io::Result<Items<R>> {
        let bytes = BufReader::new(alloc, input)?.bytes();
        Ok(Items { alloc, bytes, most })
    }

    // The next number, and nothing behind the last.
    fn next_number(&mut self) -> Result<Option<u64>, Fault> {
        let mut bytes = self.bytes.by_ref().map_while(Result::ok);
        let Some(first) = bytes.find(|b| !is_between(*b)) else {
            return Ok(None);
        };
        let number = with_digit(0, first).ok_or(Fault::BadInput)?;
        let mut rest = bytes.take_while(|b| !is_between(*b));
        let whole = rest.try_fold(number, with_digit).ok_or(Fault::BadInput)?;
        Ok(Some(whole))
    }

    fn number(&mut self) -> Result<u64, Fault> {
        self.next_number()?.ok_or(Fault::BadInput)
    }

    // What stands behind a tag.
    fn numbers(&mut self) -> Result<Vec<u64>, Fault> {
        let length = self.number()? as usize;
        if self.most < length {
            return Err(Fault::BadInput);
        }
        let alloc = self.alloc;
        (0..length).map(|_| self.number()).try_collect(alloc)
    }

    fn item(&mut self) -> Result<Option<Item>, Fault> {
        match self.next_number()? {
            Some(tag) => {
                let numbers = self.numbers()?;
                Ok(Some(Item { tag, numbers }))
            }
            None => Ok(None),
        }
    }
}

impl<R: Read + Drop> Iterator for Items<R> {
    type Item = Result<Item, Fault>;

    fn next(&mut self) -> Option<Result<Item, Fault>> {
        self.item().transpose()
    }
}
