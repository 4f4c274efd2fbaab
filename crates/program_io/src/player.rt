// Plays the items of an input.
use crate::fault::Fault;
use crate::items::{Item, Items};
use std::alloc::{AllocError, Global};
use std::io;
use std::io::{BufWriter, Input, Print, Read, Write};

pub trait Player: Drop {
    // The most numbers that an item may have.
    const MOST_NUMBERS: usize;

    // As it is before the first item.
    fn new(alloc: Global) -> Result<Self, AllocError>;

    // Does what an item says, and prints what comes of it.
    fn obey<W: Write>(&mut self, item: &Item, out: &mut W) -> Result<(), Fault>;
}

// Obeys items to the last, or to the first that is malformed. `take` makes the turns finite; no input has as many items.
fn obey_all<P: Player, R: Read + Drop, W: Write>(
    player: &mut P,
    items: Items<R>,
    out: &mut W,
) -> Result<(), Fault> {
    for item in items.take(usize::MAX) {
        player.obey(&item?, out)?;
    }
    Ok(())
}

// Plays an input; what is malformed ends it with a line `bad input`. An output that cannot be written ends it too, and that is no
// fault of the program.
pub fn play<P: Player, R: Read + Drop, W: Write + Drop>(
    alloc: Global,
    input: R,
    output: W,
) -> Result<(), Fault> {
    let mut player = P::new(alloc)?;
    let items = Items::new(alloc, input, P::MOST_NUMBERS)?;
    let mut out = BufWriter::new(alloc, output)?;
    let ended = match obey_all(&mut player, items, &mut out) {
        Err(fault @ Fault::Memory(_)) => Err(fault),
        Err(fault @ Fault::BadInput) => {
            let _ = writeln!(out, "{fault}");
            Ok(())
        }
        Ok(()) | Err(Fault::Io(_)) => Ok(()),
    };
    let _ = out.flush();
    ended
}

// Plays standard input.
pub fn run<P: Player, R: Input + Print + AllocGlobal>(rt: &R) -> Result<(), Fault> {
    play::<P, _, _>(rt.alloc(), rt.reader(), io::writer(rt))
}

// What is printed of an input. For the tests of programs too, which do not see what a library has for its own tests alone.
pub fn printed<P: Player, R: Read + Drop>(alloc: Global, input: R) -> Result<Vec<u8>, Fault> {
    let mut out = Vec::new(alloc);
    play::<P, _, _>(alloc, input, &mut out)?;
    Ok(out)
}

#[cfg(test)]
mod tests {
    use super::*;
    use crate::rows::Row;
    use std::io::Error;
    use std::test::Fail;

    // Prints each item.
    #[derive(Drop)]
    struct Echo;

    impl Player for Echo {
        const MOST_NUMBERS: usize = 3;

        fn new(_: Global) -> Result<Echo, AllocError> {
            Ok(Echo)
        }

        fn obey<W: Write>(&mut self, item: &Item, out: &mut W) -> Result<(), Fault> {
            Ok(writeln!(out, "{}{}", item.tag, Row(&item.numbers))?)
        }
    }

    // Fails where it is read or written. The tests of `slips`, which uses nothing of this crate, have the same.
    #[derive(Drop)]
    struct Broken;

    impl Read for Broken {
        fn read(&mut self, _: &mut [u8]) -> io::Result<usize> {
            Err(Error::other("broken"))
        }
    }

    impl Write for Broken {
        fn write(&mut self, _: &[u8]) -> io::Result<usize> {
            Err(Error::other("broken"))
        }

        fn flush(&mut self) -> io::Result<()> {
            Ok(())
        }
    }

    #[test]
    fn reads_items(rt: HostRuntime) -> Result<(), Fail> {
        for (input, want) in [
            ("", ""),
            (" \n\n ", ""),
            ("9 0", "9\n"),
            ("\n09  00 \n8 1\n7", "9\n8 7\n"),
            ("18446744073709551615 0", "18446744073709551615\n"),
            ("4 3 1 2 3 9 0", "4 1 2 3\n9\n"),
        ] {
            let out = printed::<Echo, _>(rt.alloc(), input.as_bytes())?;
            assert_eq!(rt; out.as_slice(), want.as_bytes(), "{input}");
        }
        Ok(())
    }

    #[test]
    fn ends_at_bad_input(rt: HostRuntime) -> Result<(), Fail> {
        for input in [
            "9",
            "x 0",
            "9x 0",
            "9 x",
            "9 0x",
            "4 1 x",
            "+9 0",
            "-9 0",
            "9 -0",
            "9\t0",
            "9 0\r\n",
            "9\u{a0}0",
            "18446744073709551616 0",
            "9 18446744073709551616",
            "9 18446744073709551615",
            "4 4 1 2 3 4",
            "4 2 1",
            "4 2",
        ] {
            let out = printed::<Echo, _>(rt.alloc(), "8 0\n".as_bytes().chain(input.as_bytes()))?;
            assert_eq!(rt; out.as_slice(), b"8\nbad input\n".as_slice(), "{input}");
        }
        Ok(())
    }

    #[test]
    fn ends_at_a_broken_input(rt: HostRuntime) -> Result<(), Fail> {
        let out = printed::<Echo, _>(rt.alloc(), "8 0 4 1 2".as_bytes().chain(Broken))?;
        assert_eq!(rt; out.as_slice(), b"8\n4 2\n".as_slice());
        Ok(())
    }

    #[test]
    fn ends_at_a_broken_output(rt: HostRuntime) -> Result<(), Fail> {
        Ok(play::<Echo, _, _>(rt.alloc(), "8 0".as_bytes(), Broken)?)
    }
}
