// Plays list texts: items from standard input (texts to read, lists to write), and on standard output what reading and writing
// answer and leave. `scripts/text_vectors.py` writes the items, and what is to be printed.
#![tactic(auto)]

mod head;
mod lists;
mod read_text;
mod texts;

use head::Head;
use lists::List;
use program_io::fault::Fault;
use program_io::items::Item;
use program_io::player;
use program_io::player::Player;
use std::alloc::{AllocError, Global};
use std::io::{Input, Print, Write};
use text_parts::bytes;
use text_parts::made::{Change, Grown};
use texts::Asking;

// More numbers of components than a list has, and the longest text that is given whole or written.
const MOST_RUN: usize = layout::BASKET_WIDTH + 600;

const MOST_BYTES: usize = 20_000;

// The most numbers of an item, a flag table and the number that says its length aside.
const MOST_ITEM: usize = MOST_BYTES + 100;

#[derive(Drop)]
struct Replay {
    alloc: Global,
    // The last text that was given whole.
    base: Vec<u8>,
}

impl Replay {
    // Takes a text that is given whole.
    fn take(&mut self, numbers: &[u64]) -> Result<(), Fault> {
        if MOST_BYTES < numbers.len() {
            return Err(Fault::BadInput);
        }
        self.base = bytes::of_numbers(self.alloc, numbers)?;
        Ok(())
    }
}

impl Player for Replay {
    // With a whole flag table and its length; `Head` tests the other numbers of an item that has them.
    const MOST_NUMBERS: usize = MOST_ITEM + 1 + flags::TABLE_WIDTH;

    fn new(alloc: Global) -> Result<Replay, AllocError> {
        let base = Vec::new(alloc);
        Ok(Replay { alloc, base })
    }

    fn obey<W: Write>(&mut self, item: &Item, out: &mut W) -> Result<(), Fault> {
        let alloc = self.alloc;
        match (item.tag, item.numbers.as_slice()) {
            // A text that is given whole.
            (1, numbers) => {
                let (head, bytes) = Head::split(numbers)?;
                self.take(bytes)?;
                texts::read(alloc, head, &self.base, out)
            }
            (2, numbers) => {
                let (head, change) = Head::split(numbers)?;
                let text = Change::try_from(change)?.made(alloc, &self.base)?;
                texts::read(alloc, head, &text, out)
            }
            (3, numbers) => {
                let (head, grown) = Head::split(numbers)?;
                let text = Grown::try_from(grown)?.made(alloc)?;
                texts::read(alloc, head, &text, out)
            }
            // A text of which only the letters and one component's name are asked for.
            (4, [row, component, change @ ..]) if item.numbers.len() <= MOST_ITEM => {
                let text = Change::try_from(change)?.made(alloc, &self.base)?;
                Ok(Asking::new(*row, *component).print(&text, out)?)
            }
            (5, numbers) => List::new(alloc, numbers)?.write(alloc, out),
            _ => Err(Fault::BadInput),
        }
    }
}

// Plays standard input.
pub fn play<R: Input + Print + AllocGlobal>(rt: &R) -> Result<(), Fault> {
    player::run::<Replay, R>(rt)
}

// The same for a caller that has no use for a failure: this form cannot fail, as it could not while it asked for no memory.
// What ended the run early is left out.
pub fn run<R: Input + Print + AllocGlobal>(rt: &R) {
    let _ = play(rt);
}

#[cfg(test)]
mod tests {
    use super::*;
    use std::test::Fail;

    const REFUSED: &str = "row 1\nread 18 0 0\nsame\n";

    // Behind a text of three bytes that is given whole.
    #[test]
    fn texts_of_a_form(rt: HostRuntime) -> Result<(), Fail> {
        for (item, want) in [
            ("1 2 1 6", "bad input\n"),
            ("1 3 1 2400 0", REFUSED),
            ("1 3 1 2401 0", "bad input\n"),
            ("2 7 1 6 0 1 1 68 69", REFUSED),
            ("2 5 1 6 0 3 0", REFUSED),
            ("2 5 1 6 0 4 0", "bad input\n"),
            ("2 5 1 6 0 2 2", "bad input\n"),
            ("2 4 1 6 0 0", "bad input\n"),
            ("3 9 1 6 0 2 1 1 65 66 67", REFUSED),
            ("3 7 1 6 0 4000000 0 1 65", REFUSED),
            ("3 7 1 6 0 4000001 0 1 65", "bad input\n"),
            ("3 6 1 6 0 1 1 0", "bad input\n"),
            ("3 5 1 6 0 1 0", "bad input\n"),
            ("4 4 1 0 0 0", "row 1\nletters\nname\n"),
            ("4 4 1 0 4 0", "bad input\n"),
            ("6 0", "bad input\n"),
        ] {
            let input = format!(in rt.alloc(); "1 6 1 6 0 65 66 67\n{item}\n")?;
            let out = player::printed::<Replay, _>(rt.alloc(), input.as_bytes())?;
            let printed = format!(in rt.alloc(); "{REFUSED}{want}")?;
            assert_eq!(rt; out.as_slice(), printed.as_bytes(), "{item}");
        }
        Ok(())
    }

    // The length of the flag table, which is no one or ten rows of seven, and its first number. No text stands behind it.
    #[test]
    fn tables_of_a_form(rt: HostRuntime) -> Result<(), Fail> {
        for (length, first, want) in [
            (70, 0, REFUSED),
            (70, 1, REFUSED),
            (70, 2, "row 1\nread 21 0 0\nsame\n"),
            (69, 0, "bad input\n"),
            (71, 0, "bad input\n"),
            (1, 0, "bad input\n"),
        ] {
            let numbers = " 0".repeat(rt.alloc(), length - 1)?;
            let width = length + 3;
            let item = format!(in rt.alloc(); "1 {width} 1 6 {length} {first}{numbers}")?;
            let out = player::printed::<Replay, _>(rt.alloc(), item.as_bytes())?;
            assert_eq!(rt; out.as_slice(), want.as_bytes(), "{length} {first}");
        }
        Ok(())
    }

    // How many bytes a change and a grown text give, with no flag table and with one.
    #[test]
    fn bytes_in_room(rt: HostRuntime) -> Result<(), Fail> {
        for (tag, table, made, places, bytes, want) in [
            (2, 0, "0 0", 2, 20_096, REFUSED),
            (2, 0, "0 0", 2, 20_097, "bad input\n"),
            (2, 70, "0 0", 2, 20_096, REFUSED),
            (2, 70, "0 0", 2, 20_097, "bad input\n"),
            (3, 0, "1 0 0", 3, 20_095, REFUSED),
            (3, 0, "1 0 0", 3, 20_096, "bad input\n"),
            (3, 70, "1 0 0", 3, 20_095, REFUSED),
            (3, 70, "1 0 0", 3, 20_096, "bad input\n"),
        ] {
            let width = table + places + bytes + 3;
            let zeros = " 0".repeat(rt.alloc(), table)?;
            let numbers = " 65".repeat(rt.alloc(), bytes)?;
            let item = format!(in rt.alloc(); "{tag} {width} 1 6 {table}{zeros} {made}{numbers}")?;
            let out = player::printed::<Replay, _>(rt.alloc(), item.as_bytes())?;
            assert_eq!(rt; out.as_slice(), want.as_bytes(), "{tag} {table} {bytes}");
        }
        Ok(())
    }

    // The bytes of a change of which the letters and a name alone are asked for: no table stands in it.
    #[test]
    fn parts_in_room(rt: HostRuntime) -> Result<(), Fail> {
        for (bytes, want) in [(20_096, "row 1\nletters\nname\n"), (20_097, "bad input\n")] {
            let width = bytes + 4;
            let numbers = " 65".repeat(rt.alloc(), bytes)?;
            let item = format!(in rt.alloc(); "4 {width} 1 0 0 0{numbers}")?;
            let out = player::printed::<Replay, _>(rt.alloc(), item.as_bytes())?;
            assert_eq!(rt; out.as_slice(), want.as_bytes(), "{bytes}");
        }
        Ok(())
    }

    // The components of a list with a flag table.
    #[test]
    fn tables_in_room(rt: HostRuntime) -> Result<(), Fail> {
        for (components, want) in [
            (20_074, "row 1\nwrite 1 0 0\nsame\n"),
            (20_075, "bad input\n"),
        ] {
            let width = components + 97;
            let zeros = " 0".repeat(rt.alloc(), 70)?;
            let numbers = " 0".repeat(rt.alloc(), components + 22)?;
            let item = format!(in rt.alloc(); "5 {width} 1 0 70{zeros} {components} 0{numbers}")?;
            let out = player::printed::<Replay, _>(rt.alloc(), item.as_bytes())?;
            assert_eq!(rt; out.as_slice(), want.as_bytes(), "{components}");
        }
        Ok(())
    }

    // The lengths of the output, of components, names and letters. A list with no component is refused.
    #[test]
    fn lists_in_room(rt: HostRuntime) -> Result<(), Fail> {
        for (output, components, names, letters, is_read) in [
            (20_000, 0, 0, 0, true),
            (20_001, 0, 0, 0, false),
            (0, 20_074, 0, 0, true),
            (0, 20_075, 0, 0, false),
            (0, 0, 3_000, 0, true),
            (0, 0, 3_001, 0, false),
            (0, 0, 0, 100, true),
            (0, 0, 0, 101, false),
        ] {
            let width = 22 + components + names + letters;
            let numbers = " 0".repeat(rt.alloc(), width)?;
            let length = width + 5;
            let item = format!(in rt.alloc();
                "5 {length} 1 {output} 0 {components} {names}{numbers}"
            )?;
            let out = player::printed::<Replay, _>(rt.alloc(), item.as_bytes())?;
            let want = if is_read {
                "row 1\nwrite 1 0 0\nsame\n"
            } else {
                "bad input\n"
            };
            assert_eq!(rt;
                out.as_slice(),
                want.as_bytes(),
                "{output} {components} {names} {letters}"
            );
        }
        Ok(())
    }

    #[test]
    fn whole_texts_in_room(rt: HostRuntime) -> Result<(), Fail> {
        for (length, want) in [(20_000, REFUSED), (20_001, "bad input\n")] {
            let numbers = " 65".repeat(rt.alloc(), length)?;
            let width = length + 3;
            let item = format!(in rt.alloc(); "1 {width} 1 6 0{numbers}")?;
            let out = player::printed::<Replay, _>(rt.alloc(), item.as_bytes())?;
            assert_eq!(rt; out.as_slice(), want.as_bytes(), "{length}");
        }
        Ok(())
    }
}
