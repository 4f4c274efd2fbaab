// Plays test vectors: items from standard input (openings, states, calls), and on standard output what the day book answers and
// leaves. Orders are made in the struct form, each with its tests alone before it. `scripts/vector_text.py` writes the items, and
// what is to be printed.
#![tactic(auto)]

mod call_items;
mod kept;
mod order_items;

use call_items::Call;
use day_items::given;
use day_items::given::{Given, Lengths};
use day_items::replay::{Caller, Replay};
use day_items::session::Session;
use program_io::fault::Fault;
use program_io::items::Item;
use program_io::player;
use program_io::rows::Row;
use std::io;
use std::io::{Input, Print, Write};

// The longest book, that of the most accounts, and more prices than a day has.
const MOST_ACCOUNTS: usize = 64;

const MOST_BOOK: usize = MOST_ACCOUNTS * layout::MOST_WIDTH;

const MOST_PRICES: usize = layout::MOST_COMPONENTS + 100;

// Whether calls go on from what those before them left, or each is made on the state anew. An earlier item says which, so that a
// value keeps it: a closure would be a boxed one.
#[derive(Default, Drop)]
enum Calls {
    #[default]
    InOrder,
    Anew,
}

// The whole book and prices.
fn show<W: Write>(session: &Session, out: &mut W) -> io::Result<()> {
    writeln!(out, "book{}", Row(&session.book))?;
    writeln!(out, "prices{}", Row(&session.prices))
}

impl Calls {
    fn make<W: Write>(&self, session: &mut Session, call: Call, out: &mut W) -> Result<(), Fault> {
        let kept = call.make(session, out)?;
        match self {
            Calls::InOrder => Ok(()),
            Calls::Anew => Ok(kept::put_back(kept, session, out)?),
        }
    }
}

impl Caller for Calls {
    const MOST_NUMBERS: usize = given::HEAD
        + flags::TABLE_WIDTH
        + layout::BASKET_WIDTH
        + MOST_BOOK
        + MOST_PRICES;

    const MOST_GIVEN: usize = Self::MOST_NUMBERS;

    const LONGEST: Lengths = Lengths {
        book: MOST_BOOK,
        prices: MOST_PRICES,
    };

    fn obey<W: Write>(
        &mut self,
        session: &mut Session,
        item: &Item,
        out: &mut W,
    ) -> Result<(), Fault> {
        match item.tag {
            2 => {
                *self = Calls::Anew;
                session.set(&Given::try_from(item)?, out)
            }
            9 if given::TABLE_NUMBERS + item.numbers.len() <= Self::MOST_NUMBERS => {
                Ok(show(session, out)?)
            }
            _ => self.make(session, Call::try_from(item)?, out),
        }
    }
}

// Plays standard input, from the blank day on.
pub fn play<R: Input + Print + AllocGlobal>(rt: &R) -> Result<(), Fault> {
    player::run::<Replay<Calls>, R>(rt)
}

// The same for a caller that has no use for a failure: this form cannot fail, as it could not while it asked for no memory.
// What ended the run early is left out.
pub fn run<R: Input + Print + AllocGlobal>(rt: &R) {
    let _ = play(rt);
}

#[cfg(test)]
mod tests {
    use super::*;
    use std::test::Fail;

    // The sign and the size of cash, and the lengths of a book and of prices.
    #[test]
    fn heads_in_range(rt: HostRuntime) -> Result<(), Fail> {
        for (cash, lengths, is_read) in [
            ("0 2", "18 1", true),
            ("1 0", "18 1", true),
            ("2 0", "18 1", false),
            ("0 9223372036854775807", "18 1", true),
            ("0 9223372036854775808", "18 1", false),
            ("1 9223372036854775807", "18 1", true),
            ("1 9223372036854775808", "18 1", false),
            ("0 2", "57984 400", true),
            ("0 2", "57985 1", false),
            ("0 2", "18 401", false),
        ] {
            let item = format!(in rt.alloc();
                "1 21 1 2 1 510050 2 9524 1 {cash} 0 0 0 0 0 0 0 0 0 0 {lengths}"
            )?;
            let out = player::printed::<Replay<Calls>, _>(rt.alloc(), item.as_bytes())?;
            let want = if is_read {
                "row 1\nopening 1 0 0 0\nsame\n"
            } else {
                "bad input\n"
            };
            assert_eq!(rt; out.as_slice(), want.as_bytes(), "{cash}, {lengths}");
        }
        Ok(())
    }

    // The length of a flag table and one more, 0 where none is given: an opening may be lent any, a state has a whole one.
    #[test]
    fn tables_of_any_length(rt: HostRuntime) -> Result<(), Fail> {
        for (tag, length, table, want) in [
            (1, 0, 0, "row 1\nopening 1 0 0 0\nsame\n"),
            (1, 1, 0, "row 1\nopening 1 0 0 0\nsame\n"),
            (1, 71, 70, "row 1\nopening 1 0 0 0\nsame\n"),
            (1, 70, 69, "row 1\nopening 1 0 0 0\nsame\n"),
            (1, 72, 70, "bad input\n"),
            (2, 71, 70, "row 1\n"),
            (2, 70, 69, "bad input\n"),
            (2, 72, 71, "bad input\n"),
            (2, 1, 0, "bad input\n"),
            (2, 0, 0, "bad input\n"),
            (3, 71, 70, "row 1\n"),
            (3, 0, 0, "bad input\n"),
        ] {
            let head = "1 2 1 510050 2 9524 1 0 2 0 0 0 0 0 0 0 0";
            let numbers = " 0".repeat(rt.alloc(), table)?;
            let width = table + 21;
            let item = format!(in rt.alloc(); "{tag} {width} {head} {length} 0 0 0{numbers}")?;
            let out = player::printed::<Replay<Calls>, _>(rt.alloc(), item.as_bytes())?;
            assert_eq!(rt; out.as_slice(), want.as_bytes(), "{tag} {length} {table}");
        }
        Ok(())
    }

    // How many numbers a call has, and how long its lists are.
    #[test]
    fn calls_of_a_form(rt: HostRuntime) -> Result<(), Fail> {
        for (call, want) in [
            ("4 2 0 5", "price 5 0 0 0\nsame\n"),
            ("4 1 0", "bad input\n"),
            ("5 5 0 1 5 0 1", "trade 5 0 0 0\nsame\n"),
            ("5 6 0 1 5 0 1 0", "bad input\n"),
            (
                "6 5 1 2 2048 4096 4096",
                "test 5 0 0 0\ncreate 5 0 0 0\nrest same\nsame\n",
            ),
            ("6 5 1 2 2049 0 0", "bad input\n"),
            ("7 5 1 2 0 4097 0", "bad input\n"),
            ("7 5 1 2 0 0 4097", "bad input\n"),
            ("7 4 1 2 0 0", "bad input\n"),
            ("8 0", "value 5 0 0 0\nsame\n"),
            ("8 1 0", "bad input\n"),
            ("9 1 5", "book\nprices 7 8\n"),
            ("11 5 1 2 2049 4097 4097", "test-create 5 0 0 0\nsame\n"),
            ("12 5 1 2 2049 4097 4097", "test-redeem 5 0 0 0\nsame\n"),
            ("12 4 1 2 3 4", "bad input\n"),
            ("10 0", "bad input\n"),
        ] {
            let head = "2 93 1 2 1 510050 2 9524 1 0 2 0 0 0 0 0 0 0 0 71 0 0 2";
            let table = " 0".repeat(rt.alloc(), 70)?;
            let input = format!(in rt.alloc(); "{head}{table} 7 8\n{call}\n")?;
            let out = player::printed::<Replay<Calls>, _>(rt.alloc(), input.as_bytes())?;
            let printed = format!(in rt.alloc(); "row 1\n{want}")?;
            assert_eq!(rt; out.as_slice(), printed.as_bytes(), "{call}");
        }
        Ok(())
    }

    #[test]
    fn items_in_room(rt: HostRuntime) -> Result<(), Fail> {
        for (length, want) in [(60_204, "book\nprices\n"), (60_205, "bad input\n")] {
            let numbers = " 0".repeat(rt.alloc(), length)?;
            let item = format!(in rt.alloc(); "9 {length}{numbers}")?;
            let out = player::printed::<Replay<Calls>, _>(rt.alloc(), item.as_bytes())?;
            assert_eq!(rt; out.as_slice(), want.as_bytes(), "{length}");
        }
        Ok(())
    }

    // How many numbers an opening has behind its head and its flag table. A state has no more than its three lengths give.
    #[test]
    fn openings_in_room(rt: HostRuntime) -> Result<(), Fail> {
        for (length, table, behind, is_read) in [
            (0, 0, 60_184, true),
            (0, 0, 60_185, false),
            (1, 0, 60_184, true),
            (1, 0, 60_185, false),
            (71, 70, 60_184, true),
            (71, 70, 60_185, false),
        ] {
            let width = table + behind + 21;
            let numbers = " 0".repeat(rt.alloc(), table + behind)?;
            let head = "1 2 1 510050 2 9524 1 0 2 0 0 0 0 0 0 0 0";
            let item = format!(in rt.alloc(); "1 {width} {head} {length} 0 0 0{numbers}")?;
            let out = player::printed::<Replay<Calls>, _>(rt.alloc(), item.as_bytes())?;
            let want = if is_read {
                "row 1\nopening 1 0 0 0\nsame\n"
            } else {
                "bad input\n"
            };
            assert_eq!(rt; out.as_slice(), want.as_bytes(), "{length}, {behind}");
        }
        Ok(())
    }

    #[test]
    fn states_in_room(rt: HostRuntime) -> Result<(), Fail> {
        for (tag, prices, want) in [
            (2, 400, "row 1\n"),
            (2, 401, "bad input\n"),
            (3, 400, "row 1\n"),
            (3, 401, "bad input\n"),
        ] {
            let behind = 1800 + 57_984 + prices;
            let width = behind + 91;
            let numbers = " 0".repeat(rt.alloc(), behind + 70)?;
            let head = "1 2 1 510050 2 9524 1 0 2 0 0 0 0 0 0 0 0 71 1800 57984";
            let item = format!(in rt.alloc(); "{tag} {width} {head} {prices}{numbers}")?;
            let out = player::printed::<Replay<Calls>, _>(rt.alloc(), item.as_bytes())?;
            assert_eq!(rt; out.as_slice(), want.as_bytes(), "{tag}, {prices}");
        }
        Ok(())
    }
}
