// Plays days through the driver: a day's calls are one list of rows, made by `driver::run` and once more, from the same book,
// prices, records, reports and answers, by `driver::run_public`. `scripts/batch_text.py` writes the items, and what is to be printed.
#![tactic(auto)]

mod lent;

use answers::Numbers;
use day_items::given::Lengths;
use day_items::replay::{Caller, Replay};
use day_items::session::Session;
use day_items::{given, replies};
use lent::{Batch, Lent};
use program_io::fault::Fault;
use program_io::items::Item;
use program_io::player;
use std::io::Write;

// The driver and, from the same start, the calls with a test each; whether they leave the same.
fn run_both<W: Write>(session: &mut Session, batch: Batch<'_>, out: &mut W) -> Result<(), Fault> {
    let mut left = Lent::new(session, batch)?;
    let mut other = Lent::new(session, batch)?;
    let driven = left.run(&session.day, batch, driver::run);
    let public = other.run(&session.day, batch, driver::run_public);
    replies::print(out, "run", Numbers::from(driven))?;
    left.print(out)?;
    replies::print(out, "public", Numbers::from(public))?;
    left.print_same(session.alloc, &other, out)?;
    left.leave(session);
    Ok(())
}

// Its items, beside openings and states, are batches.
#[derive(Default, Drop)]
struct Batches;

impl Caller for Batches {
    const MOST_NUMBERS: usize = 12_000 + given::TABLE_NUMBERS;

    const MOST_GIVEN: usize = Self::MOST_NUMBERS;

    const LONGEST: Lengths = Lengths {
        book: 12_000,
        prices: 400,
    };

    fn obey<W: Write>(
        &mut self,
        session: &mut Session,
        item: &Item,
        out: &mut W,
    ) -> Result<(), Fault> {
        if Self::MOST_NUMBERS < given::TABLE_NUMBERS + item.numbers.len() {
            return Err(Fault::BadInput);
        }
        run_both(session, Batch::try_from(item)?, out)
    }
}

// Plays standard input, from the blank day on.
fn main(rt: HostRuntime) -> Result<(), Fault> {
    player::run::<Replay<Batches>, _>(&rt)
}

#[cfg(test)]
mod tests {
    use super::*;
    use std::test::Fail;

    // The lengths of a book and of prices, and how many numbers the item has behind its head.
    #[test]
    fn openings_in_room(rt: HostRuntime) -> Result<(), Fail> {
        for (lengths, behind, is_read) in [
            ("12000 400", 0, true),
            ("12001 1", 0, false),
            ("18 401", 0, false),
            ("18 1", 11_980, true),
            ("18 1", 11_981, false),
        ] {
            let width = behind + 21;
            let numbers = " 0".repeat(rt.alloc(), behind)?;
            let head = "1 2 1 510050 2 9524 1 0 2 0 0 0 0 0 0 0 0 0 0";
            let item = format!(in rt.alloc(); "1 {width} {head} {lengths}{numbers}")?;
            let out = player::printed::<Replay<Batches>, _>(rt.alloc(), item.as_bytes())?;
            let want = if is_read {
                "row 1\nopening 1 0 0 0\nsame\n"
            } else {
                "bad input\n"
            };
            assert_eq!(rt; out.as_slice(), want.as_bytes(), "{lengths}, {behind}");
        }
        Ok(())
    }

    // The same with a flag table: an opening, and a state with a book as long as all that stands behind the table.
    #[test]
    fn tables_in_room(rt: HostRuntime) -> Result<(), Fail> {
        for (tag, behind, want) in [
            (1, 11_980, "row 1\nopening 1 0 0 0\nsame\n"),
            (1, 11_981, "bad input\n"),
            (3, 11_980, "row 1\n"),
            (3, 11_981, "bad input\n"),
        ] {
            let width = behind + 91;
            let numbers = " 0".repeat(rt.alloc(), behind + 70)?;
            let head = "1 2 1 510050 2 9524 1 0 2 0 0 0 0 0 0 0 0 71 0";
            let item = format!(in rt.alloc(); "{tag} {width} {head} {behind} 0{numbers}")?;
            let out = player::printed::<Replay<Batches>, _>(rt.alloc(), item.as_bytes())?;
            assert_eq!(rt; out.as_slice(), want.as_bytes(), "{tag}, {behind}");
        }
        Ok(())
    }

    #[test]
    fn rows_in_room(rt: HostRuntime) -> Result<(), Fail> {
        for (width, is_read) in [(12_000, true), (12_001, false)] {
            let numbers = " 0".repeat(rt.alloc(), width)?;
            let item = format!(in rt.alloc(); "10 {width}{numbers}")?;
            let out = player::printed::<Replay<Batches>, _>(rt.alloc(), item.as_bytes())?;
            let is_bad = out.as_slice() == b"bad input\n".as_slice();
            assert_eq!(rt; is_bad, !is_read, "{width}");
        }
        Ok(())
    }

    // The lengths of a batch's runs.
    #[test]
    fn batches_in_room(rt: HostRuntime) -> Result<(), Fail> {
        for (batch, is_read) in [
            ("10 4 10000 0 0 0", true),
            ("10 4 10001 0 0 0", false),
            ("10 4 0 10000 10000 0", true),
            ("10 4 0 10001 0 0", false),
            ("10 4 0 0 10001 0", false),
            ("10 4 0 0 0 400", true),
            ("10 4 0 0 0 401", false),
            ("10 3 0 0 0", false),
            ("2 0", false),
        ] {
            let out = player::printed::<Replay<Batches>, _>(rt.alloc(), batch.as_bytes())?;
            let is_bad = out.as_slice() == b"bad input\n".as_slice();
            assert_eq!(rt; is_bad, !is_read, "{batch}");
        }
        Ok(())
    }
}
