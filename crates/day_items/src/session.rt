// The day, book and prices that calls are made on, and the items that give them.
ghost use Rattle.std.specs.Prelude.{◌≡◌, ◌+◌, ◌≤◌, length, IfOk};
ghost use Rattle.flags.specs.Table.{table_width};
ghost use Rattle.day_items.specs.declared.given.TheConstants.{HEAD};

use crate::given::{Given, Lengths};
use crate::{given, replies};
use answers::Numbers;
use layout::DayHead;
use program_io::fault::Fault;
use program_io::items::split;
use program_io::{changes, marks};
use rules::Refusal;
use std::alloc::{AllocError, Global};
use std::io;
use std::io::Write;

#[derive(Drop)]
pub struct Session {
    pub alloc: Global,
    pub day: Vec<u64>,
    pub book: Vec<u64>,
    pub prices: Vec<u64>,
    longest: Lengths,
    // The most numbers of an opening or a state with a whole flag table.
    most_numbers: usize,
}

// A book and prices of their own, copied from a session, so that calls leave its own as they were.
#[derive(Drop)]
pub struct Kept {
    pub book: Vec<u64>,
    pub prices: Vec<u64>,
}

impl Kept {
    pub fn new(session: &Session) -> Result<Kept, AllocError> {
        let book = session.book.clone()?;
        let prices = session.prices.clone()?;
        Ok(Kept { book, prices })
    }

    // Leaves them to a session as its own.
    pub fn leave(self, session: &mut Session) {
        let Kept { book, prices } = self;
        session.book = book;
        session.prices = prices;
    }
}

impl Session {
    // The blank day, with no book and no prices; an opening or a state may have any count of numbers.
    pub fn new(alloc: Global, longest: Lengths) -> Result<Session, AllocError>
        ensures { IfOk result (λ session. session.most_numbers ≡ usize.MAX) }
    {
        Session::with_most(alloc, longest, usize::MAX)
    }

    // The same where an opening or a state, with a whole flag table in place of its own, has no more numbers than that.
    pub fn with_most(
        alloc: Global,
        longest: Lengths,
        most_numbers: usize,
    ) -> Result<Session, AllocError>
        ensures { IfOk result (λ session. session.most_numbers ≡ most_numbers) }
    {
        Ok(Session {
            alloc,
            day: vec![in alloc; 0u64; layout::DAY_WIDTH]?,
            book: Vec::new(alloc),
            prices: Vec::new(alloc),
            longest,
            most_numbers,
        })
    }

    fn fits(&self, given: &Given<'_>) -> Result<(), Fault>
        ensures { IfOk result (λ _. HEAD + table_width + length given.now.components.now + length given.now.rest.now ≤ self.now.most_numbers) }
    {
        let numbers = given::HEAD + flags::TABLE_WIDTH + given.components.len() + given.rest.len();
        if self.most_numbers < numbers
            || self.longest.book < given.lengths.book
            || self.longest.prices < given.lengths.prices
        {
            return Err(Fault::BadInput);
        }
        Ok(())
    }

    // Gives each run marks.
    fn mark(&mut self, lengths: Lengths) -> Result<(), AllocError> {
        self.day = marks::marked(self.alloc, layout::DAY_WIDTH)?;
        self.book = marks::marked(self.alloc, lengths.book)?;
        self.prices = marks::marked(self.alloc, lengths.prices)?;
        Ok(())
    }

    // Opens on the runs as they are, with no flag table.
    fn open_without_table(&mut self, given: &Given<'_>) -> Result<(), Refusal> {
        day::open(
            given.accounts,
            given.count,
            given.fund,
            given.components,
            given.rest,
            &mut self.book,
            &mut self.prices,
            &mut self.day,
        )
    }

    // The same under a table.
    fn open_with_table(&mut self, given: &Given<'_>, table: &flags::Table) -> Result<(), Refusal> {
        day::open_with_table(
            given.accounts,
            given.count,
            given.fund,
            table,
            given.components,
            given.rest,
            &mut self.book,
            &mut self.prices,
            &mut self.day,
        )
    }

    // The same with a table's run, which may have any length.
    fn open_with_run(&mut self, given: &Given<'_>, table: &[u64]) -> Result<(), Refusal> {
        let head = DayHead {
            accounts: given.accounts,
            count: given.count,
            fund: given.fund,
        };
        let given = opening::Given {
            head,
            table,
            components: given.components,
            holdings: given.rest,
        };
        opening::open(given, &mut self.book, &mut self.prices, &mut self.day)
    }

    // Opens by a call for users where no table is given, or a whole one. Both calls go through `opening`, which alone can be lent a run
    // of another length.
    fn open_given(&mut self, given: &Given<'_>) -> Result<(), Refusal> {
        let Some(run) = given.table else {
            return self.open_without_table(given);
        };
        match flags::table_in(run) {
            Some(table) => self.open_with_table(given, table),
            None => self.open_with_run(given, run),
        }
    }

    // What a refused opening leaves: `same`, or for each run that differs the first such place.
    fn print_left<W: Write>(&self, out: &mut W) -> io::Result<()> {
        let places = [
            ("day", marks::first_marred(&self.day, 0)),
            ("book", marks::first_marred(&self.book, 0)),
            ("prices", marks::first_marred(&self.prices, 0)),
        ];
        changes::print(out, "same", &places)
    }

    // Opens on runs that hold marks. Behind a refused opening calls are made on the blank day.
    pub fn open<W: Write>(&mut self, given: &Given<'_>, out: &mut W) -> Result<(), Fault> {
        self.fits(given)?;
        self.mark(given.lengths)?;
        let answer = self.open_given(given);
        writeln!(out, "row {}", given.row)?;
        replies::print(out, "opening", Numbers::from(answer))?;
        if answer.is_err() {
            self.print_left(out)?;
            self.day.fill(0);
        }
        Ok(())
    }

    // Takes a state: the day with its flag table and zeros behind its components, the book and the prices.
    pub fn set<W: Write>(&mut self, given: &Given<'_>, out: &mut W) -> Result<(), Fault> {
        self.fits(given)?;
        let (book, prices) = split(given.rest, given.lengths.book)?;
        let table = given.table.ok_or(Fault::BadInput)?;
        if prices.len() != given.lengths.prices
            || table.len() != flags::TABLE_WIDTH
            || layout::BASKET_WIDTH < given.components.len()
        {
            return Err(Fault::BadInput);
        }
        let mut day = given.day.to_vec(self.alloc)?;
        day.extend_from_slice(table)?;
        day.extend_from_slice(given.components)?;
        day.resize(layout::DAY_WIDTH, 0)?;
        self.day = day;
        self.book = book.to_vec(self.alloc)?;
        self.prices = prices.to_vec(self.alloc)?;
        writeln!(out, "row {}", given.row)?;
        Ok(())
    }
}

#[cfg(test)]
mod tests {
    use super::*;
    use program_io::items::Item;
    use std::test::Fail;

    // An opening that is a head alone counts as 91 numbers, with a whole flag table. It is read, and refused with 1.
    #[test]
    fn counts_in_room(rt: HostRuntime) -> Result<(), Fail> {
        for (most_numbers, is_read) in [(None, true), (Some(91), true), (Some(90), false)] {
            let longest = Lengths { book: 0, prices: 0 };
            let mut session = match most_numbers {
                Some(most_numbers) => Session::with_most(rt.alloc(), longest, most_numbers)?,
                None => Session::new(rt.alloc(), longest)?,
            };
            let numbers = vec![in rt.alloc(); 0u64; 21]?;
            let item = Item { tag: 1, numbers };
            let mut out = Vec::new(rt.alloc());
            let opened = session.open(&Given::try_from(&item)?, &mut out);
            assert_eq!(rt; opened.is_ok(), is_read, "{most_numbers:?}");
            let want = if is_read {
                "row 0\nopening 1 0 0 0\nsame\n"
            } else {
                ""
            };
            assert_eq!(rt; out.as_slice(), want.as_bytes(), "{most_numbers:?}");
        }
        Ok(())
    }
}
