// The runs that the driver writes, and how they are printed and compared.
use day_items::lists::{ListLengths, OwnedLists};
use day_items::session::{Kept, Session};
use driver_rows::Work;
use program_io::fault::Fault;
use program_io::items::Item;
use program_io::rows::Row;
use program_io::{changes, marks};
use rules::Refusal;
use std::alloc::{AllocError, Global};
use std::io;
use std::io::Write;

// The longest runs of records, of reports to one party, and of answers.
const MOST_RECORDS: usize = 10_000;

const MOST_REPORTS: usize = 10_000;

const MOST_ANSWERS: usize = 400;

// A batch: how long the lists of its orders and the run of answers are, and the rows.
#[derive(Clone, Copy)]
pub struct Batch<'a> {
    lengths: ListLengths,
    answers: usize,
    rows: &'a [u64],
}

impl<'a> Batch<'a> {
    // This batch, where there is room for its runs.
    fn in_room(self) -> Result<Batch<'a>, Fault> {
        if self.lengths.is_within(MOST_RECORDS, MOST_REPORTS) && self.answers <= MOST_ANSWERS {
            Ok(self)
        } else {
            Err(Fault::BadInput)
        }
    }
}

impl<'a> TryFrom<&'a Item> for Batch<'a> {
    type Error = Fault;

    fn try_from(item: &'a Item) -> Result<Batch<'a>, Fault> {
        match (item.tag, item.numbers.as_slice()) {
            (10, [records, investor, fund, answers, rows @ ..]) => Batch {
                lengths: ListLengths::new(*records, *investor, *fund),
                answers: *answers as usize,
                rows,
            }
            .in_room(),
            _ => Err(Fault::BadInput),
        }
    }
}

#[derive(Drop)]
pub struct Lent {
    kept: Kept,
    lists: OwnedLists,
    answers: Vec<u64>,
}

impl Lent {
    // The book and the prices of a session, and runs that hold marks.
    pub fn new(session: &Session, batch: Batch<'_>) -> Result<Lent, AllocError> {
        let alloc = session.alloc;
        Ok(Lent {
            kept: Kept::new(session)?,
            lists: OwnedLists::marked(alloc, batch.lengths)?,
            answers: marks::marked(alloc, batch.answers)?,
        })
    }

    // Runs the rows on them by one of the driver's two functions.
    pub fn run<F: Fn(&[u64], &mut Work<'_>, &[u64], &mut [u64]) -> Result<(), Refusal>>(
        &mut self,
        day: &[u64],
        batch: Batch<'_>,
        run: F,
    ) -> Result<(), Refusal>
        requires { F.IsAlwaysCallable run }
    {
        let mut work = Work {
            book: &mut self.kept.book,
            prices: &mut self.kept.prices,
            records: &mut self.lists.records,
            investor: &mut self.lists.investor,
            fund: &mut self.lists.fund,
        };
        run(day, &mut work, batch.rows, &mut self.answers)
    }

    // Each run with its word.
    fn runs(&self) -> [(&'static str, &[u64]); 6] {
        [
            ("answers", self.answers.as_slice()),
            ("records", self.lists.records.as_slice()),
            ("investor", self.lists.investor.as_slice()),
            ("fund_reports", self.lists.fund.as_slice()),
            ("book", self.kept.book.as_slice()),
            ("prices", self.kept.prices.as_slice()),
        ]
    }

    pub fn print<W: Write>(&self, out: &mut W) -> io::Result<()> {
        for (word, run) in self.runs() {
            writeln!(out, "{word}{}", Row(run))?;
        }
        Ok(())
    }

    // `same`, or for each run that differs from another's the first such place.
    pub fn print_same<W: Write>(
        &self,
        alloc: Global,
        other: &Lent,
        out: &mut W,
    ) -> Result<(), Fault> {
        let places: Vec<(&str, Option<usize>)> = self
            .runs()
            .into_iter()
            .zip(other.runs())
            .map(|((word, run), (_, other))| (word, marks::first_difference(run, other)))
            .collect(alloc)?;
        Ok(changes::print(out, "same", &places)?)
    }

    // Leaves its book and prices to a session.
    pub fn leave(self, session: &mut Session) {
        let Lent { kept, .. } = self;
        kept.leave(session);
    }
}
