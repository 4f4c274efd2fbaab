// Orders in the struct form, each with its tests alone before it. The records that are lent hold marks, and are printed as numbers.
use answers::Numbers;
use day_items::lists::{ListLengths, OwnedLists};
use day_items::replies;
use day_items::session::Session;
use layout::Record;
use program_io::fault::Fault;
use program_io::rows::Row;
use program_io::{changes, marks};
use rules::{Ask, Counts, Kind, Refusal};
use std::alloc::{AllocError, Global};
use std::io;
use std::io::Write;

// How long a list of records may be lent, and one of reports.
const MOST_RECORDS: usize = 2048;

const MOST_REPORTS: usize = 4096;

// What an order asks, and the lengths of the lists that it is lent.
#[derive(Clone, Copy)]
pub struct Order {
    ask: Ask,
    lengths: ListLengths,
}

// The records of a flat list. Here and where they are put back each chunk is one record, at its own place 0: no index is counted.
fn records_of(alloc: Global, flat: &[u64]) -> Result<Vec<Record>, AllocError> {
    flat.chunks_exact(layout::RECORD_WIDTH)
        .map(|numbers| layout::record_at(numbers, 0))
        .collect(alloc)
}

fn put_records(flat: &mut [u64], records: &[Record]) {
    for (numbers, record) in flat
        .chunks_exact_mut(layout::RECORD_WIDTH)
        .zip(records.iter())
    {
        layout::put_record(numbers, 0, *record);
    }
}

// Each list with its word, and how many of its numbers so many records and reports take: an order that is accepted has room for them,
// but no contract of a program says so, and `saturating_mul` and `min` stand for it.
fn ends(lists: &OwnedLists, counts: Counts) -> [(&'static str, &[u64], usize); 3] {
    let records = counts.records.saturating_mul(layout::RECORD_WIDTH);
    let reports = counts.reports.saturating_mul(layout::REPORT_WIDTH);
    [
        ("records", lists.records.as_slice(), records),
        ("investor", lists.investor.as_slice(), reports),
        ("fund_reports", lists.fund.as_slice(), reports),
    ]
}

// `rest same` where the lists hold their marks behind so many records and reports, and for each that does not the first such place.
fn print_rest<W: Write>(lists: &OwnedLists, counts: Counts, out: &mut W) -> io::Result<()> {
    let places = ends(lists, counts).map(|(word, list, end)| (
        word,
        marks::first_marred(list, end),
    ));
    changes::print(out, "rest same", &places)
}

// What an accepted order wrote: so many records, and so many reports to each party.
fn print_written<W: Write>(lists: &OwnedLists, counts: Counts, out: &mut W) -> io::Result<()> {
    for (word, list, end) in ends(lists, counts) {
        let written = &list[..end.min(list.len())];
        writeln!(out, "{word}{}", Row(written))?;
    }
    print_rest(lists, counts, out)
}

// The lists after an order; where it was refused, whether they are what they were.
fn print_lists<W: Write>(
    lists: &OwnedLists,
    answer: Result<Counts, Refusal>,
    out: &mut W,
) -> io::Result<()> {
    match answer {
        Ok(counts) => print_written(lists, counts, out),
        Err(_) => print_rest(lists, Counts::default(), out),
    }
}

impl Order {
    // The numbers of an order: account, units, and the lengths of its lists.
    pub fn new(kind: Kind, numbers: &[u64]) -> Result<Order, Fault> {
        let [account, units, records, investor, fund] = numbers else {
            return Err(Fault::BadInput);
        };
        Ok(Order {
            ask: kind.ask(*account as usize, *units),
            lengths: ListLengths::new(*records, *investor, *fund),
        })
    }

    // The same, with lists that there is room for.
    pub fn with_room(kind: Kind, numbers: &[u64]) -> Result<Order, Fault> {
        let order = Order::new(kind, numbers)?;
        if order.lengths.is_within(MOST_RECORDS, MOST_REPORTS) {
            Ok(order)
        } else {
            Err(Fault::BadInput)
        }
    }

    // No `Display` of `Kind`: these are this program's words.
    pub fn name(&self) -> &'static str {
        match self.ask.kind {
            Kind::Creation => "create",
            Kind::Redemption => "redeem",
        }
    }

    // What its tests alone answer, by the paper's two calls, so that the program runs both.
    pub fn tested(&self, session: &Session) -> Result<Counts, Refusal> {
        let (day, book, prices) = (&session.day, &session.book, &session.prices);
        let lengths = self.lengths;
        let rooms = rules::rooms_of(lengths.records, lengths.investor, lengths.fund);
        let Ask {
            kind,
            account,
            units,
        } = self.ask;
        match kind {
            Kind::Creation => day::creation_test(day, book, prices, account, units, rooms),
            Kind::Redemption => day::redemption_test(day, book, prices, account, units, rooms),
        }
    }

    // The tests alone, and then the order. Whether it was refused.
    pub fn make<W: Write>(&self, session: &mut Session, out: &mut W) -> Result<bool, Fault> {
        let mut lists = OwnedLists::marked(session.alloc, self.lengths)?;
        replies::print(out, "test", Numbers::from(self.tested(session)))?;
        let mut records = records_of(session.alloc, &lists.records)?;
        let answer = order_structs::order(
            &session.day,
            &mut session.book,
            &session.prices,
            self.ask,
            &mut records,
            &mut lists.investor,
            &mut lists.fund,
        );
        put_records(&mut lists.records, &records);
        replies::print(out, self.name(), Numbers::from(answer))?;
        print_lists(&lists, answer, out)?;
        Ok(answer.is_err())
    }
}
