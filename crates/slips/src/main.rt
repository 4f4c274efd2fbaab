// Reads a list text on standard input, opens its day for the fund and one account, sets the prices, creates one basket and prints
// its records: code, side, quantity, price and amount. What turns it back is printed as `refused NUMBER PLACE`.
#![tactic(auto)]

mod fault;
mod given;
mod printed;

use fault::Fault;
use list_rules::ListFields;
use printed::Slip;
use rules::{Lists, Refusal};
use std::alloc::Global;
use std::io;
use std::io::{BufWriter, Read, Write};

// The fund, and the account that creates.
const ACCOUNTS: usize = 2;

const ACCOUNT: usize = 1;

// The longest text that is read.
const MOST_TEXT: usize = 1_048_576;

// The lengths of the lists that an order is lent: its records, and its reports to one party, which are not printed.
const RECORDS_LENGTH: usize = layout::RECORD_WIDTH * rules::MOST_RECORDS;

const REPORTS_LENGTH: usize = layout::REPORT_WIDTH * rules::MOST_REPORTS;

// A day that is open, with its book and its prices.
#[derive(Drop)]
struct Market {
    day: Vec<u64>,
    book: Vec<u64>,
    prices: Vec<u64>,
}

impl Market {
    // Sets the prices of those codes that have one, to the first that is refused.
    fn set_prices(&mut self, codes: &[u64]) -> Result<(), Refusal> {
        let Market { day, book, prices } = self;
        for (line, code) in codes.iter().enumerate() {
            if let Some(price) = given::price_of(*code) {
                day::price(day, book, prices, line, price)?;
            }
        }
        Ok(())
    }

    // Creates one basket, and prints its records. The tests alone never answer otherwise than the creation; a line says so if they do.
    fn create<W: Write>(&mut self, alloc: Global, units: u64, out: &mut W) -> Result<(), Fault> {
        let mut records = vec![in alloc; 0u64; RECORDS_LENGTH]?;
        let mut investor = vec![in alloc; 0u64; REPORTS_LENGTH]?;
        let mut fund = vec![in alloc; 0u64; REPORTS_LENGTH]?;
        let mut lists = Lists {
            records: &mut records,
            investor: &mut investor,
            fund: &mut fund,
        };
        let Market { day, book, prices } = self;
        let tested = day::creation_test(day, book, prices, ACCOUNT, units, lists.rooms());
        let answer = day::create(day, book, prices, ACCOUNT, units, &mut lists);
        if tested != answer {
            writeln!(out, "the tests alone answered otherwise")?;
        }
        let counts = answer?;
        // By chunks, each one record at its own place 0: no index is counted.
        for record in records
            .chunks_exact(layout::RECORD_WIDTH)
            .take(counts.records)
        {
            writeln!(out, "{}", Slip(layout::record_at(record, 0)))?;
        }
        Ok(())
    }
}

// Opens the day of a list for the fund and one account. A list that was read has no more components than there is room for; `min` stands
// for that, as no contract of a program says it.
fn open(
    alloc: Global,
    fields: ListFields,
    components: &[u64],
    codes: &[u64],
) -> Result<Market, Fault> {
    let count = fields.count.min(layout::MOST_COMPONENTS);
    let held = given::holdings(alloc, codes)?;
    let mut day = vec![in alloc; 0u64; layout::DAY_WIDTH]?;
    let mut book = vec![in alloc; 0u64; ACCOUNTS * layout::width_of(count)]?;
    let mut prices = vec![in alloc; 0u64; count]?;
    day::open(
        ACCOUNTS,
        count,
        fields.fund,
        components,
        &held,
        &mut book,
        &mut prices,
        &mut day,
    )?;
    Ok(Market { day, book, prices })
}

// The fields and the components of a list text, whose count is at most 300; `saturating_mul` stands for that.
fn read(alloc: Global, text: &[u8]) -> Result<(ListFields, Vec<u64>), Fault> {
    let mut components = vec![in alloc; 0u64; layout::BASKET_WIDTH]?;
    let list = list_reading::read(flags::our_table(), text, &mut components)?;
    components.truncate(layout::COMPONENT_WIDTH.saturating_mul(list.fields.count));
    Ok((list.fields, components))
}

// The slips of a list text.
fn play<W: Write>(alloc: Global, text: &[u8], out: &mut W) -> Result<(), Fault> {
    let (fields, components) = read(alloc, text)?;
    let codes = given::codes_of(alloc, &components)?;
    let mut market = open(alloc, fields, &components, &codes)?;
    market.set_prices(&codes)?;
    market.create(alloc, fields.fund.basket_size, out)
}

// There is room for the longest text, and for the byte that says that one is longer. Where the input cannot be read it ends.
fn play_input<R: Read + Drop, W: Write>(alloc: Global, input: R, out: &mut W) -> Result<(), Fault> {
    let mut text = Vec::with_capacity(alloc, MOST_TEXT + 1)?;
    let _ = input.take(MOST_TEXT as u64 + 1).read_to_end(&mut text);
    if MOST_TEXT < text.len() {
        return Err(Fault::TooLong);
    }
    play(alloc, &text, out)
}

// The slips of an input. An output that cannot be written ends the run, and that is no fault of the program.
fn run<R: Read + Drop, W: Write + Drop>(alloc: Global, input: R, output: W) -> Result<(), Fault> {
    let mut out = BufWriter::new(alloc, output)?;
    match play_input(alloc, input, &mut out) {
        Err(fault @ (Fault::TooLong | Fault::Refused(_))) => {
            let _ = writeln!(out, "{fault}");
        }
        Err(fault @ Fault::Memory(_)) => return Err(fault),
        Ok(()) | Err(Fault::Io(_)) => {}
    }
    let _ = out.flush();
    Ok(())
}

fn main(rt: HostRuntime) -> Result<(), Fault> {
    run(rt.alloc(), rt.reader(), io::writer(&rt))
}

#[cfg(test)]
mod tests {
    use super::*;
    use std::io::Error;
    use std::test::Fail;

    // Fails where it is read or written. The same stands in the tests of `program_io`: this program uses nothing of that crate, and
    // would have to name it for this alone.
    #[derive(Drop)]
    struct Broken;

    impl Read for Broken {
        fn read(&mut self, _: &mut [u8]) -> io::Result<usize> {
            Err(Error::other("broken"))
        }
    }

    impl Write for Broken {
        fn write(&mut self, _: &[u8]) -> io::Result<usize> {
            Err(Error::other("broken"))
        }

        fn flush(&mut self) -> io::Result<()> {
            Ok(())
        }
    }

    #[test]
    fn texts_up_to_the_longest(rt: HostRuntime) -> Result<(), Fail> {
        for (length, want) in [
            (0, "refused 18 0\n"),
            (1_048_576, "refused 18 0\n"),
            (1_048_577, "input too long\n"),
        ] {
            let text = "x".repeat(rt.alloc(), length)?;
            let mut out = Vec::new(rt.alloc());
            run(rt.alloc(), text.as_bytes(), &mut out)?;
            assert_eq!(rt; out.as_slice(), want.as_bytes(), "{length}");
        }
        Ok(())
    }

    #[test]
    fn ends_at_a_broken_input(rt: HostRuntime) -> Result<(), Fail> {
        let mut out = Vec::new(rt.alloc());
        run(rt.alloc(), "[ETF510300]".as_bytes().chain(Broken), &mut out)?;
        assert_eq!(rt; out.as_slice(), b"refused 18 0\n".as_slice());
        Ok(())
    }

    #[test]
    fn ends_at_a_broken_output(rt: HostRuntime) -> Result<(), Fail> {
        Ok(run(rt.alloc(), "".as_bytes(), Broken)?)
    }
}
