// The day book for other languages, as include/roffelaine.h says it in C. Names and arguments are those of the C interface, so that
// functions stand in pairs, and each takes its runs, and the numbers that its answer goes to, one by one.
#![tactic(auto)]

ghost use Rattle.std.specs.Prelude.{◌≡◌, length};
ghost use Rattle.rules.specs.Price.{price_reply, priced_prices};
ghost use Rattle.rules.specs.Trade.{trade_reply, traded_book};
ghost use Rattle.rules.specs.Value.{value_reply};
ghost use Rattle.rules.specs.Lent.{lent_of, rooms_of, rooms_in};
ghost use Rattle.rules.specs.Creation.{creation_reply, created_book, created_lists};
ghost use Rattle.rules.specs.Redemption.{redemption_reply, redeemed_book, redeemed_lists};
ghost use Rattle.answers.specs.Numbers.{Told, ToldOrder};
ghost use Rattle.driver_rows.specs.Rows.{state_of};
ghost use Rattle.driver.specs.Batch.{batch_of, run_reply, ran, events_of, Demand3};
ghost use Rattle.list_rules.specs.Reading.{name_place, letters_place};
ghost use Rattle.list_rules.specs.Writing.{listing};
ghost use Rattle.layout.specs.Day.{day_at};
ghost use Rattle.list_layout.specs.Run.{fields_at};
ghost use Rattle.flat_calls.specs.Opening.{flat_given, FlatOutcome};
ghost use Rattle.flat_calls.specs.Text.{taking, TextRead, part_kept, TextWritten};

use answers::Numbers;
use driver_rows::Work;
use rules::{Lists, Trade};
use units::Money;

// Opens a day, under our flag table where none is lent: the book, the prices and the day are filled.
#[unsafe(no_mangle)]
pub extern "C" fn roffelaine_open(
    accounts: usize,
    count: usize,
    fund: &[u64],
    table: &[u64],
    components: &[u64],
    holdings: &[u64],
    book: &mut [u64],
    prices: &mut [u64],
    day: &mut [u64],
    place: &mut u64,
    value: &mut u64,
) -> u64
    ensures { FlatOutcome fund.now (flat_given accounts count fund.now table.now components.now holdings.now book.old prices.old day.old) result place.new value.new book.new prices.new day.new }
{
    let answer = flat_calls::open(
        accounts, count, fund, table, components, holdings, book, prices, day,
    );
    answers::tell(Numbers::from(answer), place, value)
}

// Sets a component's price.
#[unsafe(no_mangle)]
pub extern "C" fn roffelaine_price(
    day: &[u64],
    book: &[u64],
    prices: &mut [u64],
    line: usize,
    price: u64,
    place: &mut u64,
    value: &mut u64,
) -> u64
    ensures told { Told (price_reply (day_at day.now) book.now prices.old line price) result place.new value.new }
    ensures prices { prices.new ≡ priced_prices (day_at day.now) book.now prices.old line price }
{
    let answer = day::price(day, book, prices, line, price);
    answers::tell(Numbers::from(answer), place, value)
}

// Trades a quantity of a line at a price.
#[unsafe(no_mangle)]
pub extern "C" fn roffelaine_trade(
    day: &[u64],
    book: &mut [u64],
    prices: &[u64],
    line: usize,
    quantity: u64,
    price: u64,
    seller: usize,
    buyer: usize,
    place: &mut u64,
    value: &mut u64,
) -> u64
    ensures told { Told (trade_reply (day_at day.now) book.old prices.now line quantity price seller buyer) result place.new value.new }
    ensures book { book.new ≡ traded_book (day_at day.now) book.old prices.now line quantity price seller buyer }
{
    let trade = Trade {
        line,
        quantity,
        price: Money::new(price),
        seller,
        buyer,
    };
    let answer = day::trade(day, book, prices, trade);
    answers::tell(Numbers::from(answer), place, value)
}

// The reference value at this moment.
#[unsafe(no_mangle)]
pub extern "C" fn roffelaine_reference_value(
    day: &[u64],
    book: &[u64],
    prices: &[u64],
    place: &mut u64,
    value: &mut u64,
) -> u64
    ensures { Told (value_reply (day_at day.now) book.now prices.now) result place.new value.new }
{
    let answer = day::reference_value(day, book, prices);
    answers::tell(Numbers::from(answer), place, value)
}

// Creates units for an account; the records and the reports to both parties go to the lent lists.
#[unsafe(no_mangle)]
pub extern "C" fn roffelaine_create(
    day: &[u64],
    book: &mut [u64],
    prices: &[u64],
    account: usize,
    units: u64,
    records: &mut [u64],
    investor: &mut [u64],
    fund: &mut [u64],
    place: &mut u64,
    value: &mut u64,
    reports: &mut u64,
) -> u64
    ensures told_order { ToldOrder (creation_reply (day_at day.now) book.old prices.now account units (rooms_in (lent_of records.old investor.old fund.old))) result place.new value.new reports.new }
    ensures book { book.new ≡ created_book (day_at day.now) book.old prices.now account units (rooms_in (lent_of records.old investor.old fund.old)) }
    ensures lists { lent_of records.new investor.new fund.new ≡ created_lists (day_at day.now) book.old prices.now account units (lent_of records.old investor.old fund.old) }
{
    let mut lists = Lists {
        records,
        investor,
        fund,
    };
    let answer = day::create(day, book, prices, account, units, &mut lists);
    answers::tell_order(Numbers::from(answer), place, value, reports)
}

// Redeems units of an account; the records and the reports to both parties go to the lent lists.
#[unsafe(no_mangle)]
pub extern "C" fn roffelaine_redeem(
    day: &[u64],
    book: &mut [u64],
    prices: &[u64],
    account: usize,
    units: u64,
    records: &mut [u64],
    investor: &mut [u64],
    fund: &mut [u64],
    place: &mut u64,
    value: &mut u64,
    reports: &mut u64,
) -> u64
    ensures told_order { ToldOrder (redemption_reply (day_at day.now) book.old prices.now account units (rooms_in (lent_of records.old investor.old fund.old))) result place.new value.new reports.new }
    ensures book { book.new ≡ redeemed_book (day_at day.now) book.old prices.now account units (rooms_in (lent_of records.old investor.old fund.old)) }
    ensures lists { lent_of records.new investor.new fund.new ≡ redeemed_lists (day_at day.now) book.old prices.now account units (lent_of records.old investor.old fund.old) }
{
    let mut lists = Lists {
        records,
        investor,
        fund,
    };
    let answer = day::redeem(day, book, prices, account, units, &mut lists);
    answers::tell_order(Numbers::from(answer), place, value, reports)
}

// The tests of a creation alone, with the lengths of the lists.
#[unsafe(no_mangle)]
pub extern "C" fn roffelaine_creation_test(
    day: &[u64],
    book: &[u64],
    prices: &[u64],
    account: usize,
    units: u64,
    records: usize,
    investor: usize,
    fund: usize,
    place: &mut u64,
    value: &mut u64,
    reports: &mut u64,
) -> u64
    ensures { ToldOrder (creation_reply (day_at day.now) book.now prices.now account units (rooms_of records investor fund)) result place.new value.new reports.new }
{
    let rooms = rules::rooms_of(records, investor, fund);
    let answer = day::creation_test(day, book, prices, account, units, rooms);
    answers::tell_order(Numbers::from(answer), place, value, reports)
}

// The tests of a redemption alone.
#[unsafe(no_mangle)]
pub extern "C" fn roffelaine_redemption_test(
    day: &[u64],
    book: &[u64],
    prices: &[u64],
    account: usize,
    units: u64,
    records: usize,
    investor: usize,
    fund: usize,
    place: &mut u64,
    value: &mut u64,
    reports: &mut u64,
) -> u64
    ensures { ToldOrder (redemption_reply (day_at day.now) book.now prices.now account units (rooms_of records investor fund)) result place.new value.new reports.new }
{
    let rooms = rules::rooms_of(records, investor, fund);
    let answer = day::redemption_test(day, book, prices, account, units, rooms);
    answers::tell_order(Numbers::from(answer), place, value, reports)
}

// The driver: a list of calls as rows, with one test of the day where every call keeps it sound.
#[unsafe(no_mangle)]
#[tactic(auto, using(driver::proofs::Days::batch_left))]
pub extern "C" fn roffelaine_run(
    day: &[u64],
    book: &mut [u64],
    prices: &mut [u64],
    rows: &[u64],
    records: &mut [u64],
    investor: &mut [u64],
    fund: &mut [u64],
    answers: &mut [u64],
    place: &mut u64,
    value: &mut u64,
) -> u64
    ensures told { Told (run_reply rows.now (batch_of (day_at day.now) book.old prices.old (lent_of records.old investor.old fund.old) answers.old)) result place.new value.new }
    ensures left { batch_of (day_at day.now) book.new prices.new (lent_of records.new investor.new fund.new) answers.new ≡ ran rows.now (batch_of (day_at day.now) book.old prices.old (lent_of records.old investor.old fund.old) answers.old) }
    ensures demand { Demand3 (state_of (day_at day.now) book.old prices.old) (events_of rows.now (batch_of (day_at day.now) book.old prices.old (lent_of records.old investor.old fund.old) answers.old)) (state_of (day_at day.now) book.new prices.new) }
{
    let mut work = Work {
        book,
        prices,
        records,
        investor,
        fund,
    };
    let answer = driver::run(day, &mut work, rows, answers);
    answers::tell(Numbers::from(answer), place, value)
}

// The same list of calls made one by one: each tests the day, as the calls above do.
#[unsafe(no_mangle)]
#[tactic(auto, using(driver::proofs::Days::batch_left))]
pub extern "C" fn roffelaine_run_public(
    day: &[u64],
    book: &mut [u64],
    prices: &mut [u64],
    rows: &[u64],
    records: &mut [u64],
    investor: &mut [u64],
    fund: &mut [u64],
    answers: &mut [u64],
    place: &mut u64,
    value: &mut u64,
) -> u64
    ensures told { Told (run_reply rows.now (batch_of (day_at day.now) book.old prices.old (lent_of records.old investor.old fund.old) answers.old)) result place.new value.new }
    ensures left { batch_of (day_at day.now) book.new prices.new (lent_of records.new investor.new fund.new) answers.new ≡ ran rows.now (batch_of (day_at day.now) book.old prices.old (lent_of records.old investor.old fund.old) answers.old) }
    ensures demand { Demand3 (state_of (day_at day.now) book.old prices.old) (events_of rows.now (batch_of (day_at day.now) book.old prices.old (lent_of records.old investor.old fund.old) answers.old)) (state_of (day_at day.now) book.new prices.new) }
{
    let mut work = Work {
        book,
        prices,
        records,
        investor,
        fund,
    };
    let answer = driver::run_public(day, &mut work, rows, answers);
    answers::tell(Numbers::from(answer), place, value)
}

// Reads a list text under a flag table, under ours where none is lent: its fields, its components at the front of the lent run, and where
// its first component line starts.
#[unsafe(no_mangle)]
pub extern "C" fn roffelaine_read(
    text: &[u8],
    table: &[u64],
    run: &mut [u64],
    fields: &mut [u64],
    first_row: &mut u64,
    place: &mut u64,
    value: &mut u64,
) -> u64
    ensures { TextRead table.now text.now (taking run.old fields.old first_row.old) result place.new value.new (taking run.new fields.new first_row.new) }
{
    let answer = flat_calls::read(text, table, run, fields, first_row);
    answers::tell(Numbers::from(answer), place, value)
}

// Where the name of a component stands in a text, from where reading found the first component line.
#[unsafe(no_mangle)]
pub extern "C" fn roffelaine_name(text: &[u8], first_row: usize, j: usize, part: &mut [u64]) -> u64
    ensures value { result ≡ (name_place text.now first_row j).length }
    ensures part { part.new ≡ part_kept (name_place text.now first_row j) part.old }
{
    flat_calls::name(text, first_row, j, part)
}

// Where the letters of a text's first line stand.
#[unsafe(no_mangle)]
pub extern "C" fn roffelaine_letters(text: &[u8], part: &mut [u64]) -> u64
    ensures value { result ≡ (letters_place text.now).length }
    ensures part { part.new ≡ part_kept (letters_place text.now) part.old }
{
    flat_calls::letters(text, part)
}

// Writes a list under a flag table, under ours where none is lent, at the front of the lent output.
#[unsafe(no_mangle)]
pub extern "C" fn roffelaine_write(
    fields: &[u64],
    table: &[u64],
    run: &[u64],
    names: &[u8],
    letters: &[u8],
    output: &mut [u8],
    place: &mut u64,
    value: &mut u64,
) -> u64
    ensures { TextWritten table.now fields.now (listing (fields_at fields.now) run.now names.now letters.now) output.old result place.new value.new output.new }
{
    let answer = flat_calls::write(fields, table, run, names, letters, output);
    answers::tell(Numbers::from(answer), place, value)
}
