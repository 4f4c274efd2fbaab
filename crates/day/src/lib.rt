// The calls of the day. Each takes any day, book, prices and numbers, and a refusal, by the paper's numbers, changes nothing. The day is
// a lent run of numbers, which `day_at` reads; a run of another length than a day's is not sound.
// Day, book and prices are three parameters, since a price writes the prices alone, and a trade or an order the book alone: one struct of
// them would lend more for writing. `create`, `redeem` and the tests of each are the paper's calls, and one function for both is in
// `order_calls`; `open` takes its parts one by one, as C gives them, but for the fund, which `flat_calls::open` reads off a run.
#![tactic(auto)]

ghost use Rattle.std.specs.Prelude.{◌≡◌};
ghost use Rattle.flags.specs.Table.{table_numbers, flag_table};
ghost use Rattle.layout.specs.Day.{day_at};
ghost use Rattle.rules.specs.Lent.{rooms_in};
ghost use Rattle.rules.specs.Lists.{lent_in, left_in};
ghost use Rattle.rules.specs.Replies.{answer_reply, order_answer_reply, value_answer_reply};
ghost use Rattle.rules.specs.Price.{price_reply, priced_prices};
ghost use Rattle.rules.specs.Trade.{reply_of_trade, book_of_trade};
ghost use Rattle.rules.specs.Value.{value_reply};
ghost use Rattle.rules.specs.Creation.{creation_reply, created_book, created_lists};
ghost use Rattle.rules.specs.Redemption.{redemption_reply, redeemed_book, redeemed_lists};
ghost use Rattle.opening.specs.Given.{given, Outcome};

use flags::Table;
use layout::{DayHead, Fund};
use opening::Given;
use rules::{Counts, Kind, Lists, Refusal, Rooms, Trade};
use units::ReferenceValue;

// Opens a day under our flag table: the book, the prices and the day are filled.
pub fn open(
    accounts: usize,
    count: usize,
    fund: Fund,
    components: &[u64],
    holdings: &[u64],
    book: &mut [u64],
    prices: &mut [u64],
    day: &mut [u64],
) -> Result<(), Refusal>
    ensures { Outcome (given accounts count fund (table_numbers flag_table) components.now holdings.now book.old prices.old day.old) result book.new prices.new day.new }
{
    open_with_table(
        accounts,
        count,
        fund,
        flags::our_table(),
        components,
        holdings,
        book,
        prices,
        day,
    )
}

// Opens a day under a flag table of the manager's own, in the same way.
pub fn open_with_table(
    accounts: usize,
    count: usize,
    fund: Fund,
    table: &Table,
    components: &[u64],
    holdings: &[u64],
    book: &mut [u64],
    prices: &mut [u64],
    day: &mut [u64],
) -> Result<(), Refusal>
    ensures { Outcome (given accounts count fund (table_numbers table.now) components.now holdings.now book.old prices.old day.old) result book.new prices.new day.new }
{
    let head = DayHead {
        accounts,
        count,
        fund,
    };
    let given = Given {
        head,
        table: table.as_flattened(),
        components,
        holdings,
    };
    opening::open(given, book, prices, day)
}

// Sets a component's price.
#[tactic(auto, using(calls::proofs::Laws::price_five, calls::proofs::Laws::prices_five, calls::proofs::Laws::price_own, calls::proofs::Laws::prices_own, calls::proofs::Laws::prices_long))]
pub fn price(
    day: &[u64],
    book: &[u64],
    prices: &mut [u64],
    line: usize,
    price: u64,
) -> Result<(), Refusal>
    ensures result_value { answer_reply result ≡ price_reply (day_at day.now) book.now prices.old line price }
    ensures prices { prices.new ≡ priced_prices (day_at day.now) book.now prices.old line price }
{
    let day = calls::sound_day(day, book, prices)?;
    trades::set_price(&day, prices, line, price)
}

// Trades a quantity of a line at a price.
#[tactic(auto, using(calls::proofs::Laws::trade_five, calls::proofs::Laws::traded_five, calls::proofs::Laws::trade_own, calls::proofs::Laws::traded_own, calls::proofs::Laws::book_fits))]
pub fn trade(day: &[u64], book: &mut [u64], prices: &[u64], trade: Trade) -> Result<(), Refusal>
    ensures result_value { answer_reply result ≡ reply_of_trade (day_at day.now) book.old prices.now trade }
    ensures book { book.new ≡ book_of_trade (day_at day.now) book.old prices.now trade }
{
    let day = calls::sound_day(day, book, prices)?;
    trades::trade(&day, book, trade)
}

// The reference value at this moment.
#[tactic(auto, using(calls::proofs::Laws::value_five, calls::proofs::Laws::value_own, calls::proofs::Laws::priceable))]
pub fn reference_value(day: &[u64], book: &[u64], prices: &[u64]) -> Result<ReferenceValue, Refusal>
    ensures { value_answer_reply result ≡ value_reply (day_at day.now) book.now prices.now }
{
    value::reference_value(&calls::sound_day(day, book, prices)?, prices)
}

// Creates units for an account; the records and the reports to both parties go to the lent lists.
#[tactic(auto, using(rules::proofs::Asked::creation_asked, rules::proofs::Asked::created_book_lem, rules::proofs::Asked::created_lists_lem))]
pub fn create(
    day: &[u64],
    book: &mut [u64],
    prices: &[u64],
    account: usize,
    units: u64,
    lists: &mut Lists,
) -> Result<Counts, Refusal>
    ensures result_value { order_answer_reply result ≡ creation_reply (day_at day.now) book.old prices.now account units (rooms_in (lent_in lists.old)) }
    ensures book { book.new ≡ created_book (day_at day.now) book.old prices.now account units (rooms_in (lent_in lists.old)) }
    ensures lists { lists.new ≡ left_in lists.old (created_lists (day_at day.now) book.old prices.now account units (lent_in lists.old)) }
{
    let ask = Kind::Creation.ask(account, units);
    order_calls::order(day, book, prices, ask, lists)
}

// Redeems units of an account; the records and the reports to both parties go to the lent lists.
#[tactic(auto, using(rules::proofs::Asked::redemption_asked, rules::proofs::Asked::redeemed_book_lem, rules::proofs::Asked::redeemed_lists_lem))]
pub fn redeem(
    day: &[u64],
    book: &mut [u64],
    prices: &[u64],
    account: usize,
    units: u64,
    lists: &mut Lists,
) -> Result<Counts, Refusal>
    ensures result_value { order_answer_reply result ≡ redemption_reply (day_at day.now) book.old prices.now account units (rooms_in (lent_in lists.old)) }
    ensures book { book.new ≡ redeemed_book (day_at day.now) book.old prices.now account units (rooms_in (lent_in lists.old)) }
    ensures lists { lists.new ≡ left_in lists.old (redeemed_lists (day_at day.now) book.old prices.now account units (lent_in lists.old)) }
{
    let ask = Kind::Redemption.ask(account, units);
    order_calls::order(day, book, prices, ask, lists)
}

// The tests of a creation alone, with the rooms of the lists: the answer that the creation would give.
#[tactic(auto, using(rules::proofs::Asked::creation_asked))]
pub fn creation_test(
    day: &[u64],
    book: &[u64],
    prices: &[u64],
    account: usize,
    units: u64,
    rooms: Rooms,
) -> Result<Counts, Refusal>
    ensures { order_answer_reply result ≡ creation_reply (day_at day.now) book.now prices.now account units rooms }
{
    let ask = Kind::Creation.ask(account, units);
    order_calls::order_test(day, book, prices, ask, rooms)
}

// The tests of a redemption alone.
#[tactic(auto, using(rules::proofs::Asked::redemption_asked))]
pub fn redemption_test(
    day: &[u64],
    book: &[u64],
    prices: &[u64],
    account: usize,
    units: u64,
    rooms: Rooms,
) -> Result<Counts, Refusal>
    ensures { order_answer_reply result ≡ redemption_reply (day_at day.now) book.now prices.now account units rooms }
{
    let ask = Kind::Redemption.ask(account, units);
    order_calls::order_test(day, book, prices, ask, rooms)
}
