// Price and trade on a sound day: tests that only read, then the move.
#![tactic(auto)]

ghost use Rattle.std.specs.Prelude.{◌≡◌, ◌≤◌, ◌<◌, length, set};
ghost use Rattle.sequences.specs.Checks.{answered};
ghost use Rattle.rules.specs.Replies.{answer_reply, if_accepted};
ghost use Rattle.rules.specs.Price.{price_checks};
ghost use Rattle.rules.specs.Trade.{means_of_trade, checks_of_trade, moves_of_trade};
ghost use Rattle.trades.specs.Fits.{BookFits};

use layout::DayView;
use rules::{Refusal, Trade};
use units::Money;

const MOST_QUANTITY: u64 = 999_999_999;

// Day and book are parameters of their own, since a trade writes the book alone. `BookFits` says that they fit, as the day's test has
// found.

// The tests of a price call.
#[tactic(auto, unfolding(sequences::specs::Checks::answering, rules::specs::Price::price_checks))]
fn price_answer(count: usize, line: usize, price: u64) -> Result<(), Refusal>
    ensures { answer_reply result ≡ answered (price_checks count line price) 0 }
{
    if count <= line {
        return Err(Refusal::NoSuchLine);
    }
    if !ranges::is_inside(1, rules::MOST_PRICE, price) {
        return Err(Refusal::QuantityOrPrice);
    }
    Ok(())
}

// The price call on a sound day. The price is a number, where a trade has `Money`: a run of prices holds numbers.
#[tactic(auto, using(rules::proofs::Replies::leaves_after, crate::proofs::Laws::priced_line))]
pub fn set_price(day: &DayView, prices: &mut [u64], line: usize, price: u64) -> Result<(), Refusal>
    requires { length prices.old ≡ day.now.count }
    ensures result_value { answer_reply result ≡ answered (price_checks day.now.count line price) 0 }
    ensures prices { prices.new ≡ if_accepted (answered (price_checks day.now.count line price) 0) (set prices.old line price) prices.old }
{
    price_answer(day.count(), line, price)?;
    prices[line] = price;
    Ok(())
}

// The tests of a trade on stock and cash.
#[tactic(auto, using(crate::proofs::Laws::in_book), unfolding(sequences::specs::Checks::answering, rules::specs::Trade::trade_means))]
fn trade_means(day: &DayView, book: &[u64], trade: Trade, amount: Money) -> Result<(), Refusal>
    requires { BookFits day.now book.now × (trade.line ≤ day.now.count) × (trade.seller < day.now.accounts) × (trade.buyer < day.now.accounts) }
    ensures { answer_reply result ≡ answered (means_of_trade day.now.count book.now trade amount.0) 0 }
{
    let width = layout::width_of(day.count());
    let held = book::lots_of(book, width, trade.seller, trade.line);
    if held.sellable() < trade.quantity {
        return Err(Refusal::ShortOfStock(0));
    }
    let cash = Money(book::head_of(book, width, trade.buyer, layout::CASH));
    if cash < amount {
        return Err(Refusal::ShortOfCash);
    }
    Ok(())
}

// The tests of a trade.
#[tactic(auto, using(crate::proofs::Laws::amount_fits, rules::proofs::Accepted::investor_facts), unfolding(sequences::specs::Checks::answering, rules::specs::Trade::trade_checks))]
fn trade_answer(day: &DayView, book: &[u64], trade: Trade) -> Result<(), Refusal>
    requires { BookFits day.now book.now }
    ensures { answer_reply result ≡ answered (checks_of_trade day.now.accounts day.now.count book.now trade) 0 }
{
    let accounts = day.accounts();
    if day.count() < trade.line {
        return Err(Refusal::NoSuchLine);
    }
    if !ranges::is_inside(1, MOST_QUANTITY, trade.quantity) {
        return Err(Refusal::QuantityOrPrice);
    }
    if !ranges::is_inside(1, rules::MOST_PRICE, trade.price.0) {
        return Err(Refusal::QuantityOrPrice);
    }
    if !ranges::is_investor(accounts, trade.seller) {
        return Err(Refusal::Account);
    }
    if !ranges::is_investor(accounts, trade.buyer) {
        return Err(Refusal::Account);
    }
    if trade.seller == trade.buyer {
        return Err(Refusal::Account);
    }
    trade_means(day, book, trade, Money(trade.quantity * trade.price.0))
}

// The trade on a sound day.
#[tactic(auto, using(rules::proofs::Replies::leaves_after, crate::proofs::Laws::tradable))]
pub fn trade(day: &DayView, book: &mut [u64], trade: Trade) -> Result<(), Refusal>
    requires { BookFits day.now book.old }
    ensures result_value { answer_reply result ≡ answered (checks_of_trade day.now.accounts day.now.count book.old trade) 0 }
    ensures book { book.new ≡ if_accepted (answered (checks_of_trade day.now.accounts day.now.count book.old trade) 0) (moves_of_trade day.now.count trade book.old) book.old }
{
    trade_answer(day, book, trade)?;
    trade_moves::move_trade(book, day.count(), trade);
    Ok(())
}
