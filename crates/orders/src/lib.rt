// Orders on a sound day: test, settle, and report. A refusal stops after the tests, which only read.
#![tactic(auto)]

ghost use Rattle.std.specs.Prelude.{◌≡◌, true, ◌+◌, ◌*◌, ◌≤◌, length, map, IfOk};
ghost use Rattle.sequences.specs.Stretch.{stretch_of};
ghost use Rattle.layout.specs.Places.{most_components};
ghost use Rattle.layout.specs.Book.{width_of, account};
ghost use Rattle.layout.specs.Reports.{with_reports};
ghost use Rattle.rules.specs.Reports.{opposite};
ghost use Rattle.rules.specs.Replies.{order_answer_reply, if_accepted};
ghost use Rattle.rules.specs.Sound.{is_sound};
ghost use Rattle.rules.specs.Lent.{rooms_in};
ghost use Rattle.rules.specs.Lists.{lent_in, left_in};
ghost use Rattle.rules.specs.Kinds.{asked_cash, asked_moves, records_of, reports_of, rooms_beside};
ghost use Rattle.order_records.specs.Put.{put_all};
ghost use Rattle.order_tests.specs.Tests.{accepted_reply, means_answer};
ghost use Rattle.orders.specs.Orders.{asked_answer, answered_lists, Formed};

use layout::DayView;
use order_records::{Out, RecordSink};
use order_scan::Parties;
use order_tests::Accepted;
use rules::{Ask, Counts, Lists, Refusal, Rooms};

// The part of account `a` in a book of parts `w` wide.
#[tactic(auto, using(sequences::proofs::Stretch::part_is))]
fn part_of(book: &[u64], w: usize, a: usize) -> &[u64]
    requires { a * w + w ≤ length book.now }
    ensures { result.now ≡ stretch_of w book.now a }
{
    &book[layout::stretch_at(w, a)]
}

// The third stage of an order, on the account's part of the book and the fund's. Day, book, prices and ask are parameters of their own, as
// in `day`: an order writes the book alone of them.
#[tactic(auto, using(crate::proofs::Laws::stage_ready))]
fn order_stage(
    day: &DayView,
    book: &[u64],
    prices: &[u64],
    ask: Ask,
    rooms: Rooms,
) -> Result<Accepted, Refusal>
    requires { Formed day.now book.now prices.now ask }
    ensures answer_value { accepted_reply result ≡ means_answer day.now (account day.now book.now ask.account) (account day.now book.now 0) prices.now ask rooms }
    ensures cash { IfOk result (λ accepted. accepted.cash ≡ asked_cash day.now (account day.now book.now ask.account) prices.now ask) }
{
    let w = layout::width_of(day.count());
    let account = part_of(book, w, ask.account);
    let fund = part_of(book, w, book::FUND);
    let parties = Parties { account, fund };
    order_tests::order_means(day, &parties, prices, ask, rooms)
}

// The tests of an order alone, with the cash of one that is accepted. That the day is sound stands in both contracts: it is a fact of
// the day with its book and prices, of which the tests lend the book to read and an order to write, so one struct would need a twin.
#[tactic(auto, using(crate::proofs::Laws::tested_laws), unfolding(sequences::specs::Checks::is_accepted))]
pub fn order_tested(
    day: &DayView,
    book: &[u64],
    prices: &[u64],
    ask: Ask,
    rooms: Rooms,
) -> Result<Accepted, Refusal>
    requires prices_value { is_sound day.now book.now prices.now ≡ true }
    ensures answer_value { accepted_reply result ≡ asked_answer day.now book.now prices.now ask rooms }
    ensures cash { IfOk result (λ accepted. accepted.cash ≡ asked_cash day.now (account day.now book.now ask.account) prices.now ask) }
{
    order_form::order_form(&day.head(), book, ask)?;
    order_stage(day, book, prices, ask, rooms)
}

// An order whose records go to any sink: its tests, and where they accept it its moves, records and reports.
#[tactic(auto, using(crate::proofs::Laws::basket_low, rules::proofs::Replies::refused, rules::proofs::Asked::asked_moves_lem), unfolding(sequences::specs::Checks::is_accepted))]
pub fn order_into<S: RecordSink>(
    day: &DayView,
    book: &mut [u64],
    prices: &[u64],
    ask: Ask,
    records: &mut S,
    investor: &mut [u64],
    fund: &mut [u64],
) -> Result<Counts, Refusal>
    requires prices_value { is_sound day.now book.old prices.now ≡ true }
    ensures result_value { order_answer_reply result ≡ asked_answer day.now book.old prices.now ask (rooms_beside (S.room records.old) investor.old fund.old) }
    ensures book { book.new ≡ if_accepted (asked_answer day.now book.old prices.now ask (rooms_beside (S.room records.old) investor.old fund.old)) (asked_moves day.now prices.now ask book.old) book.old }
    ensures records { records.new ≡ if_accepted (asked_answer day.now book.old prices.now ask (rooms_beside (S.room records.old) investor.old fund.old)) (put_all S.pushed records.old (records_of day.now book.old prices.now ask)) records.old }
    ensures investor { investor.new ≡ if_accepted (asked_answer day.now book.old prices.now ask (rooms_beside (S.room records.old) investor.old fund.old)) (with_reports (reports_of day.now book.old prices.now ask) investor.old) investor.old }
    ensures fund { fund.new ≡ if_accepted (asked_answer day.now book.old prices.now ask (rooms_beside (S.room records.old) investor.old fund.old)) (with_reports (map opposite (reports_of day.now book.old prices.now ask)) fund.old) fund.old }
{
    let rooms = Rooms {
        records: records.room(),
        investor: investor.len() / layout::REPORT_WIDTH,
        fund: fund.len() / layout::REPORT_WIDTH,
    };
    let accepted = order_tested(day, book, prices, ask, rooms)?;
    let m = order_tests::baskets_in(day, ask.units);
    order_settlement::settle(ask, day, book, m, accepted.cash, records, investor);
    order_reports::mirror(investor, fund, accepted.counts.reports);
    Ok(accepted.counts)
}

// An order whose records go to a flat run.
pub fn order(
    day: &DayView,
    book: &mut [u64],
    prices: &[u64],
    ask: Ask,
    lists: &mut Lists,
) -> Result<Counts, Refusal>
    requires prices_value { is_sound day.now book.old prices.now ≡ true }
    ensures result_value { order_answer_reply result ≡ asked_answer day.now book.old prices.now ask (rooms_in (lent_in lists.old)) }
    ensures book { book.new ≡ if_accepted (asked_answer day.now book.old prices.now ask (rooms_in (lent_in lists.old))) (asked_moves day.now prices.now ask book.old) book.old }
    ensures lists { lists.new ≡ left_in lists.old (answered_lists day.now book.old prices.now ask (lent_in lists.old)) }
{
    let mut records = Out {
        run: lists.records,
        at: 0,
    };
    order_into(
        day,
        book,
        prices,
        ask,
        &mut records,
        lists.investor,
        lists.fund,
    )
}
