// One row of the driver: the call that it names, made.
// Each function asks for a sound day where it makes a call: a fact of the day with its book and prices, which the calls write.
// The casts by `as` lose nothing: usize and u64 both have 64 bits.
#![tactic(auto)]

ghost use Rattle.std.specs.Prelude.{◌≡◌, true, ◌+◌, ◌≤◌, Some, IfSome, MatchOption, false};
ghost use Rattle.layout.specs.Day.{day_at};
ghost use Rattle.rules.specs.Sound.{is_sound, is_kept};
ghost use Rattle.rules.specs.Lent.{lent_of, rooms_in};
ghost use Rattle.rules.specs.Replies.{order_answer_reply, value_answer_reply};
ghost use Rattle.rules.specs.Value.{value_reply};
ghost use Rattle.rules.specs.Kinds.{asked_reply, asked_book, asked_lists};
ghost use Rattle.answers.specs.Numbers.{reply_of};
ghost use Rattle.driver_rows.specs.Rows.{call, call_named, spans_in, span_within, row_of, result_of, row_reply, row_leaves, order_of, work_of};
ghost use Rattle.driver_rows.specs.Lent.{work_in, left_work};

use answers::Numbers;
use layout::DayView;
use rules::{Ask, Counts, Lists, Refusal, Trade};
use std::ops::Range;
use units::{Money, ReferenceValue};

// What the calls of a list work on: lent once for the whole list, so that each call takes one reference. Records, investor's and fund's
// reports are those of all rows, of which each row names parts; a `rules::Lists` has those of one order.
#[derive(Drop)]
pub struct Work<'a> {
    pub book: &'a mut [u64],
    pub prices: &'a mut [u64],
    pub records: &'a mut [u64],
    pub investor: &'a mut [u64],
    pub fund: &'a mut [u64],
}

// A part of a lent run, as a row names it. Two numbers from outside, which need not lie within the run.
#[derive(Clone, Copy)]
struct Span {
    start: u64,
    size: u64,
}

impl Span {
    // The part that is lent: the empty one at the front, where the part named lies outside the run. No Option: that is what such a row means.
    #[tactic(auto, unfolding(crate::specs::Rows::span_within))]
    fn within(self, run: usize) -> Range<usize>
        ensures start_value { result.start ≡ (span_within run self).start }
        ensures end { result.end ≡ result.start + (span_within run self).size }
        ensures within { result.end ≤ run }
    {
        let start = self.start as usize;
        let size = self.size as usize;
        if start > run || size > run - start {
            return 0..0;
        }
        start..start + size
    }
}

// The parts of the three lent runs that are an order's lists.
#[derive(Clone, Copy)]
struct Spans {
    records: Span,
    investor: Span,
    fund: Span,
}

// The call that a row names. An item of `program_replay` names tests too, and lengths of lists, not parts of runs: one type is no plainer.
#[derive(Clone, Copy)]
enum Call {
    Price { line: usize, price: u64 },
    Trade(Trade),
    Order(Ask),
    Value,
}

// An order on a sound day, with its lists one by one. Tried as a struct of parts of the runs, of which no proof can say that what is
// written in the part is written in the run.
#[tactic(auto, using(order_calls::proofs::Laws::order_own, order_calls::proofs::Laws::leaves_own))]
fn order_in(
    day: &DayView,
    book: &mut [u64],
    prices: &[u64],
    ask: Ask,
    records: &mut [u64],
    investor: &mut [u64],
    fund: &mut [u64],
) -> Result<Counts, Refusal>
    requires { is_sound day.now book.old prices.now ≡ true }
    ensures result_value { order_answer_reply result ≡ asked_reply day.now book.old prices.now ask (rooms_in (lent_of records.old investor.old fund.old)) }
    ensures book { book.new ≡ asked_book day.now book.old prices.now ask (rooms_in (lent_of records.old investor.old fund.old)) }
    ensures lists { lent_of records.new investor.new fund.new ≡ asked_lists day.now book.old prices.now ask (lent_of records.old investor.old fund.old) }
{
    let mut lists = Lists {
        records,
        investor,
        fund,
    };
    orders::order(day, book, prices, ask, &mut lists)
}

// An order whose lists are parts of the three runs, as its row names them. Tried with the work as a struct: parts of two runs behind
// one reference cannot be lent at once.
fn order_row(
    day: &DayView,
    book: &mut [u64],
    prices: &[u64],
    records: &mut [u64],
    investor: &mut [u64],
    fund: &mut [u64],
    ask: Ask,
    lists: Spans,
) -> Numbers
    requires prices_value { is_sound day.now book.old prices.now ≡ true }
    ensures result_value { reply_of result ≡ (result_of (work_of day.now book.old prices.now (lent_of records.old investor.old fund.old)) (order_of ask) lists).reply }
    ensures left { work_of day.now book.new prices.now (lent_of records.new investor.new fund.new) ≡ row_leaves (work_of day.now book.old prices.now (lent_of records.old investor.old fund.old)) (call (order_of ask) lists) }
{
    let r = lists.records.within(records.len());
    let i = lists.investor.within(investor.len());
    let f = lists.fund.within(fund.len());
    let answer = order_in(
        day,
        book,
        prices,
        ask,
        &mut records[r],
        &mut investor[i],
        &mut fund[f],
    );
    Numbers::from(answer)
}

// The parts that an order's row names.
fn spans_in(row: &[u64; layout::ROW_WIDTH]) -> Spans
    ensures { result ≡ spans_in row.now }
{
    let [
        _,
        _,
        _,
        records,
        records_size,
        investor,
        investor_size,
        fund,
        fund_size,
    ] = *row;
    Spans {
        records: Span {
            start: records,
            size: records_size,
        },
        investor: Span {
            start: investor,
            size: investor_size,
        },
        fund: Span {
            start: fund,
            size: fund_size,
        },
    }
}

// The call that a row names by its kind, or none. The patterns test the kind alone: a row has all its places.
#[tactic(auto, unfolding(crate::specs::Rows::row_of))]
fn call_of(row: &[u64; layout::ROW_WIDTH]) -> Option<Call>
    ensures { call_named row.now result ≡ row_of row.now }
{
    match *row {
        [1, line, price, ..] => Some(Call::Price {
            line: line as usize,
            price,
        }),
        [2, line, quantity, price, seller, buyer, ..] => Some(Call::Trade(Trade {
            line: line as usize,
            quantity,
            price: Money::new(price),
            seller: seller as usize,
            buyer: buyer as usize,
        })),
        [3, account, units, ..] => Some(Call::Order(rules::Kind::Creation.ask(
            account as usize,
            units,
        ))),
        [4, account, units, ..] => Some(Call::Order(rules::Kind::Redemption.ask(
            account as usize,
            units,
        ))),
        [5, ..] => Some(Call::Value),
        _ => None,
    }
}

// The call that a row names, made on a sound day. An order's lists are read off the row here: with the row in the call a trade in a list
// took 133 instructions and 9.4 ns, with the lists in the call still more, and so 130 and 8.8.
fn make(day: &DayView, work: &mut Work, call: Call, row: &[u64; layout::ROW_WIDTH]) -> Numbers
    requires sound { is_sound day.now work.old.book.now work.old.prices.now ≡ true }
    ensures result_value { reply_of result ≡ row_reply (work_in day.now work.old) (call_named row.now (Some call)) }
    ensures left { work.new ≡ left_work work.old (row_leaves (work_in day.now work.old) (call_named row.now (Some call))) }
{
    match call {
        Call::Price { line, price } => {
            Numbers::from(trades::set_price(day, work.prices, line, price))
        }
        Call::Trade(trade) => Numbers::from(trades::trade(day, work.book, trade)),
        Call::Order(ask) => {
            // In a variable, and unique: the field itself and `&*` of it were tried, and the borrow checker has no rule for either beside the
            // fields that are lent.
            let prices = &mut *work.prices;
            order_row(
                day,
                work.book,
                prices,
                work.records,
                work.investor,
                work.fund,
                ask,
                spans_in(row),
            )
        }
        Call::Value => Numbers::from(work.reference_value(day)),
    }
}

impl<'a> Work<'a> {
    // The reference value on a sound day.
    #[tactic(auto, using(calls::proofs::Laws::priceable, calls::proofs::Laws::value_own))]
    fn reference_value(&self, day: &DayView) -> Result<ReferenceValue, Refusal>
        requires { is_sound day.now self.now.book.now self.now.prices.now ≡ true }
        ensures { value_answer_reply result ≡ value_reply day.now self.now.book.now self.now.prices.now }
    {
        value::reference_value(day, self.prices)
    }

    // The day in a run, where it is sound with the book and the prices. The one refusal of the test is written by `row_call`: tried with the
    // `Result` kept there, the borrow checker does not cover a day that is borrowed on one path and has no value on another.
    fn sound_day<'b>(&self, run: &'b [u64]) -> Option<DayView<'b>>
        ensures { MatchOption result (is_sound (day_at run.now) self.now.book.now self.now.prices.now ≡ false) (λ day. (day ≡ day_at run.now) × (is_sound (day_at run.now) self.now.book.now self.now.prices.now ≡ true)) }
    {
        calls::sound_day(run, self.book, self.prices).ok()
    }

    // The day in a run, where it has with them what every call keeps.
    pub fn kept_day<'b>(&self, run: &'b [u64]) -> Option<DayView<'b>>
        ensures { MatchOption result (is_kept (day_at run.now) self.now.book.now self.now.prices.now ≡ false) (λ day. (day ≡ day_at run.now) × (is_kept (day_at run.now) self.now.book.now self.now.prices.now ≡ true)) }
    {
        calls::kept_day(run, self.book, self.prices)
    }
}

// The call that a row names, on any day: 1 where the row names none, and 5 where the day is not sound. The day is tested here where it
// is not known to be sound. No closure from the driver for each way: with two places at which a call is made it is no part of the loop,
// and a trade in a list took 23 ns where this form then took 17.
pub fn row_call(
    run: &[u64],
    known: Option<&DayView>,
    work: &mut Work,
    row: &[u64; layout::ROW_WIDTH],
) -> Numbers
    requires known { IfSome known (λ day. (day.now ≡ day_at run.now) × (is_sound (day_at run.now) work.old.book.now work.old.prices.now ≡ true)) }
    ensures result_value { reply_of result ≡ row_reply (work_in (day_at run.now) work.old) (row_of row.now) }
    ensures left { work.new ≡ left_work work.old (row_leaves (work_in (day_at run.now) work.old) (row_of row.now)) }
{
    let Some(call) = call_of(row) else {
        return Numbers::from(Refusal::Sizes);
    };
    let tested = match known {
        Some(_) => None,
        None => work.sound_day(run),
    };
    match known.or(tested.as_ref()) {
        Some(day) => make(day, work, call, row),
        None => Numbers::from(Refusal::UnsoundDay),
    }
}
