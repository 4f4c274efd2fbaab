// The records of an order, put one behind another to where they go.
#![tactic(auto)]

ghost use Rattle.std.specs.Prelude.{◌≡◌, ℕ, ◌-◌, ◌*◌, ◌≤◌, ◌<◌, ◌^◌, length};
ghost use Rattle.std.specs.Int.NonZero.{non_zero_u64_get};
ghost use Rattle.layout.specs.declared.Record.{Record};
ghost use Rattle.rules.specs.Records.{side_number, record_of, cash_records};
ghost use Rattle.rules.specs.Kinds.{stock_side, rest_side};
ghost use Rattle.order_records.specs.Flat.{room_left, with_record, left_less};
ghost use Rattle.order_records.specs.Put.{put_all, quantity_in, line_record, records_after_stock};

use layout::Record;
use rules::{CashByMarket, Kind, Side};
use std::num::NonZeroU64;
use units::Money;

// A record whose amount is its quantity times its price. Its side is a number there, as a record read back from any run may have any.
pub fn record_of(code: u64, side: Side, quantity: u64, price: Money) -> Record
    requires { quantity * price.0 < 2 ^ 64 }
    ensures { result ≡ record_of code (side_number side) quantity price.0 }
{
    Record {
        code,
        side: u64::from(side),
        quantity,
        price,
        amount: Money(quantity * price.0),
    }
}

// The side of an order's stock.
pub fn stock_side(kind: Kind) -> Side
    ensures { side_number result ≡ stock_side kind }
{
    match kind {
        Kind::Creation => Side::S,
        Kind::Redemption => Side::B,
    }
}

// The side of the rest.
#[tactic(auto, using(rules::proofs::Reports::turned_stock))]
pub fn rest_side(kind: Kind) -> Side
    ensures { side_number result ≡ rest_side kind }
{
    stock_side(kind).opposite()
}

// Where an order's records go, one behind another: a flat run of numbers (`Out`), or a list of structs (`record_writer`).
pub trait RecordSink {
    // How many more records it takes.
    ghost room: { Self → ℕ };

    // The same with a record behind those that stand.
    ghost pushed: { Self → Record → Self };

    fn room(&self) -> usize
        ensures { result ≡ room self.now };

    fn push(&mut self, r: Record)
        requires { 0 < room self.old }
        ensures { self.new ≡ pushed self.old r };

    // A record takes one place.
    ghost room_less: { (s : Self) (r : Record) → room (pushed s r) ≡ room s - 1 };
}

// A run that records are written to one behind another, and its next free place: the library has no heap, and no Vec to push to.
#[derive(Drop)]
pub struct Out<'a> {
    pub run: &'a mut [u64],
    pub at: usize,
}

impl RecordSink for Out<'_> {
    ghost room = { room_left };

    ghost pushed = { with_record };

    #[tactic(auto, unfolding(crate::specs::Flat::room_left))]
    fn room(&self) -> usize {
        self.run.len().saturating_sub(self.at) / layout::RECORD_WIDTH
    }

    #[tactic(auto, unfolding(crate::specs::Flat::room_left))]
    fn push(&mut self, r: Record) {
        layout::put_record(self.run, self.at, r);
        self.at += layout::RECORD_WIDTH;
    }

    ghost room_less = { left_less };
}

// Cash: no record at 0, one below the split size, else two, the second with the remainder even if that is 0. `order_scan::cash_count`
// has the same cases: asked for the count here, they would still be told apart for what each record says.
fn put_cash<S: RecordSink>(out: &mut S, code: u64, side: Side, c: Money)
    requires { length (cash_records code (side_number side) c.0) ≤ S.room out.old }
    ensures { out.new ≡ put_all S.pushed out.old (cash_records code (side_number side) c.0) }
{
    if c == Money(0) {
        return;
    }
    if c < Money::SPLIT {
        out.push(record_of(code, side, 1, c));
        return;
    }
    let split = Money::SPLIT.0;
    let whole = record_of(code, side, split, Money(c.0 / split));
    let remainder = record_of(code, side, 1, Money(c.0 % split));
    out.push(whole);
    out.push(remainder);
}

// The record of a component of which stock moves.
#[tactic(auto, using(crate::proofs::Laws::put_none, crate::proofs::Laws::put_one, crate::proofs::Laws::line_none, crate::proofs::Laws::line_some))]
pub fn put_line<S: RecordSink>(out: &mut S, code: u64, side: Side, moved: Option<NonZeroU64>)
    requires { length (line_record code (side_number side) (quantity_in non_zero_u64_get moved)) ≤ S.room out.old }
    ensures { out.new ≡ put_all S.pushed out.old (line_record code (side_number side) (quantity_in non_zero_u64_get moved)) }
{
    if let Some(q) = moved {
        out.push(record_of(code, side, q.get(), Money(0)));
    }
}

// The records behind those of stock: other cash, Shanghai cash and the second unit.
pub fn put_after_stock<S: RecordSink>(
    out: &mut S,
    first_code: u64,
    side: Side,
    units: u64,
    cash: CashByMarket,
)
    requires first_code_bound { first_code ≤ 999_994 }
    requires fits { length (records_after_stock first_code (side_number side) units cash) ≤ S.room out.old }
    ensures { out.new ≡ put_all S.pushed out.old (records_after_stock first_code (side_number side) units cash) }
{
    put_cash(out, first_code + rules::OTHER_CASH, side, cash.other);
    put_cash(out, first_code + rules::SHANGHAI_CASH, side, cash.shanghai);
    out.push(record_of(first_code + rules::SECOND_UNIT, side, units, Money(0)));
}
