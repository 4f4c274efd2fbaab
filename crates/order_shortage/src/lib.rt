// Whether an order is short: of stock, of cash, or of room for its records and reports.
#![tactic(auto)]

ghost use Rattle.std.specs.Prelude.{◌≡◌, ◌≤◌, ◌<◌, ◌^◌, length};
ghost use Rattle.sequences.specs.Checks.{reply, answered};
ghost use Rattle.layout.specs.Book.{behind_line};
ghost use Rattle.rules.specs.Replies.{refusal_reply, answer_reply};
ghost use Rattle.rules.specs.Lent.{too_short};
ghost use Rattle.rules.specs.Creation.{available};
ghost use Rattle.order_shortage.specs.Tests.{cash_number, cash_place, last_tests, stock_tests};

use rules::{Ask, Counts, Kind, Refusal, Rooms};
use units::Money;

// The refusal where cash is short: the account's on creation; the fund's on redemption, at the unit's line `n`.
#[tactic(auto, unfolding(crate::specs::Tests::cash_number, crate::specs::Tests::cash_place))]
fn cash_refusal(kind: Kind, n: usize) -> Refusal
    ensures { refusal_reply result ≡ reply (cash_number kind) (cash_place kind n) 0 }
{
    match kind {
        Kind::Creation => Refusal::ShortOfCash,
        Kind::Redemption => Refusal::FundShort(n),
    }
}

// Whether any of the three lists is too short for the order.
#[tactic(auto, unfolding(rules::specs::Lent::too_short, sequences::specs::Every::every))]
fn is_too_short(rooms: Rooms, counts: Counts) -> bool
    ensures { result ≡ too_short rooms counts }
{
    rooms.records < counts.records || rooms.investor < counts.reports || rooms.fund < counts.reports
}

// The tests 10 or 17 at cash, and then 16: an order that lacks cash is refused for that, whatever room its lists have.
#[tactic(auto, unfolding(crate::specs::Tests::last_tests, sequences::specs::Checks::answering))]
pub fn last_answer(
    kind: Kind,
    n: usize,
    held: Money,
    due: Money,
    rooms: Rooms,
    counts: Counts,
) -> Result<(), Refusal>
    ensures { answer_reply result ≡ answered (last_tests (cash_number kind) (cash_place kind n) held.0 due.0 rooms counts) 0 }
{
    if held < due {
        return Err(cash_refusal(kind, n));
    }
    if is_too_short(rooms, counts) {
        return Err(Refusal::ListTooShort);
    }
    Ok(())
}

// The tests of stock: 9 of a creation, at the first component that is short; 9 of a redemption, at the units, and 17.
#[tactic(auto, unfolding(crate::specs::Tests::stock_tests, sequences::specs::Checks::answering))]
pub fn stock_answer(
    ask: Ask,
    n: usize,
    stretch: &[u64],
    short: Option<usize>,
) -> Result<(), Refusal>
    requires { (behind_line n ≤ length stretch.now) × (available stretch.now n < 2 ^ 64) }
    ensures { answer_reply result ≡ answered (stock_tests ask.kind (available stretch.now n) ask.units short) 0 }
{
    match (ask.kind, short) {
        (Kind::Creation, Some(first)) => Err(Refusal::ShortOfStock(first)),
        (Kind::Redemption, _) if order_scan::handable_at(stretch, n) < ask.units => {
            Err(Refusal::ShortOfStock(0))
        }
        (Kind::Redemption, Some(first)) => Err(Refusal::FundShort(first)),
        (_, None) => Ok(()),
    }
}
