// The reference value of a day, from its components and prices.
#![tactic(auto)]

ghost use Rattle.std.specs.Prelude.{true, ◌≡◌, ◌+◌, ◌-◌, ◌*◌, ◌≤◌, SomeIff};
ghost use Rattle.sequences.specs.Checks.{answered};
ghost use Rattle.units.specs.Units.{rounded};
ghost use Rattle.fund.specs.Fund.{cash_in_range};
ghost use Rattle.rules.specs.Value.{cash_added, cash_taken, value_checks, reference_value};
ghost use Rattle.rules.specs.Replies.{value_answer_reply};
ghost use Rattle.value.specs.Worth.{worth, lacks, value_from, Countable, Priceable};

use flags::{Column, Table};
use layout::{Component, DayView};
use rules::Refusal;
use units::{Money, ReferenceValue};

// The most that a reference value may be.
const MOST_VALUE: ReferenceValue = ReferenceValue(9_999_999);

// What the value is reckoned from lies in its ranges by `Priceable`, a fact of a sound day and its prices. No type carries it: each caller
// has the two apart and would make one for its call.

// What a component adds to the sum.
#[tactic(auto, unfolding(crate::specs::Worth::worth))]
fn worth_of(table: &Table, c: Component, price: u64) -> Money
    requires { Countable table.now c price }
    ensures { result.0 ≡ worth table.now c price }
{
    if flags::entry_in_use(table, c.flag, Column::Priced) {
        return Money(c.quantity * price);
    }
    c.amount
}

// Whether a component that is counted by its price has none.
#[tactic(auto, unfolding(crate::specs::Worth::lacks, sequences::specs::Every::every))]
fn lacks_price(table: &Table, c: Component, price: u64) -> bool
    requires { Countable table.now c price }
    ensures { result ≡ lacks table.now c price }
{
    flags::entry_in_use(table, c.flag, Column::Priced) && c.quantity != 0 && price == 0
}

// The sum of the components with the estimated cash, which is signed. None where it falls below zero.
#[tactic(auto, using(std::proofs::lemmas::Int::wraps, crate::proofs::Sign::ten_fits, crate::proofs::Sign::with_cash_lem))]
fn with_cash(sum: Money, e: i64) -> Option<Money>
    requires { (sum.0 ≤ 300_000_000_000_000_000) × (cash_in_range e ≡ true) }
    ensures { SomeIff result (cash_taken e ≤ sum.0 + cash_added e) (record { 0 = sum.0 + cash_added e - cash_taken e }) }
{
    sum.0.checked_add_signed(10 * e).map(Money::new)
}

// A basket's worth by the unit, rounded.
#[tactic(auto, unfolding(units::specs::Units::rounded))]
fn per_unit(basket: Money, size: u64) -> ReferenceValue
    requires { (basket.0 ≤ 400_000_000_000_000_000) × (1 ≤ size) × (size ≤ 99_999_999) }
    ensures { result.0 ≡ rounded (10 * basket.0) size }
{
    let tenths = 10 * basket.0;
    ReferenceValue::new((2 * tenths + size) / (2 * size))
}

// The answer from the sum of the components and the estimated cash.
#[tactic(auto, using(std::proofs::lemmas::Bool::Decides::nat_tests, crate::proofs::Sign::added_small), unfolding(crate::specs::Worth::value_from, sequences::specs::Every::every, sequences::specs::Checks::answering))]
fn value_with(sum: Money, cash: i64, size: u64) -> Result<ReferenceValue, Refusal>
    requires { (sum.0 ≤ 300_000_000_000_000_000) × (cash_in_range cash ≡ true) × (1 ≤ size) × (size ≤ 99_999_999) }
    ensures { value_answer_reply result ≡ value_from (sum.0 + cash_added cash) (cash_taken cash) size }
{
    let rest = with_cash(sum, cash).ok_or(Refusal::NoReferenceValue)?;
    let value = per_unit(rest, size);
    if MOST_VALUE < value {
        return Err(Refusal::NoReferenceValue);
    }
    Ok(value)
}

// Refusal 14, or the value. It looks at the day and the prices only.
#[tactic(auto, using(sequences::proofs::Below::sum_none, sequences::proofs::Below::any_none, crate::proofs::Laws::priced_next, crate::proofs::Laws::sum_next, crate::proofs::Laws::sum_small, crate::proofs::Laws::unpriced, crate::proofs::Laws::priced_all), unfolding(rules::specs::Lines::price_of))]
pub fn reference_value(day: &DayView, prices: &[u64]) -> Result<ReferenceValue, Refusal>
    requires { Priceable day.now prices.now }
    ensures { value_answer_reply result ≡ answered (value_checks day.now prices.now) (reference_value day.now prices.now) }
{
    let table = day.table();
    let mut sum = Money(0);
    for (i, price) in prices.iter().enumerate() {
        let component = day.component(i);
        if lacks_price(table, component, *price) {
            return Err(Refusal::NoReferenceValue);
        }
        sum = sum + worth_of(table, component, *price);
    }
    let fund = day.fund();
    value_with(sum, fund.estimated_cash, fund.basket_size)
}
