// The fields of a list: from the head's figures and back, and their ranges.
// The casts by `as` lose nothing: usize and u64 both have 64 bits.
#![tactic(auto)]

ghost use Rattle.std.specs.Prelude.{◌≡◌, ℕ, ◌+◌, ◌≤◌, ◌<◌, true, get_or, SomeIff};
ghost use Rattle.sequences.specs.Below.{tabulate};
ghost use Rattle.layout.specs.Places.{limit_count};
ghost use Rattle.digits.specs.Digits.{cap, plain};
ghost use Rattle.list_rules.specs.Fields.{fields_from, figures_of, fields_in_range};
ghost use Rattle.list_rules.specs.Shanghai.{field_count, creation_code_field, limits_field};

use digits::Figure;
use layout::Fund;
use list_rules::{ListField, ListFields};
use std::array;
use text_rules::MOST_FIELDS;
use units::Rate;

// The limits among the head's figures, which stand last.
fn limits_of(figures: &[Figure; MOST_FIELDS]) -> [u64; layout::LIMITS]
    ensures { result ≡ tabulate (λ k. (get_or figures.now (limits_field + k) (plain 0)).size) limit_count }
{
    let first = ListField::FirstLimit.place();
    array::from_fn(|k| figures[first + k].size)
}

// The fields that the head's figures say: none where the code for creation is 0, as the fund's first code is the one before it.
#[tactic(auto, unfolding(list_rules::specs::Fields::fields_from))]
pub fn fields_of(figures: &[Figure; MOST_FIELDS]) -> Option<ListFields>
    requires { (k : ℕ) → k < field_count → (get_or figures.now k (plain 0)).size ≤ cap }
    ensures { SomeIff result (1 ≤ (get_or figures.now creation_code_field (plain 0)).size) (fields_from (λ k. get_or figures.now k (plain 0))) }
{
    let first_code = ListField::CreationCode.of(figures).size.checked_sub(1)?;
    let fund = Fund {
        first_code,
        basket_size: ListField::BasketSize.of(figures).size,
        max_cash_ratio: Rate::new(ListField::CashRatio.of(figures).size),
        switch: ListField::Switch.of(figures).size,
        estimated_cash: digits::signed_of(ListField::EstimatedCash.of(figures)),
        limits: limits_of(figures),
    };
    Some(ListFields {
        fund,
        publish: ListField::Publish.of(figures).size,
        trading_day: ListField::TradingDay.of(figures).size,
        pre_trading_day: ListField::PreTradingDay.of(figures).size,
        cash_component: digits::signed_of(ListField::CashComponent.of(figures)),
        nav_per_cu: ListField::BasketValue.of(figures).size,
        nav: ListField::UnitValue.of(figures).size,
        count: ListField::Count.of(figures).size as usize,
    })
}

// Refusal 2's test.
#[tactic(auto, using(std::proofs::lemmas::Bool::Decides::nat_tests), unfolding(list_rules::specs::Fields::fields_in_range, sequences::specs::Every::every))]
pub fn fields_in_range(l: ListFields) -> bool
    ensures { result ≡ fields_in_range l }
{
    fund::fund_in_range(l.fund)
        && l.publish <= 1
        && text_dates::is_date(l.trading_day)
        && text_dates::is_date(l.pre_trading_day)
        && fund::cash_in_range(l.cash_component)
        && l.nav_per_cu <= 99_999_999_999
        && l.nav <= 9_999_999
}

// The head's figures that say the fields, one by one in the order of the table, the limits too: a loop over the limits would write them
// into an array that is filled with blanks first.
#[tactic(auto, unfolding(list_rules::specs::Fields::figures_of, list_rules::specs::Fields::figure_at, sequences::specs::Below::tabulate))]
pub fn figures_of(l: ListFields) -> [Figure; MOST_FIELDS]
    requires { fields_in_range l ≡ true }
    ensures { result ≡ figures_of l }
{
    let fund = l.fund;
    let limits = fund.limits;
    [
        Figure::from(fund.first_code + 1),
        Figure::from(fund.basket_size),
        Figure::from(fund.max_cash_ratio.0),
        Figure::from(l.publish),
        Figure::from(fund.switch),
        Figure::from(l.count as u64),
        Figure::from(fund.estimated_cash),
        Figure::from(l.trading_day),
        Figure::from(l.pre_trading_day),
        Figure::from(l.cash_component),
        Figure::from(l.nav_per_cu),
        Figure::from(l.nav),
        Figure::from(limits[0]),
        Figure::from(limits[1]),
        Figure::from(limits[2]),
        Figure::from(limits[3]),
        Figure::from(limits[4]),
        Figure::from(limits[5]),
        Figure::from(limits[6]),
        Figure::from(limits[7]),
        // Blank behind them: one function serves tables of any length up to the most, so that figures are always as many as the most. A
        // length as a const parameter would stand in every function that takes figures.
        Figure::from(0u64),
        Figure::from(0u64),
        Figure::from(0u64),
        Figure::from(0u64),
    ]
}
