// The fund and its components, and the tests of refusals 2 and 3.
#![tactic(auto)]

ghost use Rattle.std.specs.Prelude.{◌≡◌, ◌*◌, ◌≤◌, length};
ghost use Rattle.sequences.specs.Below.{below};
ghost use Rattle.fund.specs.Fund.{cash_in_range, limit_in_range, limits_in_range, fund_in_range, limit_number};
ghost use Rattle.layout.specs.Places.{most_components, component_width};
ghost use Rattle.layout.specs.Components.{component_at, places_of};
ghost use Rattle.fund.specs.Components.{outside_group, zero_unless, used_within, component_in_range, fits, component_fault};

use flags::{Column, Table};
use layout::{Component, Fund};
use units::Rate;

// The most that a limit, and fund-wide created or redeemed units, may be.
pub const CEILING: u64 = 999_999_999_999;

// The limits on a kind of order: cumulative for the fund and per account, net for the fund and per account.
#[derive(Clone, Copy, PartialEq, Eq, Debug)]
pub enum Limit {
    Cumulative,
    CumulativeEach,
    Net,
    NetEach,
}

impl Limit {
    // Its place among those of a kind. No `From`: as a number it is a place alone.
    pub fn number(self) -> usize
        ensures { result ≡ limit_number self }
    {
        self as usize
    }
}

#[tactic(auto, using(std::proofs::lemmas::Bool::Decides::nat_tests), unfolding(crate::specs::Fund::cash_in_range))]
pub fn cash_in_range(e: i64) -> bool
    ensures { result ≡ cash_in_range e }
{
    (-999_999_999..=9_999_999_999).contains(&e)
}

#[tactic(auto, unfolding(crate::specs::Fund::limit_in_range, sequences::specs::Every::every))]
fn limit_in_range(size: u64, limit: u64) -> bool
    ensures { result ≡ limit_in_range size limit }
{
    limit <= CEILING && limit.is_multiple_of(size)
}

fn limits_in_range(size: u64, limits: [u64; layout::LIMITS]) -> bool
    ensures { result ≡ limits_in_range size limits }
{
    limits.iter().all(|limit| limit_in_range(size, *limit))
}

// Refusal 2's test.
#[tactic(auto, using(std::proofs::lemmas::Bool::Decides::nat_tests), unfolding(crate::specs::Fund::fund_in_range, sequences::specs::Every::every, sequences::specs::Every::inside))]
pub fn fund_in_range(f: Fund) -> bool
    ensures { result ≡ fund_in_range f }
{
    let size = f.basket_size;
    f.first_code <= 999_994
        && (1..=99_999_999).contains(&size)
        && f.max_cash_ratio <= Rate::ONE
        && f.switch <= 3
        && cash_in_range(f.estimated_cash)
        && limits_in_range(size, f.limits)
}

// The most that an amount may be; a rate may be at most one.
const MOST_AMOUNT: u64 = 99_999_999_999;

// An unused rate or amount is 0.
#[tactic(auto, using(std::proofs::lemmas::Bool::Decides::nat_tests), unfolding(crate::specs::Components::zero_unless))]
fn zero_unless(used: bool, x: u64) -> bool
    ensures { result ≡ zero_unless used x }
{
    used || x == 0
}

// Of a premium, a discount or an amount: at most so much, and 0 where the flag does not use it. It takes the number, since the first two
// are a `Rate` and the last is `Money`.
#[tactic(auto, using(std::proofs::lemmas::Bool::Decides::nat_tests), unfolding(crate::specs::Components::used_within, sequences::specs::Every::every))]
fn used_within(most: u64, used: bool, x: u64) -> bool
    ensures { result ≡ used_within most used x }
{
    x <= most && zero_unless(used, x)
}

// Whether a code is outside the fund's group of codes, which starts at `first_code`.
#[tactic(auto, using(std::proofs::lemmas::Bool::Decides::nat_tests), unfolding(crate::specs::Components::outside_group))]
pub fn outside_group(first_code: u64, code: u64) -> bool
    ensures { result ≡ outside_group first_code code }
{
    !matches!(code.checked_sub(first_code), Some(0..=5))
}

// A component's own ranges and flag use, by a flag table.
#[tactic(auto, using(std::proofs::lemmas::Bool::Decides::nat_tests), unfolding(crate::specs::Components::component_in_range, sequences::specs::Every::every))]
pub fn component_in_range(table: &Table, first_code: u64, c: Component) -> bool
    ensures { result ≡ component_in_range table.now first_code c }
{
    if !flags::entry_of(table, c.flag, Column::InUse) {
        return false;
    }
    let rate_used = flags::entry_in_use(table, c.flag, Column::RateUsed);
    let amount_used = flags::entry_in_use(table, c.flag, Column::AmountUsed);
    c.code <= 999_999
        && outside_group(first_code, c.code)
        && c.quantity <= 99_999_999
        && used_within(Rate::ONE.0, rate_used, c.premium.0)
        && used_within(Rate::ONE.0, rate_used, c.discount.0)
        && used_within(MOST_AMOUNT, amount_used, c.amount.0)
}

// Whether a component is in its ranges and above the code before it, where there is one.
#[tactic(auto, using(std::proofs::lemmas::Bool::Decides::nat_tests), unfolding(crate::specs::Components::fits, crate::specs::Components::above_code, sequences::specs::Every::every))]
pub fn component_fits(table: &Table, first_code: u64, previous: Option<u64>, c: Component) -> bool
    ensures { result ≡ fits table.now first_code previous c }
{
    component_in_range(table, first_code, c) && previous.is_none_or(|code| code < c.code)
}

// Refusal 3's test: the first component at fault of a run's first `count`. By place: `find` reads the code before each component again,
// 35,475 instructions against 18,422. The count stands beside the run: a day's basket has room for all, and its count says how many.
pub fn run_fault(table: &Table, first_code: u64, run: &[u64], count: usize) -> Option<usize>
    requires { (count ≤ most_components) × (component_width * count ≤ length run.now) }
    ensures { result ≡ below count (component_fault table.now first_code (places_of (component_at run.now) count) count) }
{
    let mut previous = None;
    for i in 0..count {
        let c = layout::component_at(run, i);
        if !component_fits(table, first_code, previous, c) {
            return Some(i);
        }
        previous = Some(c.code);
    }
    None
}
