// The types that lie in lent runs of numbers, and their places there, which other crates take by these names. What reads and stores
// them is in a module for each subject.
#![tactic(auto)]

use units::{Money, Rate};

mod basket;
mod days;
mod funds;
mod results;
mod stretches;

pub use basket::component_at;
pub use days::{DayView, put_day, view_of};
pub use funds::{fund_of, put_fund, signed_at, signed_numbers};
pub use results::{put_answer, put_record, put_report, record_at, report_at};
pub use stretches::{line_at, lots_at, put_lots, stretch_at, width_of};

#[derive(Clone, Copy, Default)]
pub struct Component {
    pub code: u64,
    pub quantity: u64,
    // A number, as in a run that crosses to C, where any may stand: refusal 3 tests it.
    pub flag: u64,
    // Creation takes the premium, redemption the discount.
    pub premium: Rate,
    pub discount: Rate,
    pub amount: Money,
}

#[derive(Clone, Copy)]
pub struct Fund {
    pub first_code: u64,
    pub basket_size: u64,
    pub max_cash_ratio: Rate,
    // A number, as the flag is: refusal 2 tests it.
    pub switch: u64,
    // In hundredths of a yuan.
    pub estimated_cash: i64,
    // In the list text's order. Eight numbers, as they lie in runs that cross to C; only `order_form::limit_of` asks for one by its kind.
    pub limits: [u64; LIMITS],
}

// A day without its flag table and its components.
#[derive(Clone, Copy)]
pub struct DayHead {
    pub accounts: usize,
    pub count: usize,
    pub fund: Fund,
}

// A record of an order. Its side is a number, as a component's flag and a fund's switch are: they are read back from any numbers of
// a lent run.
#[derive(Clone, Copy)]
pub struct Record {
    pub code: u64,
    pub side: u64,
    pub quantity: u64,
    pub price: Money,
    pub amount: Money,
}

// A group of a report's cash: its kind and its amount.
#[derive(Clone, Copy)]
pub struct Group {
    pub kind: u64,
    pub amount: Money,
}

// A report of an order, to one of its two parties. Its type, side and kinds of cash are numbers, since what a report says is read
// back from any numbers of a lent run; what makes one takes them from the enums of the crate rules.
#[derive(Clone, Copy)]
pub struct Report {
    pub report_type: u64,
    pub side: u64,
    pub code: u64,
    pub quantity: u64,
    pub first: Group,
    pub second: Group,
    pub third: Group,
}

// Widths and places. usize and u64 both have 64 bits here, so that a cast of a count or a place by `as` loses nothing; std has no `From`
// between them.

// How many components a day has room for, how many numbers each takes, and all of them, a day's basket.
pub const MOST_COMPONENTS: usize = 300;

pub const COMPONENT_WIDTH: usize = 6;

pub const BASKET_WIDTH: usize = MOST_COMPONENTS * COMPONENT_WIDTH;

// How many limits a fund has, where they and its estimated cash stand among its numbers, and how many numbers it takes.
pub const LIMITS: usize = 8;

const CASH_AT: usize = 4;

const LIMITS_FROM: usize = 6;

pub const FUND_WIDTH: usize = LIMITS_FROM + LIMITS;

// Where a day has its accounts, its count of components, its fund, its flag table and its basket, and how many numbers it takes.
const ACCOUNTS_AT: usize = 0;

const COUNT_AT: usize = 1;

const FUND_FROM: usize = 2;

pub const TABLE_FROM: usize = FUND_FROM + FUND_WIDTH;

pub const BASKET_FROM: usize = TABLE_FROM + flags::TABLE_WIDTH;

pub const DAY_WIDTH: usize = BASKET_FROM + BASKET_WIDTH;

// An account's stretch: cash, units created, units redeemed, and then the lots of each line. Places in a run that crosses to C.
pub const CASH: usize = 0;

pub const CREATED: usize = 1;

pub const REDEEMED: usize = 2;

pub const LINES_FROM: usize = 3;

pub const LINE_WIDTH: usize = 3;

// The first counter: they stand in the order of the kinds of order.
pub const COUNTERS: usize = CREATED;

// The widest stretch, that of a fund with as many components as there is room for.
pub const MOST_WIDTH: usize = LINES_FROM + LINE_WIDTH * (MOST_COMPONENTS + 1);

// How many numbers a record takes, a report, and a row and an answer of a list of calls.
pub const RECORD_WIDTH: usize = 5;

pub const REPORT_WIDTH: usize = 10;

pub const ROW_WIDTH: usize = 9;

pub const ANSWER_WIDTH: usize = 4;
