// What the day book promises: the types of the day and its answers. The definitions are in specs/, their laws in proofs/.
#![tactic(auto)]

ghost use Rattle.std.specs.Prelude.{◌≡◌, ◌+◌, ◌<◌, ◌^◌};
ghost use Rattle.layout.specs.Book.{counter};
ghost use Rattle.rules.specs.Kinds.{all_cash, cash_report_count, ask_of};
ghost use Rattle.rules.specs.Lent.{rooms_of, rooms_in};
ghost use Rattle.rules.specs.Lists.{lent_in};
ghost use Rattle.rules.specs.Orders.{kind_at, number_of, opposite_kind};
ghost use Rattle.rules.specs.Records.{side_number, side_at};
ghost use Rattle.rules.specs.Reports.{turned, type_number, cash_number};

use std::ops::Add;
use units::Money;

// Why a call is turned back, with a place where the paper gives one. specs/Replies.antt has the paper's numbers.
#[derive(Clone, Copy, PartialEq, Eq, Debug)]
pub enum Refusal {
    Sizes,
    FundField,
    Component(usize),
    Total(usize),
    UnsoundDay,
    NoSuchLine,
    QuantityOrPrice,
    Account,
    // 0 in a trade and a redemption, where the paper gives no place. No Option: none and 0 would have one reply, and `order_foretold` says
    // that two answers with one reply are the same.
    ShortOfStock(usize),
    ShortOfCash,
    NotWholeBaskets,
    Switch,
    Limit,
    NoReferenceValue,
    CashRatio,
    ListTooShort,
    FundShort(usize),
    TextLine(usize),
    TextField(usize),
    RecordCount,
    FlagTable(usize),
}

// How many records an order makes, and how many reports for each of its two parties.
#[derive(Clone, Copy, PartialEq, Eq, Debug, Default)]
pub struct Counts {
    pub records: usize,
    pub reports: usize,
}

// How many records the list lent takes, and how many reports the investor's and the fund's.
#[derive(Clone, Copy, PartialEq, Eq, Debug)]
pub struct Rooms {
    pub records: usize,
    pub investor: usize,
    pub fund: usize,
}

// The rooms of lists of so many numbers. The lengths come one by one, as C hands them over to the calls that only test: a struct of
// three lengths would be made for this call alone.
pub fn rooms_of(records: usize, investor: usize, fund: usize) -> Rooms
    ensures { result ≡ rooms_of records investor fund }
{
    Rooms {
        records: records / layout::RECORD_WIDTH,
        investor: investor / layout::REPORT_WIDTH,
        fund: fund / layout::REPORT_WIDTH,
    }
}

// The lists lent to an order: records, the investor's reports and the fund's.
#[derive(Drop)]
pub struct Lists<'a> {
    pub records: &'a mut [u64],
    pub investor: &'a mut [u64],
    pub fund: &'a mut [u64],
}

impl<'a> Lists<'a> {
    // How many records and reports each takes.
    #[tactic(auto, unfolding(crate::specs::Lent::rooms_in))]
    pub fn rooms(&self) -> Rooms
        ensures { result ≡ rooms_in (lent_in self.now) }
    {
        rooms_of(self.records.len(), self.investor.len(), self.fund.len())
    }
}

// The two kinds of order.
#[derive(Clone, Copy, PartialEq, Eq, Debug)]
pub enum Kind {
    Creation,
    Redemption,
}

impl Kind {
    // Its place, as limits, counters and the switch's numbers are laid out. No `From<Kind>`, unlike a side: the paper gives it no number.
    pub fn number(self) -> usize
        ensures { result ≡ number_of self }
    {
        self as usize
    }

    // Where an account's stretch counts its units: the counters stand in the order of the kinds.
    pub fn counter(self) -> usize
        ensures { result ≡ counter (number_of self) }
    {
        layout::COUNTERS + self.number()
    }

    // The other kind.
    pub fn opposite(self) -> Kind
        ensures { result ≡ opposite_kind self }
    {
        match self {
            Kind::Creation => Kind::Redemption,
            Kind::Redemption => Kind::Creation,
        }
    }

    // An order of the kind: units for an account, or from one.
    pub fn ask(self, account: usize, units: u64) -> Ask
        ensures { result ≡ ask_of self account units }
    {
        Ask {
            kind: self,
            account,
            units,
        }
    }
}

impl From<usize> for Kind {
    ghost from_gives = { λ number kind. kind ≡ kind_at number };

    // For a caller that has the kind as a number: 0 is a creation, and every other number a redemption.
    fn from(number: usize) -> Kind {
        match number {
            0 => Kind::Creation,
            _ => Kind::Redemption,
        }
    }
}

// What an order asks: its kind, the account, and how many units.
#[derive(Clone, Copy, PartialEq, Eq, Debug)]
pub struct Ask {
    pub kind: Kind,
    pub account: usize,
    pub units: u64,
}

// A trade: a quantity of a line at a price a unit, from a seller to a buyer.
#[derive(Clone, Copy)]
pub struct Trade {
    pub line: usize,
    pub quantity: u64,
    pub price: Money,
    pub seller: usize,
    pub buyer: usize,
}

// The cash of an order, by market.
#[derive(Clone, Copy, PartialEq, Eq, Debug, Default)]
pub struct CashByMarket {
    pub shanghai: Money,
    pub other: Money,
}

impl CashByMarket {
    // All of it. That it fits one number stands in four contracts, from here on: two amounts of which each fits are a `CashByMarket` too,
    // and the definitions have such.
    pub fn total(self) -> Money
        requires { all_cash self < 2 ^ 64 }
        ensures { result.0 ≡ all_cash self }
    {
        self.other + self.shanghai
    }

    // How many reports tell it: one for all cash, none where there is none.
    #[tactic(auto, unfolding(crate::specs::Kinds::cash_report_count))]
    pub fn reports(self) -> usize
        requires { all_cash self < 2 ^ 64 }
        ensures { result ≡ cash_report_count self }
    {
        usize::from(self.total() != Money(0))
    }
}

impl Add for CashByMarket {
    type Output = CashByMarket;

    ghost can_add = { λ x y. (x.shanghai.0 + y.shanghai.0 < 2 ^ 64) × (x.other.0 + y.other.0 < 2 ^ 64) };

    ghost add_gives = { λ x y sum. (sum.shanghai.0 ≡ x.shanghai.0 + y.shanghai.0) × (sum.other.0 ≡ x.other.0 + y.other.0) };

    fn add(self, more: CashByMarket) -> CashByMarket {
        CashByMarket {
            shanghai: self.shanghai + more.shanghai,
            other: self.other + more.other,
        }
    }
}

// The codes of a fund's group, as steps from its first, which is the unit's.
pub const SECOND_UNIT: u64 = 1;

pub const SHANGHAI_CASH: u64 = 2;

pub const OTHER_CASH: u64 = 5;

// The most records of an order: one for each component, two of units, and two for each of the two kinds of cash.
pub const MOST_RECORDS: usize = layout::MOST_COMPONENTS + 6;

// The most reports to one party: one for each component, one of the unit and one of cash.
pub const MOST_REPORTS: usize = layout::MOST_COMPONENTS + 2;

// The most baskets of one order.
pub const MOST_BASKETS: u64 = 20;

// The most that a line may total, at opening the units too; that units may total on a later day; and that cash may total.
pub const MOST_OF_LINE: u64 = 1_000_000_000_000_000_000;

pub const MOST_UNITS: u64 = 2_000_000_000_000_000_000;

pub const MOST_CASH: u64 = 4_000_000_000_000_000_000;

// The most that a price may be.
pub const MOST_PRICE: u64 = 9_999_999;

// The sides of a record and of a report, by the paper's numbers.
#[derive(Clone, Copy, PartialEq, Eq, Debug)]
pub enum Side {
    B = 1,
    S = 2,
}

impl Side {
    // The other side.
    #[tactic(auto, unfolding(crate::specs::Reports::turned))]
    pub fn opposite(self) -> Side
        ensures { side_number result ≡ turned (side_number self) }
    {
        match self {
            Side::B => Side::S,
            Side::S => Side::B,
        }
    }
}

impl From<Side> for u64 {
    ghost from_gives = { λ side number. number ≡ side_number side };

    fn from(side: Side) -> u64 {
        side as u64
    }
}

impl TryFrom<u64> for Side {
    // A number that is no side's.
    type Error = u64;

    ghost try_from_gives = { λ number side. side ≡ side_at number };

    fn try_from(number: u64) -> Result<Side, u64> {
        match number {
            1 => Ok(Side::B),
            2 => Ok(Side::S),
            _ => Err(number),
        }
    }
}

// The types of a report, by the paper's numbers: of the unit, of a component moved, and of all cash.
#[derive(Clone, Copy, PartialEq, Eq, Debug)]
pub enum ReportType {
    Unit = 1,
    Stock = 2,
    Cash = 3,
}

impl From<ReportType> for u64 {
    ghost from_gives = { λ report_type number. number ≡ type_number report_type };

    fn from(report_type: ReportType) -> u64 {
        report_type as u64
    }
}

// The kinds of cash in a report, by the paper's numbers.
#[derive(Clone, Copy, PartialEq, Eq, Debug)]
pub enum CashKind {
    Shanghai = 1,
    Other = 2,
}

impl From<CashKind> for u64 {
    ghost from_gives = { λ kind number. number ≡ cash_number kind };

    fn from(kind: CashKind) -> u64 {
        kind as u64
    }
}
