// One pass over the basket for the third stage of an order.
#![tactic(auto)]

ghost use Rattle.std.specs.Prelude.{◌≡◌, ◌+◌, ◌≤◌, ◌<◌, ◌^◌, cond, length};
ghost use Rattle.layout.specs.Book.{behind_line, cash as cash_at, head_at};
ghost use Rattle.layout.specs.Places.{most_components};
ghost use Rattle.rules.specs.Creation.{available};
ghost use Rattle.rules.specs.Kinds.{all_cash, by_kind};
ghost use Rattle.order_lines.specs.Lines.{worth_in, effect_of};
ghost use Rattle.order_scan.specs.Lines.{held_of, stock_count, with_missing, with_line, cash_count, scan_counts};
ghost use Rattle.order_scan.specs.Scans.{order_scan};
ghost use Rattle.order_scan.specs.Ready.{Room, Scannable};

use layout::DayView;
use order_lines::{Line, Part};
use rules::{CashByMarket, Counts, Kind};
use units::Money;

// The two parties of an order, each by its stretch of the book: the account and the fund.
#[derive(Drop)]
pub struct Parties<'a> {
    pub account: &'a [u64],
    pub fund: &'a [u64],
}

impl<'a> Parties<'a> {
    // What there is of a component: what the account can hand in, or the fund's old lot, which is all that the fund has of it.
    #[tactic(auto, unfolding(crate::specs::Lines::held_of))]
    fn held_at(&self, kind: Kind, line: usize) -> u64
        requires { (behind_line line ≤ length self.now.account.now) × (behind_line line ≤ length self.now.fund.now) × (available self.now.account.now line < 2 ^ 64) }
        ensures { result ≡ held_of kind self.now.account.now self.now.fund.now line }
    {
        match kind {
            Kind::Creation => handable_at(self.account, line),
            Kind::Redemption => layout::lots_at(self.fund, line).old,
        }
    }

    // The cash of the side that pays: the account's on creation, the fund's on redemption.
    #[tactic(auto, unfolding(layout::specs::Book::head_at))]
    pub fn cash_held(&self, kind: Kind) -> Money
        requires { (0 < length self.now.account.now) × (0 < length self.now.fund.now) }
        ensures { result.0 ≡ head_at (by_kind kind self.now.account.now self.now.fund.now) cash_at }
    {
        match kind {
            Kind::Creation => Money(self.account[layout::CASH]),
            Kind::Redemption => Money(self.fund[layout::CASH]),
        }
    }
}

// What an order of m baskets makes of the basket. The default is the scan of no component.
#[derive(Clone, Copy, Default)]
pub struct Scan {
    // The first component of which there is not enough.
    pub short: Option<usize>,
    // What missing stock is worth for which cash stands, without the premium.
    pub missing: Option<Money>,
    pub cash: CashByMarket,
    // How many components have stock moved.
    pub stock_records: usize,
}

impl Scan {
    // The scan of the first i components with the next one.
    #[tactic(auto, using(crate::proofs::Lines::no_more), unfolding(crate::specs::Lines::with_line, crate::specs::Lines::with_cash))]
    fn with_line(self, i: usize, line: Line) -> Scan
        requires { Room self i (effect_of line) }
        ensures { result ≡ with_line self i (effect_of line) }
    {
        match line {
            Line::Stock { short, moved } => Scan {
                short: self.short.or(short.then_some(i)),
                stock_records: self.stock_records + stock_count(moved),
                ..self
            },
            Line::InCash {
                worth,
                cash,
                moved,
                ..
            } => Scan {
                missing: with_missing(self.missing, worth),
                cash: self.cash + cash,
                stock_records: self.stock_records + stock_count(moved),
                ..self
            },
            Line::Amount(amount) => Scan {
                cash: self.cash + amount,
                ..self
            },
        }
    }

    // How many records the order makes, with the two of the unit, and how many reports to a party, with the unit's.
    pub fn counts(self) -> Counts
        requires { (self.stock_records ≤ most_components) × (all_cash self.cash < 2 ^ 64) }
        ensures { result ≡ scan_counts self }
    {
        let stock = self.stock_records;
        let cash = self.cash;
        Counts {
            records: 2 + stock + cash_count(cash.other) + cash_count(cash.shanghai),
            reports: 1 + stock + cash.reports(),
        }
    }
}

// What an account can hand in of a line. That the line lies in the stretch is a clause, here and in `held_at`: a stretch is lent as the
// slice that it is.
#[tactic(auto, unfolding(rules::specs::Creation::available))]
pub fn handable_at(stretch: &[u64], line: usize) -> u64
    requires { (behind_line line ≤ length stretch.now) × (available stretch.now line < 2 ^ 64) }
    ensures { result ≡ available stretch.now line }
{
    layout::lots_at(stretch, line).handable()
}

// What is missing is worth with that of one component more.
fn with_missing(found: Option<Money>, more: Money) -> Option<Money>
    requires { worth_in found + more.0 < 2 ^ 64 }
    ensures { result ≡ with_missing found (Some more) }
{
    Some(found.unwrap_or_default() + more)
}

// A record for stock that moved.
fn stock_count(moved: u64) -> usize
    ensures { result ≡ stock_count moved }
{
    usize::from(0 < moved)
}

// How many records an amount of cash takes. `order_records::Out::put_cash` writes them by the same cases, and says why.
#[tactic(auto, unfolding(crate::specs::Lines::cash_count))]
fn cash_count(cash: Money) -> usize
    ensures { result ≡ cash_count cash.0 }
{
    if cash == Money(0) {
        0
    } else if cash < Money::SPLIT {
        1
    } else {
        2
    }
}

// An order of m baskets between the two parties.
#[tactic(auto, using(crate::proofs::Lines::scan_none))]
pub fn order_scan(kind: Kind, day: &DayView, parties: &Parties, prices: &[u64], m: u64) -> Scan
    requires { Scannable day.now parties.now.account.now parties.now.fund.now prices.now m }
    ensures { result ≡ order_scan kind day.now parties.now.account.now parties.now.fund.now prices.now m }
{
    let table = day.table();
    let mut t = Scan::default();
    for (i, price) in prices.iter().enumerate() {
        let part = Part {
            component: day.component(i),
            table,
            baskets: m,
        };
        t = t.with_line(i, part.order_line(kind, parties.held_at(kind, i), *price));
    }
    t
}
