// What an order makes of one component.
#![tactic(auto)]

ghost use Rattle.std.specs.Prelude.{true, ◌≡◌, ◌≤◌};
ghost use Rattle.flags.specs.Table.{entry, column_number, flag_count, stock_moves, table_fault};
ghost use Rattle.rules.specs.Sound.{most_price};
ghost use Rattle.rules.specs.Orders.{most_baskets};
ghost use Rattle.order_lines.specs.Lines.{effect_of, in_market, need_of, creation_line, redemption_line, amount_due, amount_line, order_line};
ghost use Rattle.order_lines.specs.Ready.{Ranged};

use flags::{Column, Table};
use layout::Component;
use rules::{CashByMarket, Kind};
use units::Money;

// What an order makes of a component.
#[derive(Clone, Copy)]
pub enum Line {
    // Stock, for which no cash stands: whether there is not enough of it, and how much moves, which may be 0.
    Stock {
        short: bool,
        moved: u64,
    },
    // Stock of which some is missing, for which cash stands: how much is missing (no code reads it; the contract says it), its worth
    // without the premium, the cash for it, and how much moves.
    InCash {
        missing: u64,
        worth: Money,
        cash: CashByMarket,
        moved: u64,
    },
    // Its amount, where no stock of it moves.
    Amount(CashByMarket),
}

// A component in an order of so many baskets, both in the ranges under which no number of a line wraps, and the flag table of the day, which
// loads.
#[derive(Drop)]
pub struct Part<'a> {
    pub component: Component,
    pub table: &'a Table,
    pub baskets: u64,
    pub ghost ranged: { Ranged table.now component },
    pub ghost few: { baskets ≤ most_baskets },
    pub ghost loads: { table_fault table.now ≡ flag_count },
}

impl Part<'_> {
    // What the order needs of it.
    fn need(&self) -> u64
        ensures { result ≡ need_of self.now.component self.now.baskets }
    {
        self.baskets * self.component.quantity
    }

    // What the flag table has for it in a column.
    fn entry(&self, column: Column) -> bool
        ensures { result ≡ entry self.now.table.now self.now.component.flag (column_number column) }
    {
        flags::entry_in_use(self.table, self.component.flag, column)
    }

    // Cash for it, which goes to its market.
    fn in_market(&self, cash: Money) -> CashByMarket
        ensures { result ≡ in_market self.now.table.now self.now.component cash.0 }
    {
        if self.entry(Column::Shanghai) {
            CashByMarket {
                shanghai: cash,
                ..CashByMarket::default()
            }
        } else {
            CashByMarket {
                other: cash,
                ..CashByMarket::default()
            }
        }
    }

    // An amount that stands for it: with the premium on creation, less the discount on redemption.
    #[tactic(auto, unfolding(crate::specs::Lines::amount_due))]
    fn amount_due(&self, kind: Kind, amount: Money) -> Money
        requires { amount.0 ≤ 1_999_999_999_980 }
        ensures { result.0 ≡ amount_due kind self.now.component amount.0 }
    {
        let c = self.component;
        match kind {
            Kind::Creation => amount.with_premium(c.premium),
            Kind::Redemption => amount.with_discount(c.discount),
        }
    }

    // Its line where no stock of it moves: its amount alone.
    #[tactic(auto, unfolding(crate::specs::Lines::amount_line))]
    fn amount_line(&self, kind: Kind) -> Line
        ensures { effect_of result ≡ amount_line kind self.now.table.now self.now.component self.now.baskets }
    {
        let amount = Money(self.baskets * self.component.amount.0);
        Line::Amount(self.in_market(self.amount_due(kind, amount)))
    }

    // Its line where stock of it moves in a creation, for an account that has so much of it to hand in. A redemption has a function of
    // its own: only here may cash stand for stock, so that one for both would ask for the kind three times.
    fn creation_line(&self, have: u64, price: u64) -> Line
        requires { (entry self.now.table.now self.now.component.flag stock_moves ≡ true) × (price ≤ most_price) }
        ensures { effect_of result ≡ creation_line self.now.table.now self.now.component have price self.now.baskets }
    {
        let need = self.need();
        let moved = need.min(have);
        if have < need && self.entry(Column::ShortageInCash) {
            let missing = need - have;
            let worth = Money(missing * price);
            let cash = worth.with_premium(self.component.premium);
            return Line::InCash {
                missing,
                worth,
                cash: self.in_market(cash),
                moved,
            };
        }
        Line::Stock {
            short: have < need,
            moved,
        }
    }

    // Its line where stock of it moves in a redemption, of which the fund has so much. Stock is delivered in full.
    #[tactic(auto, using(crate::proofs::Laws::delivered_line))]
    fn redemption_line(&self, have: u64) -> Line
        requires { entry self.now.table.now self.now.component.flag stock_moves ≡ true }
        ensures { effect_of result ≡ redemption_line self.now.table.now self.now.component have self.now.baskets }
    {
        let delivered = self.need();
        Line::Stock {
            short: have < delivered,
            moved: delivered,
        }
    }

    // Its line in an order of either kind.
    #[tactic(auto, using(crate::proofs::Laws::amount_is), unfolding(crate::specs::Lines::order_line))]
    pub fn order_line(&self, kind: Kind, have: u64, price: u64) -> Line
        requires { price ≤ most_price }
        ensures { effect_of result ≡ order_line kind self.now.table.now self.now.component have price self.now.baskets }
    {
        if !self.entry(Column::StockMoves) {
            return self.amount_line(kind);
        }
        match kind {
            Kind::Creation => self.creation_line(have, price),
            Kind::Redemption => self.redemption_line(have),
        }
    }
}
