// Moves the stock of one component, from the account to the fund or back.
#![tactic(auto)]

ghost use Rattle.std.specs.Prelude.{true, ◌≡◌, ◌+◌, ◌*◌, ◌≤◌, ◌<◌, ◌^◌, MatchOption};
ghost use Rattle.std.specs.Int.NonZero.{non_zero_u64_get};
ghost use Rattle.sequences.specs.Stretch.{stretch_of};
ghost use Rattle.lots.specs.Lots.{handable};
ghost use Rattle.flags.specs.Table.{entry, in_use};
ghost use Rattle.layout.specs.Book.{lots_at};
ghost use Rattle.rules.specs.declared.Kind.TheVariants.{Redemption};
ghost use Rattle.rules.specs.Kinds.{fund_lots};
ghost use Rattle.book.specs.Moved.{moved_of, line_moves};
ghost use Rattle.book.specs.Ready.{LineReady};

use flags::{Column, Table};
use layout::Component;
use lots::Lots;
use rules::Kind;
use std::num::NonZeroU64;

// What an order of which `q` moves makes of the fund's lots.
#[tactic(auto, unfolding(rules::specs::Kinds::fund_lots))]
fn fund_lots(kind: Kind, x: Lots, q: u64) -> Lots
    requires q_le_x { kind ≡ Redemption → q ≤ x.old }
    requires q_bound { x.old + q < 2 ^ 64 }
    ensures { result ≡ fund_lots kind x q }
{
    match kind {
        Kind::Creation => x.take_in(q),
        Kind::Redemption => x.pay_out(q),
    }
}

// An order as its stock moves: of its kind, on a day with the flag table, by an account of a book with stretches so wide, and of so many
// baskets.
#[derive(Drop)]
pub struct StockOrder<'a> {
    pub kind: Kind,
    pub table: &'a Table,
    pub width: usize,
    pub account: usize,
    pub baskets: u64,
}

impl StockOrder<'_> {
    // The stock of component `c` that it moves, for an account with the lots `x` of it: read off the lots again, as the tests had no room to
    // keep it. No `order_lines::Part`: it asks the ranges of all of a component's numbers, and a move the need's alone.
    #[tactic(auto, unfolding(book::specs::Moved::moved_of))]
    fn stock_moved(&self, c: Component, x: Lots) -> Option<NonZeroU64>
        requires used { entry self.now.table.now c.flag in_use ≡ true }
        requires quantity_bound { self.now.baskets * c.quantity < 2 ^ 62 }
        requires x_bound { handable x < 2 ^ 62 }
        ensures { MatchOption result (moved_of self.now.kind self.now.table.now c self.now.baskets x ≡ 0) (λ q. non_zero_u64_get q ≡ moved_of self.now.kind self.now.table.now c self.now.baskets x) }
    {
        if !flags::entry_in_use(self.table, c.flag, Column::StockMoves) {
            return None;
        }
        let needed = self.baskets * c.quantity;
        let moved = match self.kind {
            Kind::Creation => needed.min(x.handable()),
            Kind::Redemption => needed,
        };
        NonZeroU64::new(moved)
    }

    // Moves the stock of one component and gives how much, read off the account's lots. Where nothing moves, nothing is stored.
    pub fn move_line(&self, book: &mut [u64], c: Component, line: usize) -> Option<NonZeroU64>
        requires { LineReady self.now.kind self.now.table.now c book.old self.now.width self.now.account self.now.baskets line }
        ensures value { MatchOption result (moved_of self.now.kind self.now.table.now c self.now.baskets (lots_at (stretch_of self.now.width book.old self.now.account) line) ≡ 0) (λ q. non_zero_u64_get q ≡ moved_of self.now.kind self.now.table.now c self.now.baskets (lots_at (stretch_of self.now.width book.old self.now.account) line)) }
        ensures book { book.new ≡ line_moves self.now.kind self.now.width self.now.account line (moved_of self.now.kind self.now.table.now c self.now.baskets (lots_at (stretch_of self.now.width book.old self.now.account) line)) book.old }
    {
        let x = book::lots_of(book, self.width, self.account, line);
        let moved = self.stock_moved(c, x)?;
        let q = moved.get();
        let own = book::account_lots(self.kind, x, q);
        book::put_lots_of(book, self.width, self.account, line, own);
        let f = book::lots_of(book, self.width, book::FUND, line);
        let fund = fund_lots(self.kind, f, q);
        book::put_lots_of(book, self.width, book::FUND, line, fund);
        Some(moved)
    }
}
