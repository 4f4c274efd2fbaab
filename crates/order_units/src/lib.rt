// Moves an order's units and cash, and counts its units.
#![tactic(auto)]

ghost use Rattle.std.specs.Prelude.{◌≡◌, ◌+◌, ◌*◌, ◌≤◌, ◌<◌, ◌^◌, length};
ghost use Rattle.layout.specs.Book.{cash, head_at, put_head};
ghost use Rattle.rules.specs.Orders.{opposite_kind};
ghost use Rattle.rules.specs.Kinds.{account_cash, fund_cash};
ghost use Rattle.book.specs.Moved.{rest_of, rest_moves};
ghost use Rattle.book.specs.Ready.{CashReady, AccountRest, RestReady};

use rules::Kind;
use units::Money;

// Cash held after the cash `c` of an order, for a side that pays on creation and is paid on redemption, as the account is. A number: it is
// read from the book and goes back there.
#[tactic(auto, unfolding(rules::specs::Kinds::account_cash))]
fn cash_after(kind: Kind, held: u64, c: Money) -> u64
    requires { CashReady kind held c.0 }
    ensures { result ≡ account_cash kind held c.0 }
{
    match kind {
        Kind::Creation => held - c.0,
        Kind::Redemption => held + c.0,
    }
}

// The fund's cash goes the opposite way.
#[tactic(auto, using(book::proofs::Stock::cash_opposite), unfolding(layout::specs::Book::head_at, layout::specs::Book::put_head))]
fn fund_head(kind: Kind, stretch: &mut [u64], c: Money)
    requires stretch_nonzero { 0 < length stretch.old }
    requires ready { CashReady (opposite_kind kind) (head_at stretch.old cash) c.0 }
    ensures { stretch.new ≡ put_head cash (fund_cash kind (head_at stretch.old cash) c.0) stretch.old }
{
    stretch[layout::CASH] = cash_after(kind.opposite(), stretch[layout::CASH], c);
}

// The account's part of an order beside its stock: units, which go the opposite way to stock, cash and counter. `line` is the unit's.
#[tactic(auto, using(crate::proofs::Laws::rest_laws), unfolding(layout::specs::Book::head_at, layout::specs::Book::put_head, layout::specs::Book::on_line, book::specs::Moved::rest_of))]
fn account_rest(kind: Kind, stretch: &mut [u64], line: usize, units: u64, c: Money)
    requires { AccountRest kind line stretch.old units c.0 }
    ensures { stretch.new ≡ rest_of kind line units c.0 stretch.old }
{
    let x = layout::lots_at(stretch, line);
    let y = book::account_lots(kind.opposite(), x, units);
    layout::put_lots(stretch, line, y);
    let counter = kind.counter();
    let count = stretch[counter] + units;
    stretch[layout::CASH] = cash_after(kind, stretch[layout::CASH], c);
    stretch[counter] = count;
}

// An order beside its stock, in a fund of `count` components: the fund's cash, and the account's units, cash and counter. The fund's
// stretch is the book's first.
#[tactic(auto, using(book::proofs::Sides::first_is))]
pub fn move_rest(kind: Kind, count: usize, book: &mut [u64], a: usize, units: u64, c: Money)
    requires { RestReady kind count book.old a units c.0 }
    ensures { book.new ≡ rest_moves kind count a units c.0 book.old }
{
    let w = layout::width_of(count);
    fund_head(kind, &mut book[..w], c);
    account_rest(kind, &mut book[layout::stretch_at(w, a)], count, units, c);
}
