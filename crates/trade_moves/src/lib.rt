// What a trade moves: lots of a line and cash, of the seller and of the buyer.
#![tactic(auto)]

ghost use Rattle.std.specs.Prelude.{◌≡◌, ◌+◌, ◌*◌, ◌≤◌, ◌<◌, ◌^◌, length};
ghost use Rattle.layout.specs.Book.{behind_line, cash as cash_at, put_lots, put_head};
ghost use Rattle.rules.specs.Trade.{moves_of_trade};
ghost use Rattle.book.specs.Ready.{TradeReady};

use lots::Lots;
use rules::Trade;

// Moves the lots of a line and the cash of the account whose part of the book is lent.
#[tactic(auto, unfolding(layout::specs::Book::put_head))]
fn move_side(stretch: &mut [u64], line: usize, lots: Lots, cash: u64)
    requires { behind_line line ≤ length stretch.old }
    ensures { stretch.new ≡ put_head cash_at cash (put_lots stretch.old line lots) }
{
    layout::put_lots(stretch, line, lots);
    stretch[layout::CASH] = cash;
}

// Both sides of a trade, in a fund of `count` components.
#[tactic(auto, using(book::proofs::Sides::middle_put, sequences::proofs::Stretch::part_is, crate::proofs::Trade::sold_side, crate::proofs::Trade::bought_side, crate::proofs::Trade::buyer_ready), unfolding(rules::specs::Trade::trade_moves))]
pub fn move_trade(book: &mut [u64], count: usize, trade: Trade)
    requires { TradeReady count book.old trade }
    ensures { book.new ≡ moves_of_trade count trade book.old }
{
    let Trade {
        line,
        quantity,
        price,
        seller,
        buyer,
    } = trade;
    let width = layout::width_of(count);
    let amount = quantity * price.0;
    let left = book::lots_of(book, width, seller, line).sell(quantity);
    let got = book::head_of(book, width, seller, layout::CASH) + amount;
    let sold = layout::stretch_at(width, seller);
    move_side(&mut book[sold], line, left, got);
    let more = book::lots_of(book, width, buyer, line).buy(quantity);
    let rest = book::head_of(book, width, buyer, layout::CASH) - amount;
    let bought = layout::stretch_at(width, buyer);
    move_side(&mut book[bought], line, more, rest);
}
