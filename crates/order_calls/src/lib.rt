// Orders on any day, made or only tested: 5 where the day is not sound, or what the core answers. The tests alone only read. With the
// rooms of the three lists they give the answer that the order would give on lists with such rooms, 5 and 16 among it;
// `order_foretold` has that as theorems. Day, book and prices are parameters of their own, as in `day`.
#![tactic(auto)]

ghost use Rattle.std.specs.Prelude.{◌≡◌};
ghost use Rattle.layout.specs.Day.{day_at};
ghost use Rattle.rules.specs.Replies.{order_answer_reply};
ghost use Rattle.rules.specs.Lent.{rooms_in};
ghost use Rattle.rules.specs.Lists.{lent_in, left_in};
ghost use Rattle.rules.specs.Kinds.{asked_reply, asked_book, asked_lists};

use rules::{Ask, Counts, Lists, Refusal, Rooms};

// Creates or redeems units of an account; the records and the reports to both parties go to the lent lists.
#[tactic(auto, using(crate::proofs::Laws::order_five, crate::proofs::Laws::book_five, crate::proofs::Laws::lists_five, crate::proofs::Laws::order_own, crate::proofs::Laws::leaves_own))]
pub fn order(
    day: &[u64],
    book: &mut [u64],
    prices: &[u64],
    ask: Ask,
    lists: &mut Lists,
) -> Result<Counts, Refusal>
    ensures result_value { order_answer_reply result ≡ asked_reply (day_at day.now) book.old prices.now ask (rooms_in (lent_in lists.old)) }
    ensures book { book.new ≡ asked_book (day_at day.now) book.old prices.now ask (rooms_in (lent_in lists.old)) }
    ensures lists { lists.new ≡ left_in lists.old (asked_lists (day_at day.now) book.old prices.now ask (lent_in lists.old)) }
{
    let day = calls::sound_day(day, book, prices)?;
    orders::order(&day, book, prices, ask, lists)
}

// The tests of an order of either kind.
#[tactic(auto, using(crate::proofs::Laws::order_five, crate::proofs::Laws::order_own))]
pub fn order_test(
    day: &[u64],
    book: &[u64],
    prices: &[u64],
    ask: Ask,
    rooms: Rooms,
) -> Result<Counts, Refusal>
    ensures { order_answer_reply result ≡ asked_reply (day_at day.now) book.now prices.now ask rooms }
{
    let sound = calls::sound_day(day, book, prices)?;
    let accepted = orders::order_tested(&sound, book, prices, ask, rooms)?;
    Ok(accepted.counts)
}
