// Creation and redemption, by the kind of order, whose records go to a lent list of structs, and whose reports go to lent runs of
// numbers: the order of the flat form, with a writer over the list (`record_writer`) in the place of the flat run.
#![tactic(auto)]

ghost use Rattle.std.specs.Prelude.{◌≡◌, length};
ghost use Rattle.layout.specs.Day.{day_at};
ghost use Rattle.rules.specs.Replies.{order_answer_reply};
ghost use Rattle.rules.specs.Kinds.{asked_reply, asked_book, rooms_beside};
ghost use Rattle.order_structs.specs.Made.{made_records, made_reports};

use layout::Record;
use record_writer::Writer;
use rules::{Ask, Counts, Refusal};

// Creates or redeems units, by the kind of order; the records and the reports to both parties go to the lent lists. These one by one: tried
// as a struct, which behind `&mut` could not be taken apart into `rules::Lists`.
#[tactic(auto, using(order_calls::proofs::Laws::order_five, order_calls::proofs::Laws::book_five, crate::proofs::Laws::list_five, crate::proofs::Laws::reports_five))]
pub fn order(
    day: &[u64],
    book: &mut [u64],
    prices: &[u64],
    ask: Ask,
    list: &mut [Record],
    investor: &mut [u64],
    fund: &mut [u64],
) -> Result<Counts, Refusal>
    ensures result_value { order_answer_reply result ≡ asked_reply (day_at day.now) book.old prices.now ask (rooms_beside (length list.old) investor.old fund.old) }
    ensures book { book.new ≡ asked_book (day_at day.now) book.old prices.now ask (rooms_beside (length list.old) investor.old fund.old) }
    ensures list { list.new ≡ made_records (day_at day.now) book.old prices.now ask (rooms_beside (length list.old) investor.old fund.old) list.old }
    ensures reports { (investor.new, fund.new) ≡ made_reports (day_at day.now) book.old prices.now ask (rooms_beside (length list.old) investor.old fund.old) investor.old fund.old }
{
    let day = calls::sound_day(day, book, prices)?;
    let mut writer = Writer::new(list);
    orders::order_into(&day, book, prices, ask, &mut writer, investor, fund)
}
