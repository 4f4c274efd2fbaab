// Refusal 5: whether a day, its book and its prices are sound. And whether they have what every call keeps.
#![tactic(auto)]

ghost use Rattle.std.specs.Prelude.{◌≡◌, true, ◌+◌, ◌*◌, ◌≤◌, length, nat_le};
ghost use Rattle.sequences.specs.Below.{all_below};
ghost use Rattle.totals.specs.Totals.{most_rows, number_at, total, Capped};
ghost use Rattle.layout.specs.Places.{most_components};
ghost use Rattle.layout.specs.Book.{width_of, behind_line};
ghost use Rattle.rules.specs.Opening.{day_sizes_fit};
ghost use Rattle.rules.specs.Sound.{is_sound, is_kept};
ghost use Rattle.sound.specs.Parts.{line_of, line_fits, totals_fit, line_still, stretch_still, price_fits, room_left};

use layout::DayView;
use totals::Rows;

// `n ≤ most_components` and `Capped` stand in the contracts below: both come from tests and sums made here, of any numbers that are lent,
// and a type that carries them would be made for these few calls alone.

// Whether a line totals at most so much.
#[tactic(auto, using(std::proofs::lemmas::Bool::Decides::nat_tests), unfolding(totals::specs::Totals::number_at, layout::specs::Book::lots_at))]
fn line_fits(totals: &[u64], line: usize, most: u64) -> bool
    requires { (behind_line line ≤ length totals.now) × Capped (length totals.now) totals.now }
    ensures { result ≡ nat_le (line_of (number_at totals.now) line) most }
{
    let lots = layout::lots_at(totals, line);
    lots.old + lots.bought + lots.got <= most
}

// Whether every line is within its limit, lines by their number. Line `n` is the unit.
fn lines_fit(totals: &[u64], n: usize) -> bool
    requires { (n ≤ most_components) × (length totals.now ≡ width_of n) × Capped (length totals.now) totals.now }
    ensures { result ≡ all_below (line_fits n (number_at totals.now)) (n + 1) }
{
    (0..n).all(|line| line_fits(totals, line, rules::MOST_OF_LINE))
        && line_fits(totals, n, rules::MOST_UNITS)
}

// Whether cash, the counters and every line are within their limits.
#[tactic(auto, using(std::proofs::lemmas::Bool::Decides::nat_tests), unfolding(crate::specs::Parts::totals_fit, totals::specs::Totals::number_at, sequences::specs::Every::every))]
fn totals_fit(totals: &[u64], n: usize) -> bool
    requires { (n ≤ most_components) × (length totals.now ≡ width_of n) × Capped (length totals.now) totals.now }
    ensures { result ≡ totals_fit n (number_at totals.now) }
{
    totals[layout::CASH] <= rules::MOST_CASH
        && totals[layout::CREATED] <= fund::CEILING
        && totals[layout::REDEEMED] <= fund::CEILING
        && lines_fit(totals, n)
}

// A book as rows: an account's stretch each.
fn rows_of(book: &[u64], accounts: usize, n: usize) -> Rows<'_>
    requires { (n ≤ most_components) × (length book.now ≡ accounts * width_of n) }
    ensures run { result.run.now ≡ book.now }
    ensures rows { result.rows ≡ accounts }
    ensures width { result.width ≡ width_of n }
{
    Rows {
        run: book,
        rows: accounts,
        width: layout::width_of(n),
    }
}

// Whether the totals of a book, as far as 2^62, are within their limits, which are all below that. They stand in room for the widest row,
// since the library has no heap.
#[tactic(auto, using(std::proofs::lemmas::Slice::overwrites, totals::proofs::Sums::capped_le))]
fn book_fits(book: &Rows, n: usize) -> bool
    requires { (n ≤ most_components) × (book.now.rows ≤ most_rows) × (book.now.width ≡ width_of n) }
    ensures { result ≡ totals_fit n (total book.now.run.now (width_of n) book.now.rows) }
{
    let mut places = [0u64; layout::MOST_WIDTH];
    let totals = &mut places[..book.width];
    book.fill(totals);
    totals_fit(totals, n)
}

#[tactic(auto, using(std::proofs::lemmas::Bool::Decides::nat_tests), unfolding(crate::specs::Parts::line_still, layout::specs::Book::lots_at, sequences::specs::Every::every))]
fn line_still(book: &[u64], line: usize) -> bool
    requires { (line ≤ most_components) × (behind_line line ≤ length book.now) }
    ensures { result ≡ line_still book.now line }
{
    let lots = layout::lots_at(book, line);
    lots.bought == 0 && lots.got == 0
}

fn lines_still(book: &[u64], n: usize) -> bool
    requires { (n ≤ most_components) × (width_of n ≤ length book.now) }
    ensures { result ≡ all_below (line_still book.now) (n + 1) }
{
    // Lines by their number, which layout reads them by: chunks of three numbers would say their lots by place.
    (0..n + 1).all(|line| line_still(book, line))
}

// Whether the fund, the first account, has no units, and counters and bought and got lots of 0.
#[tactic(auto, using(std::proofs::lemmas::Bool::Decides::nat_tests), unfolding(crate::specs::Parts::stretch_still, layout::specs::Book::lots_at, sequences::specs::Every::every))]
fn fund_still(book: &[u64], n: usize) -> bool
    requires { (n ≤ most_components) × (width_of n ≤ length book.now) }
    ensures { result ≡ stretch_still n book.now }
{
    book[layout::CREATED] == 0
        && book[layout::REDEEMED] == 0
        && layout::lots_at(book, n).old == 0
        && lines_still(book, n)
}

fn prices_fit(prices: &[u64]) -> bool
    ensures { result ≡ all_below (price_fits prices.now) (length prices.now) }
{
    prices.iter().all(|price| *price <= rules::MOST_PRICE)
}

// A, N and the lengths of the book and of the prices.
#[tactic(auto, using(std::proofs::lemmas::Bool::Decides::nat_tests), unfolding(rules::specs::Opening::day_sizes_fit, sequences::specs::Every::every, sequences::specs::Every::inside))]
pub fn sizes_fit(accounts: usize, n: usize, book: usize, prices: usize) -> bool
    ensures { result ≡ day_sizes_fit accounts n book prices }
{
    (2..=64).contains(&accounts)
        && (1..=layout::MOST_COMPONENTS).contains(&n)
        && book == accounts * layout::width_of(n)
        && prices == n
}

// Refusal 5's test.
#[tactic(auto, using(rules::proofs::SoundDay::sizes_facts, crate::proofs::Limits::sizes_first))]
pub fn is_sound(day: &DayView, book: &[u64], prices: &[u64]) -> bool
    ensures { result ≡ is_sound day.now book.now prices.now }
{
    let accounts = day.accounts();
    let n = day.count();
    let table = day.table();
    let fund = day.fund();
    let basket = day.basket();
    sizes_fit(accounts, n, book.len(), prices.len())
        && flags::table_fault(table).is_none()
        && fund::fund_in_range(fund)
        && fund::run_fault(table, fund.first_code, basket, n).is_none()
        && prices_fit(prices)
        && fund_still(book, n)
        && book_fits(&rows_of(book, accounts, n), n)
}

// Whether there is room for all the units that the ceiling still lets be created.
#[tactic(auto, using(crate::proofs::Limits::room_totals), unfolding(crate::specs::Parts::room_left))]
fn room_left(book: &Rows, n: usize) -> bool
    requires { (n ≤ most_components) × (book.now.width ≡ width_of n) × (totals_fit n (total book.now.run.now (width_of n) book.now.rows) ≡ true) }
    ensures { result ≡ room_left n (total book.now.run.now (width_of n) book.now.rows) }
{
    let at = layout::line_at(n);
    let old = book.total_at(at);
    let bought = book.total_at(at + 1);
    let got = book.total_at(at + 2);
    let created = book.total_at(layout::CREATED);
    old + bought + got + (fund::CEILING - created) <= rules::MOST_UNITS
}

// What every call keeps: sound, with that room.
#[tactic(auto, using(rules::proofs::SoundDay::sound_facts, crate::proofs::Limits::fits_true, crate::proofs::Day::day_fits, crate::proofs::Day::kept_room, crate::proofs::Day::unkept_unsound))]
pub fn is_kept(day: &DayView, book: &[u64], prices: &[u64]) -> bool
    ensures { result ≡ is_kept day.now book.now prices.now }
{
    let n = day.count();
    is_sound(day, book, prices) && room_left(&rows_of(book, day.accounts(), n), n)
}
