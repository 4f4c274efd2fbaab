// Opening: its tests, refusals 1, 21 and 2 to 4, and the book, prices and day that an accepted opening leaves.
#![tactic(auto)]

ghost use Rattle.std.specs.Prelude.{◌≡◌, ◌+◌, ◌-◌, ◌*◌, ◌≤◌, length, nat_lt, slice_index};
ghost use Rattle.sequences.specs.Below.{below, first_below, join_below};
ghost use Rattle.sequences.specs.Stretch.{stretch_of, put_stretch};
ghost use Rattle.layout.specs.Places.{most_components};
ghost use Rattle.layout.specs.Book.{width_of};
ghost use Rattle.rules.specs.Replies.{answer_reply};
ghost use Rattle.totals.specs.Totals.{most_rows};
ghost use Rattle.rules.specs.Opening.{most_of_line, total_fault, lent_sizes_fit, opening_reply, opened_stretch};
ghost use Rattle.opening.specs.Given.{given_in, Outcome, totals_in, totals_of};

use layout::DayHead;
use lots::Lots;
use rules::Refusal;
use totals::Rows;

// What an opening is given: the head (A, N and the fund), the numbers of the flag table, the components, and for each account its cash and
// its holding of each line.
#[derive(Drop)]
pub struct Given<'a> {
    pub head: DayHead,
    // A run, as the day holds it and as it crosses from C.
    pub table: &'a [u64],
    pub components: &'a [u64],
    pub holdings: &'a [u64],
}

// The first line that totals too much.
fn line_over(lines: &[u64]) -> Option<usize>
    ensures { result ≡ below (length lines.now) (first_below (λ k. nat_lt most_of_line (slice_index lines.now k)) (length lines.now)) }
{
    lines.iter().position(|total| rules::MOST_OF_LINE < *total)
}

// `count ≤ most_components` stands in the contracts: refusal 1's test says it of any number, and what is given is a caller's, so that a
// type that carries it would be made between the two. Holdings, accounts and count come one by one from here on, and not as `Given`: what
// is asked is of these three alone, and in `open_book` the accounts are for the contract, which says how many stretches there are.

// Refusal 4 by the totals of the holdings' rows, cash first and the unit last, and the fund's units: the lowest place that is over its
// limit, a line, of which `count` is the unit, or one past it for cash. `count` is beside the totals for these two places.
fn first_over(totals: &[u64], units: u64, count: usize) -> Option<usize>
    requires { (count ≤ most_components) × (length totals.now ≡ count + 2) }
    ensures { result ≡ below (count + 2) (total_fault count (totals_in totals.now units)) }
{
    let line = line_over(&totals[1..count + 1]);
    let unit = rules::MOST_OF_LINE < totals[count + 1] || 0 < units;
    let cash = rules::MOST_CASH < totals[0];
    line.or(unit.then_some(count)).or(cash.then_some(count + 1))
}

// The same of the holdings. Their totals, as far as 2^62, will do: every limit is below that.
#[tactic(auto, using(std::proofs::lemmas::Slice::overwrites, crate::proofs::Totals::fault_same))]
fn total_fault(holdings: &[u64], accounts: usize, count: usize) -> Option<usize>
    requires { (1 ≤ accounts) × (accounts ≤ most_rows) × (count ≤ most_components) × (length holdings.now ≡ accounts * (count + 2)) }
    ensures { result ≡ below (count + 2) (total_fault count (totals_of accounts count holdings.now)) }
{
    let width = count + 2;
    let rows = Rows {
        run: holdings,
        rows: accounts,
        width,
    };
    // In room for the widest row, since the library has no heap.
    let mut places = [0u64; layout::MOST_WIDTH];
    let totals = &mut places[..width];
    rows.fill(totals);
    first_over(totals, holdings[count + 1], count)
}

// Refusal 1's test. The ranges come first, so that no product is too large.
#[tactic(auto, using(std::proofs::lemmas::Bool::Decides::nat_tests), unfolding(rules::specs::Opening::lent_sizes_fit, rules::specs::Opening::day_sizes_fit, sequences::specs::Every::every, sequences::specs::Every::inside))]
fn sizes_fit(given: &Given, book: usize, prices: usize, day: usize) -> bool
    ensures { result ≡ lent_sizes_fit given.now.head.accounts given.now.head.count (length given.now.table.now) (length given.now.components.now) (length given.now.holdings.now) book prices day }
{
    let head = given.head;
    sound::sizes_fit(head.accounts, head.count, book, prices)
        && given.table.len() == flags::TABLE_WIDTH
        && given.components.len() == layout::COMPONENT_WIDTH * head.count
        && given.holdings.len() == head.accounts * (head.count + 2)
        && day == layout::DAY_WIDTH
}

// The answer, which changes nothing.
#[tactic(auto, using(crate::proofs::Sizes::lent_facts, crate::proofs::Answer::answer_sizes, crate::proofs::Answer::answer_table, crate::proofs::Answer::answer_fund, crate::proofs::Answer::answer_component, crate::proofs::Answer::answer_total, crate::proofs::Answer::answer_done), unfolding(rules::specs::Opening::components_opened))]
fn opening_answer(given: &Given, book: &[u64], prices: &[u64], day: &[u64]) -> Result<(), Refusal>
    ensures { answer_reply result ≡ opening_reply (given_in given.now book.now prices.now day.now) }
{
    if !sizes_fit(given, book.len(), prices.len(), day.len()) {
        return Err(Refusal::Sizes);
    }
    let table = flags::table_at(given.table);
    if let Some(flag) = flags::table_fault(table) {
        return Err(Refusal::FlagTable(flag));
    }
    let head = given.head;
    if !fund::fund_in_range(head.fund) {
        return Err(Refusal::FundField);
    }
    if let Some(place) = fund::run_fault(
        table,
        head.fund.first_code,
        given.components,
        head.count,
    ) {
        return Err(Refusal::Component(place));
    }
    if let Some(place) = total_fault(given.holdings, head.accounts, head.count) {
        return Err(Refusal::Total(place));
    }
    Ok(())
}

// An account's stretch: its cash and no counters, then each line's holding in old.
fn open_account(stretch: &mut [u64], held: &[u64])
    requires held { 2 ≤ length held.now }
    requires stretch { length stretch.old ≡ width_of (length held.now - 2) }
    ensures { stretch.new ≡ opened_stretch (length held.now - 2) held.now }
{
    stretch[layout::CASH] = held[0];
    stretch[layout::CREATED] = 0;
    stretch[layout::REDEEMED] = 0;
    for (line, old) in held[1..].iter().enumerate() {
        let opened = Lots {
            old: *old,
            ..Lots::default()
        };
        layout::put_lots(stretch, line, opened);
    }
}

// Account a's stretch of the book, from its part of the holdings.
#[tactic(auto, using(sequences::proofs::Stretch::part_is), unfolding(sequences::specs::Stretch::put_stretch))]
fn open_part(book: &mut [u64], held: &[u64], count: usize, a: usize)
    requires book { (count ≤ most_components) × (a * width_of count + width_of count ≤ length book.old) }
    requires held { length held.now ≡ count + 2 }
    ensures { book.new ≡ put_stretch (width_of count) book.old a (opened_stretch count held.now) }
{
    let width = layout::width_of(count);
    open_account(&mut book[layout::stretch_at(width, a)], held);
}

// Every account's stretch.
fn open_book(book: &mut [u64], holdings: &[u64], accounts: usize, count: usize)
    requires count_le_most_components { (count ≤ most_components) × (length book.old ≡ accounts * width_of count) }
    requires holdings_len { length holdings.now ≡ accounts * (count + 2) }
    ensures { book.new ≡ join_below (λ a. opened_stretch count (stretch_of (count + 2) holdings.now a)) accounts }
{
    // Accounts by number: tried by a zip of the book's `chunks_exact_mut` and the holdings' `chunks_exact`, but of the numbers that are
    // written through such pieces nothing is known behind the loop.
    for (a, held) in holdings.chunks_exact(count + 2).enumerate() {
        open_part(book, held, count, a);
    }
}

// Opening: the book, the prices and the day are filled. A refused opening changes nothing.
pub fn open(
    given: Given,
    book: &mut [u64],
    prices: &mut [u64],
    day: &mut [u64],
) -> Result<(), Refusal>
    ensures { Outcome (given_in given.entry book.old prices.old day.old) result book.new prices.new day.new }
{
    opening_answer(&given, book, prices, day)?;
    open_book(book, given.holdings, given.head.accounts, given.head.count);
    prices.fill(0);
    layout::put_day(day, given.head, given.table, given.components);
    Ok(())
}
