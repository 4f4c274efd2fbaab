// Opening and the list text with the fund, the fields and the flag table as runs of numbers: refusal 1 where fund or fields have not their
// width. An empty run is no table, and then it is ours; one of another length than a table's is 1 at opening, and 21 in the text calls.
// The casts by `as` lose nothing: usize and u64 both have 64 bits.
#![tactic(auto)]

ghost use Rattle.std.specs.Prelude.{◌≡◌};
ghost use Rattle.rules.specs.Replies.{answer_reply, count_answer_reply};
ghost use Rattle.list_rules.specs.Reading.{name_place, letters_place};
ghost use Rattle.list_rules.specs.Writing.{listing};
ghost use Rattle.list_layout.specs.Run.{fields_at};
ghost use Rattle.flat_calls.specs.Table.{numbers_given, TableGiven};
ghost use Rattle.flat_calls.specs.Opening.{flat_given, FlatOutcome};
ghost use Rattle.flat_calls.specs.Text.{taking, TextRead, part_kept, TextWritten};

use flags::Table;
use layout::DayHead;
use list_rules::{Listing, TextPart};
use opening::Given;
use rules::Refusal;

// How many numbers a part of a text takes: its place and its length.
const PART_WIDTH: usize = 2;

// The numbers of the table that a lent run gives.
#[tactic(auto, unfolding(crate::specs::Table::numbers_given))]
fn numbers_given(table: &[u64]) -> &[u64]
    ensures { result.now ≡ numbers_given table.now }
{
    if table.is_empty() {
        return flags::our_table().as_flattened();
    }
    table
}

// The table of a call on a text, where it loads; else 21, at place 0 where the run has another length than a table's.
#[tactic(auto, using(crate::proofs::Tables::short_run, crate::proofs::Tables::table_faulty, crate::proofs::Tables::table_loads))]
fn table_given(table: &[u64]) -> Result<&Table, Refusal>
    ensures { TableGiven table.now result }
{
    let numbers = numbers_given(table);
    if numbers.len() != flags::TABLE_WIDTH {
        return Err(Refusal::FlagTable(0));
    }
    let table = flags::table_at(numbers);
    if let Some(flag) = flags::table_fault(table) {
        return Err(Refusal::FlagTable(flag));
    }
    Ok(table)
}

// Opens a day: the book, the prices and the day are filled.
#[tactic(auto, using(std::proofs::lemmas::Bool::Decides::nat_tests), unfolding(crate::specs::Opening::flat_reply, sequences::specs::Checks::is_accepted, rules::specs::Opening::opened_book, rules::specs::Opening::opened_prices, rules::specs::Opening::opened_run))]
pub fn open(
    accounts: usize,
    count: usize,
    fund: &[u64],
    table: &[u64],
    components: &[u64],
    holdings: &[u64],
    book: &mut [u64],
    prices: &mut [u64],
    day: &mut [u64],
) -> Result<(), Refusal>
    ensures { FlatOutcome fund.now (flat_given accounts count fund.now table.now components.now holdings.now book.old prices.old day.old) (answer_reply result).number (answer_reply result).place (answer_reply result).value book.new prices.new day.new }
{
    if fund.len() != layout::FUND_WIDTH {
        return Err(Refusal::Sizes);
    }
    let head = DayHead {
        accounts,
        count,
        fund: layout::fund_of(fund, 0),
    };
    let given = Given {
        head,
        table: numbers_given(table),
        components,
        holdings,
    };
    opening::open(given, book, prices, day)
}

// Reads a list text under a flag table: its fields, its components at the front of the lent run, and where its first component line
// starts. An accepted reading tells the count of components. The place of the first line goes to a lent number, as the fields go to a lent run: with
// a `ListRead` as the answer the C interface would test it once more to store the place, and tell the count by itself.
#[tactic(auto, using(std::proofs::lemmas::Bool::Decides::nat_tests), unfolding(crate::specs::Text::taking_reply, crate::specs::Text::of_width, sequences::specs::Checks::is_accepted, list_rules::specs::Reading::run_after))]
pub fn read(
    text: &[u8],
    table: &[u64],
    run: &mut [u64],
    fields: &mut [u64],
    first_row: &mut u64,
) -> Result<usize, Refusal>
    ensures { TextRead table.now text.now (taking run.old fields.old first_row.old) (count_answer_reply result).number (count_answer_reply result).place (count_answer_reply result).value (taking run.new fields.new first_row.new) }
{
    let table = table_given(table)?;
    // By length: tried by `try_into`, but then nothing is known of what the lent run holds after the call.
    if fields.len() != list_layout::FIELDS_WIDTH {
        return Err(Refusal::Sizes);
    }
    let read = list_reading::read(table, text, run)?;
    fields.copy_from_slice(&list_layout::numbers_of(read.fields));
    *first_row = read.first_row as u64;
    Ok(read.fields.count)
}

// Stores a part's place and length at the front of a run that has room for both, and hands back the length. No Option: an empty part is
// what the C interface hands back where there is none. By places: of what is stored through a slice's `get_mut` nothing is known after it.
#[tactic(auto, using(crate::proofs::Parts::part_stored, crate::proofs::Parts::part_left))]
fn keep_part(part: &mut [u64], found: TextPart) -> u64
    ensures value { result ≡ found.length }
    ensures part { part.new ≡ part_kept found part.old }
{
    if PART_WIDTH <= part.len() {
        part[0] = found.place as u64;
        part[1] = found.length as u64;
    }
    found.length as u64
}

// Where the name of a component stands in a text, from where reading found the first component line. The arguments are those of the C
// interface, one by one.
pub fn name(text: &[u8], first_row: usize, j: usize, part: &mut [u64]) -> u64
    ensures value { result ≡ (name_place text.now first_row j).length }
    ensures part { part.new ≡ part_kept (name_place text.now first_row j) part.old }
{
    let found = list_reading::name_place(text, first_row, j);
    keep_part(part, found)
}

// Where the letters of a text's first line stand.
pub fn letters(text: &[u8], part: &mut [u64]) -> u64
    ensures value { result ≡ (letters_place text.now).length }
    ensures part { part.new ≡ part_kept (letters_place text.now) part.old }
{
    let found = list_reading::letters_place(text);
    keep_part(part, found)
}

// Writes a list under a flag table at the front of the lent output. An accepted writing tells the count of bytes.
#[tactic(auto, using(std::proofs::lemmas::Bool::Decides::nat_tests), unfolding(crate::specs::Text::writing_reply, crate::specs::Text::of_width, sequences::specs::Checks::is_accepted, list_rules::specs::Writing::output_after))]
pub fn write(
    fields: &[u64],
    table: &[u64],
    run: &[u64],
    names: &[u8],
    letters: &[u8],
    output: &mut [u8],
) -> Result<usize, Refusal>
    ensures { TextWritten table.now fields.now (listing (fields_at fields.now) run.now names.now letters.now) output.old (count_answer_reply result).number (count_answer_reply result).place (count_answer_reply result).value output.new }
{
    let table = table_given(table)?;
    let fields = fields.as_array().ok_or(Refusal::Sizes)?;
    let list = Listing {
        fields: list_layout::fields_at(fields),
        run,
        names,
        letters,
    };
    list_writing::write(table, &list, output)
}
