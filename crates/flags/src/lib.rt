// The flag table, the only place that knows a flag's columns, and refusal 21's test of one. The casts by `as` lose nothing: usize and
// u64 both have 64 bits.
#![tactic(auto)]

ghost use Rattle.std.specs.Prelude.{◌≡◌, ◌≢◌, MatchOption, length, true};
ghost use Rattle.sequences.specs.Below.{below};
ghost use Rattle.flags.specs.Table.{entry, column_number, flag_count, says, is_binary, use_fits, shortage_fits, row_fits, table_fault, table_of, table_width, in_use, flag_table};

// How many flags and how many columns a table has, and how many numbers.
pub const FLAGS: usize = 10;

pub const COLUMNS: usize = 7;

pub const TABLE_WIDTH: usize = FLAGS * COLUMNS;

// The columns, by their places.
#[derive(Clone, Copy, PartialEq, Eq, Debug)]
pub enum Column {
    StockMoves,
    ShortageInCash,
    RateUsed,
    AmountUsed,
    Shanghai,
    Priced,
    InUse,
}

impl Column {
    // Its place. No `From`: as a number it is a place alone.
    pub fn number(self) -> usize
        ensures { result ≡ column_number self }
    {
        self as usize
    }
}

// A row's numbers, by column; 1 says yes. Any number may stand, as in a run that crosses from C: refusal 21 tests them.
pub type Row = [u64; COLUMNS];

// A table, by flag and column: the array of arrays that the project names.
pub type Table = [Row; FLAGS];

// Ours: flags 5 to 9 are not in use.
pub const TABLE: Table = [
    [1, 0, 0, 0, 1, 1, 1],
    [1, 1, 1, 0, 1, 1, 1],
    [0, 0, 0, 1, 1, 0, 1],
    [0, 0, 1, 1, 0, 1, 1],
    [0, 0, 0, 1, 0, 0, 1],
    [0; COLUMNS],
    [0; COLUMNS],
    [0; COLUMNS],
    [0; COLUMNS],
    [0; COLUMNS],
];

// Our table, which the code takes where none is given.
#[tactic(auto, unfolding(crate::specs::Table::flag_table))]
pub fn our_table() -> &'static Table
    ensures { result.now ≡ flag_table }
{
    &TABLE
}

// The table that a run of its numbers says, where it lies.
#[tactic(auto)]
pub fn table_at(numbers: &[u64]) -> &Table
    requires { length numbers.now ≡ table_width }
    ensures { result.now ≡ table_of numbers.now }
{
    let (rows, _) = numbers.as_chunks::<COLUMNS>();
    rows.as_array().unwrap()
}

// The same of any run: none where it has another length.
pub fn table_in(numbers: &[u64]) -> Option<&Table>
    ensures { MatchOption result (length numbers.now ≢ table_width) (λ table. table.now ≡ table_of numbers.now) }
{
    (numbers.len() == TABLE_WIDTH).then(|| table_at(numbers))
}

// What a table has for a flag in a column: yes only where the flag is in use.
pub fn entry_of(table: &Table, flag: u64, column: Column) -> bool
    ensures { result ≡ entry table.now flag (column_number column) }
{
    entry_in(table, flag, column.number())
}

// The same of a flag that is in use, as that of each component of a sound day is: its column alone is read.
#[tactic(auto, using(crate::proofs::Laws::entry_says, crate::proofs::Laws::entry_row), unfolding(crate::specs::Table::says))]
pub fn entry_in_use(table: &Table, flag: u64, column: Column) -> bool
    requires { entry table.now flag in_use ≡ true }
    ensures { result ≡ entry table.now flag (column_number column) }
{
    table[flag as usize][column.number()] == 1
}

// The same as `entry_of` of a column by its place, as a text's table of columns has it; no past either end.
#[tactic(auto, using(std::proofs::lemmas::Bool::Decides::nat_tests), unfolding(crate::specs::Table::entry, crate::specs::Table::says))]
pub fn entry_in(table: &Table, flag: u64, column: usize) -> bool
    ensures { result ≡ entry table.now flag column }
{
    flag < FLAGS as u64
        && column < COLUMNS
        && table[flag as usize][Column::InUse.number()] == 1
        && table[flag as usize][column] == 1
}

#[tactic(auto, unfolding(crate::specs::Table::says))]
fn says(row: &Row, column: Column) -> bool
    ensures { result ≡ says row.now (column_number column) }
{
    row[column.number()] == 1
}

#[tactic(auto, unfolding(crate::specs::Table::is_binary))]
fn is_binary(row: &Row) -> bool
    ensures { result ≡ is_binary row.now }
{
    row.iter().all(|number| *number <= 1)
}

// A flag in use either moves stock, is Shanghai, is priced and uses no amount, or moves none and uses an amount.
#[tactic(auto, unfolding(crate::specs::Table::use_fits, sequences::specs::Every::every))]
fn use_fits(row: &Row) -> bool
    ensures { result ≡ use_fits row.now }
{
    if says(row, Column::StockMoves) {
        says(row, Column::Shanghai) && says(row, Column::Priced) && !says(row, Column::AmountUsed)
    } else {
        says(row, Column::AmountUsed)
    }
}

// Cash stands for a shortage only where stock moves, and then the rate is used.
#[tactic(auto, unfolding(crate::specs::Table::shortage_fits, sequences::specs::Every::every))]
fn shortage_fits(row: &Row) -> bool
    ensures { result ≡ shortage_fits row.now }
{
    !says(row, Column::ShortageInCash)
        || says(row, Column::StockMoves) && says(row, Column::RateUsed)
}

#[tactic(auto, unfolding(crate::specs::Table::row_fits, sequences::specs::Every::every))]
fn row_fits(row: &Row) -> bool
    ensures { result ≡ row_fits row.now }
{
    is_binary(row) && (!says(row, Column::InUse) || use_fits(row) && shortage_fits(row))
}

// Refusal 21's test: the lowest flag at fault.
#[tactic(auto, unfolding(crate::specs::Table::table_fault))]
pub fn table_fault(table: &Table) -> Option<usize>
    ensures { result ≡ below flag_count (table_fault table.now) }
{
    table.iter().position(|row| !row_fits(row))
}
