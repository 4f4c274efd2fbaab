// The totals of a run of rows of one width: for each place the sum over the rows, as far as 2^62.
#![tactic(auto)]

ghost use Rattle.std.specs.Prelude.{◌≡◌, ℕ, ◌+◌, ◌*◌, ◌%◌, ◌^◌, ◌<◌, ◌≤◌, min, true, false, is_err, length, slice_index};
ghost use Rattle.sequences.specs.Below.{any_below};
ghost use Rattle.totals.specs.Totals.{most_rows, top, quick_most, total, capped_total, plus_row, plus_block, reaches, Low};

// 2^62: above every limit of a day, and four numbers below it add up without wrapping.
pub const TOP: u64 = 1 << 62;

// How many rows are added in one pass: one by one, the totals took 1.25 s where eight at a time took 0.43.
const EIGHT: usize = 8;

// A run of rows of one width. Their number stands beside it, though it is `run.len() / width`: the contracts count rows, and each
// caller, who has the number, would owe a law of the division.
#[derive(Drop)]
pub struct Rows<'a> {
    pub run: &'a [u64],
    pub rows: usize,
    pub width: usize,
    pub ghost whole: { length run.now ≡ rows * width },
}

// A total reaches 2^62: the totals are void.
#[derive(Clone, Copy)]
struct Over;

// Adds a row to the totals. Over where a total reaches 2^62, which is seen on the number added where the total wraps.
#[tactic(auto, using(sequences::proofs::Below::any_none))]
fn add_row(totals: &mut [u64], row: &[u64]) -> Result<(), Over>
    requires same_width { length row.now ≡ length totals.old }
    requires low { Low (length row.now) totals.old }
    ensures value { is_err result ≡ any_below (reaches (plus_row totals.old row.now)) (length row.now) }
    ensures sums { (k : ℕ) → k < length row.now → slice_index totals.new k ≡ plus_row totals.old row.now k % 2 ^ 64 }
{
    let mut high: u64 = 0;
    // By place, as in `add_block`: what is written through a zip of `iter_mut` is not known behind the loop.
    for (j, t) in totals.iter_mut().enumerate() {
        let x = row[j];
        *t = t.wrapping_add(x);
        high |= x | *t;
    }
    if TOP <= high {
        return Err(Over);
    }
    Ok(())
}

// Of the eight numbers at a place of a block's rows: their sum, wrapped, and their or, which is at least each of them.
#[tactic(auto, using(crate::proofs::Sums::total_none))]
fn column(block: &[u64], width: usize, place: usize) -> (u64, u64)
    requires { (place < width) × (length block.now ≡ 8 * width) }
    ensures sum { result.0 ≡ total block.now width 8 place % 2 ^ 64 }
    ensures or { (m : ℕ) → result.1 ≤ m → total block.now width 8 place ≤ 8 * m }
{
    let mut sum: u64 = 0;
    let mut all: u64 = 0;
    // The rows by their number: skip, step_by and a fold over a pair would say the same eight numbers, and no plainer.
    for i in 0..EIGHT {
        let x = block[i * width + place];
        sum = sum.wrapping_add(x);
        all |= x;
    }
    (sum, all)
}

// Adds the eight rows of a block to the totals in one pass, and says whether all their numbers are below 2^56. `column` gives an
// or and no bool: for 64 rows of 905 numbers, as Rust compiles both, 131,500 instructions where a bool for each place took 149,700.
fn add_block(totals: &mut [u64], block: &[u64]) -> bool
    requires { length block.now ≡ 8 * length totals.old }
    ensures small { result ≡ true → (k : ℕ) → k < length totals.old → total block.now (length totals.old) 8 k ≤ 8 * quick_most }
    ensures sums { (k : ℕ) → k < length totals.old → slice_index totals.new k ≡ plus_block totals.old block.now k % 2 ^ 64 }
{
    let width = totals.len();
    let mut all: u64 = 0;
    for (j, t) in totals.iter_mut().enumerate() {
        let (sum, or) = column(block, width, j);
        *t = t.wrapping_add(sum);
        all |= or;
    }
    all < 1 << 56
}

// Fills the totals with those of the first rows, eight at a time, and says of how many. Where all their numbers are below 2^56 no total
// reaches 2^62, so that none has to be looked at. Else the totals are 0, those of no row. `rows ≤ most_rows` is asked here and of all that
// lead here, and is no fact of `Rows`: `total_at` is of any number of rows.
fn add_blocks(totals: &mut [u64], rows: &Rows) -> usize
    requires { (0 < rows.now.width) × (length totals.old ≡ rows.now.width) × (rows.now.rows ≤ most_rows) }
    ensures upper_bound { result ≤ rows.now.rows }
    ensures sums { (k : ℕ) → k < rows.now.width → slice_index totals.new k ≡ total rows.now.run.now rows.now.width result k }
    ensures low { Low rows.now.width totals.new }
{
    totals.fill(0);
    for block in rows.run.chunks_exact(EIGHT * rows.width) {
        if !add_block(totals, block) {
            totals.fill(0);
            return 0;
        }
    }
    rows.rows / EIGHT * EIGHT
}

// Fills the totals with those of all rows. Over where one reaches 2^62.
fn add_all(totals: &mut [u64], rows: &Rows) -> Result<(), Over>
    requires { (0 < rows.now.width) × (length totals.old ≡ rows.now.width) × (rows.now.rows ≤ most_rows) }
    ensures value { is_err result ≡ any_below (reaches (total rows.now.run.now rows.now.width rows.now.rows)) rows.now.width }
    ensures sums { is_err result ≡ false → (k : ℕ) → k < rows.now.width → slice_index totals.new k ≡ total rows.now.run.now rows.now.width rows.now.rows k }
{
    let first = add_blocks(totals, rows);
    for row in rows.run[first * rows.width..].chunks_exact(rows.width) {
        add_row(totals, row)?;
    }
    Ok(())
}

impl<'a> Rows<'a> {
    // The total of one place over all rows, as far as 2^62.
    pub fn total_at(&self, place: usize) -> u64
        requires { place < self.now.width }
        ensures value { result ≡ capped_total self.now.run.now self.now.width self.now.rows place }
        ensures small { result ≤ top }
    {
        let mut sum: u64 = 0;
        for row in self.run.chunks_exact(self.width) {
            sum = sum.saturating_add(row[place]).min(TOP);
        }
        sum
    }

    // Fills the totals place by place.
    #[tactic(auto, using(crate::proofs::Sums::capped_whole))]
    fn total_by_place(&self, totals: &mut [u64])
        requires { length totals.old ≡ self.now.width }
        ensures { (k : ℕ) → k < self.now.width → slice_index totals.new k ≡ capped_total self.now.run.now self.now.width self.now.rows k }
    {
        for (j, t) in totals.iter_mut().enumerate() {
            *t = self.total_at(j);
        }
    }

    // Fills the totals with those of all rows, each as far as 2^62. They are summed place by place only where one reaches it.
    #[tactic(auto, using(crate::proofs::Sums::counted_all, crate::proofs::Sums::counted_capped))]
    pub fn fill(&self, totals: &mut [u64])
        requires { (length totals.old ≡ self.now.width) × (self.now.rows ≤ most_rows) }
        ensures { (k : ℕ) → k < self.now.width → slice_index totals.new k ≡ capped_total self.now.run.now self.now.width self.now.rows k }
    {
        // No places: a run is not cut into rows of none.
        if totals.is_empty() {
            return;
        }
        if add_all(totals, self).is_err() {
            self.total_by_place(totals);
        }
    }
}
