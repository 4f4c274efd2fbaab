// Writes the component lines of a text, by their form, column by column.
#![tactic(auto)]

ghost use Rattle.std.specs.Prelude.{ℕ, ◌≡◌, true, [], ◌∷◌, ◌+◌, ◌*◌, ◌≤◌, ◌<◌, length, replicate};
ghost use Rattle.text_rules.specs.Columns.{line_pitch, line_numbers, line_words, taken_pitch};
ghost use Rattle.text_rules.specs.Writing.{rows_text};
ghost use Rattle.text_rules.specs.Well.{most_line, flag_well};
ghost use Rattle.text_rows_writing.specs.Lines.{number_at, word_at, lines_put, BlankAt, NumbersFit, TableReady, RowsFit, RowsReady, RowsSoFar};

use text_rules::{Column, LineForm, Taken};

// `count`, which is ghost in each contract, is how many lines the numbers, the words and the bytes are of. No code takes it.

// A column by its parts, and not by the form and its number as `text_rows` reads: the contracts speak of one column alone, by one
// definition (`lines_put`) for numbers, words and ends. The lengths tie `rows`, which is lent for writing, to runs that are only read.

// Writes a column of numbers into so many lines. `taken` is what the columns before it take, and `line` what all take, added up once;
// its bound is asked with it, since a `Taken` alone holds none.
fn put_numbers_column(
    flags: &flags::Table,
    column: Column,
    taken: Taken,
    line: Taken,
    flag_place: usize,
    run: &[u64],
    rows: &mut [u8],
)
    ghost count: { ℕ }
    requires column_place { (taken.bytes + column.width < taken_pitch line) × (line.bytes ≤ most_line) }
    requires run_len { (length run.now ≡ count * line.numbers) × (flag_place < line.numbers) × (taken.numbers < line.numbers) }
    requires rows_len { (length rows.old ≡ count * taken_pitch line) × BlankAt (taken_pitch line) taken.bytes column.width count rows.old }
    requires numbers_fit { NumbersFit flags.now column run.now line.numbers flag_place taken.numbers count }
    ensures { rows.new ≡ lines_put (taken_pitch line) taken.bytes (number_at flags.now column run.now line.numbers flag_place taken.numbers) count rows.old }
{
    let pitch = line.pitch();
    // The rows by place, as in `put_ends`.
    for (j, numbers) in run.chunks_exact(line.numbers).enumerate() {
        let used = column.used.has_number(flags, numbers[flag_place]);
        let n = numbers[taken.numbers];
        text_cells_writing::put_cell(rows, j * pitch + taken.bytes, column, used, n);
    }
}

// Writes a column of words into so many lines.
fn put_words_column(width: usize, taken: Taken, line: Taken, texts: &[u8], rows: &mut [u8])
    ghost count: { ℕ }
    requires width_bound { (0 < width) × (taken.bytes + width < taken_pitch line) × (line.bytes ≤ most_line) }
    requires texts_len { (length texts.now ≡ count * line.words) × (taken.words + width ≤ line.words) }
    requires rows_len { length rows.old ≡ count * taken_pitch line }
    ensures { rows.new ≡ lines_put (taken_pitch line) taken.bytes (word_at width texts.now line.words taken.words) count rows.old }
{
    let pitch = line.pitch();
    // The rows by place, as in `put_ends`.
    for (j, words) in texts.chunks_exact(line.words).enumerate() {
        let place = j * pitch + taken.bytes;
        text_cells_writing::put_words(rows, place, &words[taken.words..taken.words + width]);
    }
}

// Writes the end of so many lines. Not inlined, as `list_rows::store_rows` for reading: writing would take 2 % more instructions.
#[inline(never)]
#[tactic(auto, using(crate::proofs::Stretches::end_laws))]
fn put_ends(line: Taken, rows: &mut [u8])
    ghost count: { ℕ }
    requires { (length rows.old ≡ count * taken_pitch line) × (line.bytes ≤ most_line) }
    ensures { rows.new ≡ lines_put (taken_pitch line) line.bytes (λ _. 13 ∷ 10 ∷ []) count rows.old }
{
    let pitch = line.pitch();
    // By place: tried by `chunks_exact_mut`, but of what is written through its pieces nothing is known behind the loop.
    for j in 0..rows.len() / pitch {
        text_cells_writing::put_end(rows, j * pitch + line.bytes);
    }
}

// Writes every column into the lines, which hold only blanks. `line` is what a whole line takes.
#[tactic(auto, using(crate::proofs::Rows::rows_start, crate::proofs::Rows::rows_all, text_rules::proofs::Placed::before_first))]
fn put_columns(form: &LineForm, line: Taken, run: &[u64], texts: &[u8], rows: &mut [u8])
    ghost count: { ℕ }
    requires table_ready { TableReady form.now.columns form.now.flag_at line }
    requires rows_ready { RowsReady form.now run.now texts.now count }
    requires rows_value { rows.old ≡ replicate (count * line_pitch form.now.columns) 32 }
    ensures { RowsSoFar form.now run.now texts.now count (length form.now.columns) rows.new }
{
    let columns = form.columns();
    let flags = form.flags();
    let flag_place = form.before_flag().numbers;
    let mut taken = Taken::default();
    for (k, column) in columns.table().iter().enumerate() {
        if column.used.is_text() {
            put_words_column(column.width, taken, line, texts, rows);
        } else {
            put_numbers_column(flags, *column, taken, line, flag_place, run, rows);
        }
        taken = columns.past(k, taken);
    }
}

// Writes so many component lines, each with its end, from their numbers and their words.
#[tactic(auto, using(crate::proofs::Turns::table_ready))]
pub fn put_rows(form: &LineForm, run: &[u64], texts: &[u8], rows: &mut [u8])
    ghost count: { ℕ }
    requires columns_value { flag_well form.now.columns form.now.flag_at ≡ true }
    requires run_len { (length run.now ≡ count * line_numbers form.now.columns) × (length texts.now ≡ count * line_words form.now.columns) }
    requires rows_len { length rows.old ≡ count * line_pitch form.now.columns }
    requires rows_fit { RowsFit form.now run.now texts.now count }
    ensures { rows.new ≡ rows_text form.now run.now texts.now count }
{
    let line = form.columns().whole();
    rows.fill(b' ');
    put_columns(form, line, run, texts, rows);
    put_ends(line, rows);
}
