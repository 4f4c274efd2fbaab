// Writes one cell of a component line: a number or words, with the bar behind it, or the line's end.
#![tactic(auto)]

ghost use Rattle.std.specs.Prelude.{◌≡◌, true, [], ◌∷◌, ◌++◌, ◌+◌, ◌≤◌, ◌<◌, length, take, drop, replicate};
ghost use Rattle.digits.specs.Digits.{plain, number_text};
ghost use Rattle.digits.specs.Fits.{Fits};
ghost use Rattle.digits.specs.Written.{put};
ghost use Rattle.text_rules.specs.Columns.{number_form};
ghost use Rattle.text_cells_writing.specs.Cells.{used_text};

use digits::Figure;
use text_rules::Column;

// Writes a number into its cell, which holds only blanks.
#[tactic(auto, using(crate::proofs::Cells::number_room, crate::proofs::Cells::number_put), unfolding(text_rules::specs::Columns::number_form))]
fn put_number(cell: &mut [u8], column: Column, n: u64)
    requires cell_value { cell.old ≡ replicate column.width 32 }
    requires fits { Fits (number_form column) (plain n) }
    ensures { cell.new ≡ number_text (number_form column) (plain n) }
{
    digits_writing::put_signed(cell, column.form(Some(column.width)), Figure::from(n));
}

// All rows and a place, and not the part alone: the laws of the loops over the lines speak of what is put at a place of all rows.

// Writes a number into its place in a line, where the column is used, and the bar behind it. `used` and no Option: the run has the
// column's number either way.
#[tactic(auto, using(crate::proofs::Cells::unused_put, crate::proofs::Cells::used_put))]
pub fn put_cell(rows: &mut [u8], at: usize, column: Column, used: bool, n: u64)
    requires room { at + column.width < length rows.old }
    requires cell_value { take column.width (drop at rows.old) ≡ replicate column.width 32 }
    requires fits { used ≡ true → Fits (number_form column) (plain n) }
    ensures { rows.new ≡ put rows.old at (used_text used column n) }
{
    let e = at + column.width;
    if used {
        put_number(&mut rows[at..e], column, n);
    }
    rows[e] = text_rules::BAR;
}

// Writes words into their place in a line, and the bar behind them.
#[tactic(auto, using(crate::proofs::Cells::words_put))]
pub fn put_words(rows: &mut [u8], at: usize, words: &[u8])
    requires { at + length words.now < length rows.old }
    ensures { rows.new ≡ put rows.old at (words.now ++ 124 ∷ []) }
{
    let bar = digits_put::put_bytes(rows, at, words);
    rows[bar] = text_rules::BAR;
}

// Writes the end of a line.
pub fn put_end(rows: &mut [u8], at: usize)
    requires { at + 2 ≤ length rows.old }
    ensures { rows.new ≡ put rows.old at (13 ∷ 10 ∷ []) }
{
    digits_put::put_bytes(rows, at, b"\r\n");
}
