// One component line, by a table of columns: its width and bars, and what a column with a number says.
#![tactic(auto)]

ghost use Rattle.std.specs.Prelude.{◌≡◌, ◌-◌, ◌≤◌, true, length, Some, is_some};
ghost use Rattle.digits.specs.Bytes.{zero_byte};
ghost use Rattle.digits.specs.Digits.{cap, all_blank, size_reading};
ghost use Rattle.text_rules.specs.Columns.{line_width, is_row};
ghost use Rattle.text_rules.specs.Well.{most_width};
ghost use Rattle.text_columns.specs.Read.{cell_size};
ghost use Rattle.text_columns.specs.Known.{low_from};

use text_rules::{BAR, Column, Columns};

// Whether the line has its width and its bars. `width` is the columns', added up once for all lines by `text_lines::row_count`.
#[tactic(auto, using(crate::proofs::Columns::bars))]
pub fn is_row(columns: &Columns, width: usize, line: &[u8]) -> bool
    requires { width ≡ line_width columns.now }
    ensures { result ≡ is_row columns.now line.now }
{
    if line.len() != width {
        return false;
    }
    // By place: the length is tested once; parts cut off the line one by one would be tested each, and be no plainer.
    let mut at = 0;
    for column in columns.table() {
        let bar = at + column.width;
        if line[bar] != BAR {
            return false;
        }
        at = bar + 1;
    }
    true
}

// The byte less "0": the flag's digit; 0 for a byte below "0", and for one above "9" a number that no flag has.
pub fn flag_digit(b: u8) -> u64
    ensures { result ≡ b - zero_byte }
{
    u64::from(b.saturating_sub(b'0'))
}

// 0 for a column of blanks.
fn read_blanks(s: &[u8]) -> Option<u64>
    ensures { result ≡ size_reading (all_blank s.now) 0 }
{
    digits_scan::is_blank(s).then_some(0)
}

// The number of a column; 0 for its blanks where it is not used, as the flag table says. Its form has no width: the blanks are passed
// over here. `used` and no Option, as in `text_cells_writing::put_cell`: it is what the flag table says of the line, which the caller has.
// Inlined, so that each column's form is known where it is read.
#[inline(always)]
#[tactic(auto, using(crate::proofs::Numbers::cells))]
pub fn read_cell(column: Column, used: bool, s: &[u8]) -> Option<u64>
    requires { length s.now ≤ most_width }
    ensures { result ≡ cell_size used column.digits column.decimals s.now }
{
    if !used {
        return read_blanks(s);
    }
    // A column is too narrow for the cap.
    digits_reading::read_plain::<false>(column.form(None), digits_scan::trimmed(s))
}

// What the low four bits of the bytes spell as digits, read on after the number before: a digit's are its value, and a blank's are 0.
#[inline(always)]
fn read_low(s: &[u8], before: u64) -> u64
    requires { low_from before s.now ≤ cap }
    ensures { result ≡ low_from before s.now }
{
    let mut a = before;
    for b in s {
        a = a * 10 + u64::from(*b % 16);
    }
    a
}

// What `read_cell` reads, of a column that is known to be right: blanks count as 0, and the point is left out.
#[inline(always)]
#[tactic(auto, using(crate::proofs::Known::known_cells))]
pub fn known_cell(column: Column, used: bool, s: &[u8]) -> u64
    requires narrow { length s.now ≤ most_width }
    requires right { is_some (cell_size used column.digits column.decimals s.now) ≡ true }
    ensures { cell_size used column.digits column.decimals s.now ≡ Some result }
{
    if !used {
        return 0;
    }
    let k = column.decimals;
    if k == 0 {
        return read_low(s, 0);
    }
    let (whole, rest) = s.split_at(s.len() - (k + 1));
    read_low(&rest[1..], read_low(whole, 0))
}
