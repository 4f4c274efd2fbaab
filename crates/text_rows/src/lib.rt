// A component line, by its form: what its columns say.
#![tactic(auto)]

ghost use Rattle.std.specs.Prelude.{◌≡◌, true, false, not, ◌+◌, ◌/◌, ◌≤◌, ◌<◌, length};
ghost use Rattle.sequences.specs.Below.{below};
ghost use Rattle.digits.specs.Digits.{size_reading};
ghost use Rattle.text_rules.specs.Columns.{line_width, holds_text, used_by, part_of, flag_of, wrong_cell, cell_read};
ghost use Rattle.text_rules.specs.Well.{columns_well};
ghost use Rattle.text_rows.specs.Words.{words_fault};

use text_rules::{LineForm, Use};

// The first of the lines, each of so many bytes, whose bytes from a place on are no words.
pub fn words_fault(rows: &[u8], pitch: usize, from: usize, width: usize) -> Option<usize>
    requires { (0 < pitch) × (from + width ≤ pitch) }
    ensures { result ≡ below (length rows.now / pitch) (words_fault rows.now pitch from width (length rows.now / pitch)) }
{
    rows.chunks_exact(pitch)
        .position(|line| !lines::is_name(&line[from..from + width]))
}

// The bytes of column k, and that the columns are well made. This and what follows is inlined, so that the place, the width and the form of
// each column are known where it is read.
#[inline(always)]
#[tactic(auto, using(crate::proofs::Columns::column_room, crate::proofs::Columns::column_part))]
fn part_of<'a>(form: &LineForm, k: usize, row: &'a [u8]) -> &'a [u8]
    requires column { k < length form.now.columns }
    requires row_in_bounds { line_width form.now.columns ≤ length row.now }
    ensures value { result.now ≡ part_of form.now.columns k row.now }
    ensures well { columns_well form.now.columns ≡ true }
{
    let start = form.columns().start(k);
    &row[start..start + form.column(k).width]
}

// Whether column k, which holds text, is right.
#[inline(always)]
#[tactic(auto, using(crate::proofs::Columns::words_right))]
pub fn has_words(form: &LineForm, k: usize, row: &[u8]) -> bool
    requires column { (k < length form.now.columns) × (holds_text form.now.columns k ≡ true) }
    requires row_in_bounds { line_width form.now.columns ≤ length row.now }
    ensures { result ≡ not (wrong_cell form.now row.now k) }
{
    lines::is_name(part_of(form, k, row))
}

// Whether a column of that use has a number, by the line's flag. The flag of a column that is always used is not looked at, and costs nothing.
#[inline(always)]
#[tactic(auto, using(crate::proofs::Columns::flag_room, crate::proofs::Columns::flag_is))]
fn is_used(form: &LineForm, used: Use, row: &[u8]) -> bool
    requires row_in_bounds { line_width form.now.columns ≤ length row.now }
    ensures { result ≡ used_by form.now.flags (flag_of form.now row.now) used }
{
    let flag = text_columns::flag_digit(row[form.before_flag().bytes]);
    used.has_number(form.flags(), flag)
}

// The number of column k, none where the column is at fault.
#[inline(always)]
#[tactic(auto, using(crate::proofs::Columns::cell_narrow, crate::proofs::Columns::reading_lem))]
pub fn read_number(form: &LineForm, k: usize, row: &[u8]) -> Option<u64>
    requires column { (k < length form.now.columns) × (holds_text form.now.columns k ≡ false) }
    requires row_in_bounds { line_width form.now.columns ≤ length row.now }
    ensures { result ≡ size_reading (not (wrong_cell form.now row.now k)) (cell_read form.now row.now k) }
{
    let column = form.column(k);
    text_columns::read_cell(
        column,
        is_used(form, column.used, row),
        part_of(form, k, row),
    )
}

// The number of column k, which is known to be right.
#[inline(always)]
#[tactic(auto, using(crate::proofs::Columns::cell_narrow, crate::proofs::Columns::cell_right, crate::proofs::Columns::known_lem))]
pub fn known_number(form: &LineForm, k: usize, row: &[u8]) -> u64
    requires column { (k < length form.now.columns) × (holds_text form.now.columns k ≡ false) }
    requires row_in_bounds { line_width form.now.columns ≤ length row.now }
    requires right { wrong_cell form.now row.now k ≡ false }
    ensures { result ≡ cell_read form.now row.now k }
{
    let column = form.column(k);
    text_columns::known_cell(
        column,
        is_used(form, column.used, row),
        part_of(form, k, row),
    )
}
