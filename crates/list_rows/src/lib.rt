// The component lines of a list text in the Shanghai form, under a flag table: tested, and then stored.
#![tactic(auto)]

ghost use Rattle.std.specs.Prelude.{◌≡◌, ◌+◌, ◌*◌, ◌≤◌, ◌++◌, false, cond, length, drop, Some, None, MatchResult};
ghost use Rattle.std.specs.Option.{option_or};
ghost use Rattle.std.proofs.lemmas.List.Edits.{sets};
ghost use Rattle.layout.specs.Places.{component_width};
ghost use Rattle.layout.specs.Components.{component_numbers};
ghost use Rattle.text_rules.specs.Columns.{line_width, line_pitch, holds_text, wrong_cell, column_fault, cell_read};
ghost use Rattle.text_rules.specs.Reading.{body_start, row_count, wrong_row};
ghost use Rattle.list_rules.specs.Shanghai.{shanghai, shanghai_shape, shanghai_columns, shanghai_lines, name_column};
ghost use Rattle.list_rules.specs.Places.{column_place};
ghost use Rattle.list_rules.specs.Reading.{line_component, components_run};
ghost use Rattle.list_rows.specs.Rows.{rows_of, RightBefore, NumberRead, LineRead, rows_tested};

use layout::{COMPONENT_WIDTH, Component};
use list_rules::{ListColumn, Rows};
use text_rules::{Columns, LineForm};
use units::{Money, Rate};

// The number of a column behind columns that are right, or that this one is at fault. Inlined, as all that reads one line: there it is known
// which column it is.
#[inline(always)]
fn read_number(form: &LineForm, column: ListColumn, row: &[u8]) -> Result<u64, ListColumn>
    requires form { form.now ≡ shanghai_lines form.now.flags }
    requires number { holds_text shanghai_columns (column_place column) ≡ false }
    requires row_in_bounds { line_width shanghai_columns ≤ length row.now }
    requires before { RightBefore form.now.flags row.now (column_place column) }
    ensures { NumberRead form.now.flags row.now column result }
{
    text_rows::read_number(form, column.place(), row).ok_or(column)
}

// That the name behind a right column is right, or that it is at fault.
#[inline(always)]
fn read_name(form: &LineForm, row: &[u8]) -> Result<(), ListColumn>
    requires form { form.now ≡ shanghai_lines form.now.flags }
    requires row_in_bounds { line_width shanghai_columns ≤ length row.now }
    requires before { RightBefore form.now.flags row.now name_column }
    ensures { MatchResult result (λ _. RightBefore form.now.flags row.now (name_column + 1)) (λ k. column_place k ≡ column_fault (shanghai form.now.flags) row.now) }
{
    if text_rows::has_words(form, ListColumn::Name.place(), row) {
        Ok(())
    } else {
        Err(ListColumn::Name)
    }
}

// The component of a line, or the first of its columns at fault.
#[inline(always)]
#[tactic(auto, using(crate::proofs::Rows::columns_hold, crate::proofs::Rows::right_first))]
fn read_component(form: &LineForm, row: &[u8]) -> Result<Component, ListColumn>
    requires form { form.now ≡ shanghai_lines form.now.flags }
    requires row_in_bounds { line_width shanghai_columns ≤ length row.now }
    ensures { LineRead form.now.flags row.now result }
{
    let code = read_number(form, ListColumn::Code, row)?;
    read_name(form, row)?;
    let quantity = read_number(form, ListColumn::Quantity, row)?;
    let flag = read_number(form, ListColumn::Flag, row)?;
    let premium = read_number(form, ListColumn::Premium, row)?;
    let discount = read_number(form, ListColumn::Discount, row)?;
    let amount = read_number(form, ListColumn::Amount, row)?;
    Ok(Component {
        code,
        quantity,
        flag,
        premium: Rate::new(premium),
        discount: Rate::new(discount),
        amount: Money::new(amount),
    })
}

// The bytes of the component lines.
#[tactic(auto, using(crate::proofs::Lines::lines_cut))]
fn rows_of<'a>(columns: &Columns, text: &'a [u8], rows: Rows) -> &'a [u8]
    requires columns { columns.now ≡ shanghai_columns }
    requires start_value { (rows.start ≡ body_start shanghai_shape text.now) × (rows.count ≡ row_count shanghai_shape text.now) }
    requires rows_in_bounds { rows.start + rows.count * line_pitch shanghai_columns ≤ length text.now }
    ensures { result.now ≡ rows_of text.now }
{
    let start = rows.start;
    &text[start..start + rows.count * columns.pitch()]
}

// The first of the lines at fault, with the j-th behind those before it.
#[inline(always)]
fn first_fault(before: Option<usize>, j: usize, is_fit: bool) -> Option<usize>
    ensures { result ≡ option_or before (cond is_fit None (Some j)) }
{
    before.or((!is_fit).then_some(j))
}

// Refusals 19 and 3 of all component lines, in a fund with that first code: the place of the first column at fault, or else the first
// component at fault. Of the lines it keeps the code before and that component alone.
pub fn test_rows(
    table: &flags::Table,
    text: &[u8],
    rows: Rows,
    first_code: u64,
) -> Result<Option<usize>, usize>
    requires start_value { (rows.start ≡ body_start shanghai_shape text.now) × (rows.count ≡ row_count shanghai_shape text.now) }
    requires rows_in_bounds { rows.start + rows.count * line_pitch shanghai_columns ≤ length text.now }
    ensures { result ≡ rows_tested table.now first_code text.now }
{
    let form = list_rules::line_form(table);
    let columns = form.columns();
    let pitch = columns.pitch();
    let mut previous = None;
    let mut fault = None;
    for (j, row) in rows_of(columns, text, rows).chunks_exact(pitch).enumerate() {
        let c = match read_component(&form, row) {
            Ok(c) => c,
            Err(column) => return Err(rows.start + j * pitch + columns.start(column.place())),
        };
        fault = first_fault(
            fault,
            j,
            fund::component_fits(table, first_code, previous, c),
        );
        previous = Some(c.code);
    }
    Ok(fault)
}

// The number of a column that is known to be right.
#[inline(always)]
fn known_number(form: &LineForm, column: ListColumn, row: &[u8]) -> u64
    requires form { form.now ≡ shanghai_lines form.now.flags }
    requires number { holds_text shanghai_columns (column_place column) ≡ false }
    requires row_in_bounds { line_width shanghai_columns ≤ length row.now }
    requires right { wrong_cell (shanghai form.now.flags) row.now (column_place column) ≡ false }
    ensures { result ≡ cell_read (shanghai form.now.flags) row.now (column_place column) }
{
    text_rows::known_number(form, column.place(), row)
}

// The numbers of a line with no column at fault.
#[inline(always)]
#[tactic(auto, using(crate::proofs::Rows::columns_hold))]
fn known_numbers(form: &LineForm, row: &[u8]) -> [u64; COMPONENT_WIDTH]
    requires form { form.now ≡ shanghai_lines form.now.flags }
    requires row_in_bounds { line_width shanghai_columns ≤ length row.now }
    requires right { column_fault (shanghai form.now.flags) row.now ≡ length shanghai_columns }
    ensures { result ≡ component_numbers (line_component form.now.flags row.now) }
{
    [
        known_number(form, ListColumn::Code, row),
        known_number(form, ListColumn::Quantity, row),
        known_number(form, ListColumn::Flag, row),
        known_number(form, ListColumn::Premium, row),
        known_number(form, ListColumn::Discount, row),
        known_number(form, ListColumn::Amount, row),
    ]
}

// Stores the numbers of the j-th component.
#[tactic(auto, using(layout::proofs::Stored::numbers_stored))]
fn put_numbers(run: &mut [u64], j: usize, numbers: [u64; COMPONENT_WIDTH])
    requires { component_width * j + component_width ≤ length run.old }
    ensures { run.new ≡ sets run.old (component_width * j) numbers }
{
    let at = COMPONENT_WIDTH * j;
    run[at..at + COMPONENT_WIDTH].copy_from_slice(&numbers);
}

// Stores the components of lines with no column at fault at the front of the run, each number once and in its place. Not inlined: in one
// function with the tests of the lines too much is held for the registers, and reading takes 6 % more instructions.
#[inline(never)]
pub fn store_rows(table: &flags::Table, text: &[u8], rows: Rows, run: &mut [u64])
    requires start_value { (rows.start ≡ body_start shanghai_shape text.now) × (rows.count ≡ row_count shanghai_shape text.now) }
    requires rows_in_bounds { rows.start + rows.count * line_pitch shanghai_columns ≤ length text.now }
    requires right { wrong_row (shanghai table.now) text.now ≡ row_count shanghai_shape text.now }
    requires room { component_width * rows.count ≤ length run.old }
    ensures { run.new ≡ components_run table.now text.now ++ drop (component_width * rows.count) run.old }
{
    let form = list_rules::line_form(table);
    let columns = form.columns();
    let pitch = columns.pitch();
    for (j, row) in rows_of(columns, text, rows).chunks_exact(pitch).enumerate() {
        put_numbers(run, j, known_numbers(&form, row));
    }
}
