// Reading the list text.
#![tactic(auto)]

ghost use Rattle.std.specs.Prelude.{◌≡◌};
ghost use Rattle.sequences.specs.Below.{below};
ghost use Rattle.flags.specs.Table.{flag_count, table_fault};
ghost use Rattle.list_rules.specs.Reading.{read_fault, name_read, letters_place};
ghost use Rattle.list_shape.specs.Shape.{RowsStand};
ghost use Rattle.list_rows.specs.Rows.{lines_fault};
ghost use Rattle.list_reading.specs.Outcome.{ReadOutcome};
ghost use Rattle.list_reading.specs.Stages.{first_code, Spelled, Ranged};

use digits::Figure;
use list_rules::{ListField, ListFields, ListRead, Rows, TextPart};
use rules::Refusal;
use text_rules::MOST_FIELDS;

// Handed on, so that all calls of reading stand in one crate: the names of a text's components, and the letters of its first line.
pub use list_names::{name_from, name_place};
pub use text_lines::letters;

// Refusals 3 and 16, and the components stored. The first component at fault comes with the test of the component lines.
#[tactic(auto, using(std::proofs::lemmas::Bool::Decides::nat_tests, crate::proofs::Replies::reply_3, crate::proofs::Replies::reply_16), unfolding(list_rules::specs::Reading::run_after, sequences::specs::Checks::is_accepted))]
fn read_components(
    table: &flags::Table,
    text: &[u8],
    rows: Rows,
    fields: ListFields,
    fault: Option<usize>,
    run: &mut [u64],
) -> Result<ListRead, Refusal>
    requires ranged { Ranged table.now text.now rows fields }
    requires fault { fault ≡ below rows.count (read_fault table.now text.now) }
    ensures { ReadOutcome table.now text.now run.old result run.new }
{
    if let Some(fault) = fault {
        return Err(Refusal::Component(fault));
    }
    if run.len() < layout::COMPONENT_WIDTH * rows.count {
        return Err(Refusal::ListTooShort);
    }
    list_rows::store_rows(table, text, rows, run);
    Ok(ListRead {
        fields,
        first_row: rows.start,
    })
}

// Refusals 20 and 2, and what follows.
#[tactic(auto, using(std::proofs::lemmas::Bool::Decides::nat_tests, crate::proofs::Replies::reply_20, crate::proofs::Replies::reply_2), unfolding(list_rules::specs::Reading::run_after, sequences::specs::Checks::is_accepted))]
fn read_values(
    table: &flags::Table,
    text: &[u8],
    rows: Rows,
    figures: &[Figure; MOST_FIELDS],
    fault: Option<usize>,
    run: &mut [u64],
) -> Result<ListRead, Refusal>
    requires spelled { Spelled table.now text.now rows figures.now }
    requires found { fault ≡ below rows.count (lines_fault table.now (first_code figures.now) text.now) }
    ensures { ReadOutcome table.now text.now run.old result run.new }
{
    if !list_shape::is_counted(ListField::Count.of(figures).size, rows.count) {
        return Err(Refusal::RecordCount);
    }
    let fields = list_fields::fields_of(figures).ok_or(Refusal::FundField)?;
    if !list_fields::fields_in_range(fields) {
        return Err(Refusal::FundField);
    }
    read_components(table, text, rows, fields, fault, run)
}

// Refusal 19, and what follows. A refusal changes nothing of the lent run, so all is tested first, and each number stored once behind that.
#[tactic(auto, using(crate::proofs::Replies::reply_19_field), unfolding(list_rules::specs::Reading::run_after, sequences::specs::Checks::is_accepted, text_head::specs::Head::fields_found))]
fn read_fields(
    table: &flags::Table,
    text: &[u8],
    rows: Rows,
    run: &mut [u64],
) -> Result<ListRead, Refusal>
    requires loads { table_fault table.now ≡ flag_count }
    requires stand { RowsStand text.now rows }
    ensures { ReadOutcome table.now text.now run.old result run.new }
{
    let found = text_head::head_fields(&list_rules::field_table(), text);
    let head = found.map_err(|wrong| Refusal::TextField(wrong.place))?;
    // As `fields_of` has it: where the code for creation is 0, refusal 2 is the answer, and what is found with this one is not looked at.
    let first_code = ListField::CreationCode
        .of(&head.figures)
        .size
        .saturating_sub(1);
    match list_rows::test_rows(table, text, rows, first_code) {
        Err(place) => Err(Refusal::TextField(place)),
        Ok(fault) => read_values(table, text, rows, &head.figures, fault, run),
    }
}

// Reads a list under a flag table: its fields, and its components at the front of the lent run. A refusal changes nothing.
#[tactic(auto, using(crate::proofs::Replies::reply_21, crate::proofs::Replies::reply_18, crate::proofs::Handed::table_loads), unfolding(list_rules::specs::Reading::run_after, sequences::specs::Checks::is_accepted))]
pub fn read(table: &flags::Table, text: &[u8], run: &mut [u64]) -> Result<ListRead, Refusal>
    ensures { ReadOutcome table.now text.now run.old result run.new }
{
    if let Some(flag) = flags::table_fault(table) {
        return Err(Refusal::FlagTable(flag));
    }
    let rows = list_shape::shape_of(text).map_err(Refusal::TextLine)?;
    read_fields(table, text, rows, run)
}

// Where the letters of a text's first line stand; an empty part where the line is another. No Option: it goes on to C as a place and a
// length.
#[tactic(auto, using(crate::proofs::Handed::letters_none, crate::proofs::Handed::letters_some))]
pub fn letters_place(text: &[u8]) -> TextPart
    ensures { result ≡ letters_place text.now }
{
    let n = letters(text).len();
    if n == 0 {
        return TextPart::default();
    }
    TextPart {
        place: text_rules::LETTERS_START,
        length: n,
    }
}

// The name of component j, as that part of the text; an empty part where the text has no such component line. No Option: a part of the
// caller's text is the form that the project names, and the empty one is what `name_read` says.
#[tactic(auto, using(std::proofs::lemmas::Bool::Decides::nat_tests), unfolding(list_rules::specs::Reading::name_read))]
pub fn name(text: &[u8], j: usize) -> &[u8]
    ensures { result.now ≡ name_read text.now j }
{
    match list_shape::shape_of(text) {
        Ok(rows) if j < rows.count => name_from(text, rows.start, j),
        _ => &text[..0],
    }
}
