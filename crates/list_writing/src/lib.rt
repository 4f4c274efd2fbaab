// Writing the list text.
#![tactic(auto)]

ghost use Rattle.std.specs.Prelude.{◌≡◌, ◌+◌, ◌≤◌, length};
ghost use Rattle.digits.specs.Written.{put, Written};
ghost use Rattle.list_rules.specs.Writing.{listed, text_of};
ghost use Rattle.list_writing_tests.specs.Parts.{head_of, lines_of};
ghost use Rattle.list_writing.specs.Outcome.{WriteOutcome};

use list_rules::Listing;
use list_writing_tests::Checked;
use rules::Refusal;

// Writes the head of a list, and answers where it ends.
fn put_head(checked: &Checked, output: &mut [u8]) -> usize
    requires { length (head_of (listed checked.now.list)) ≤ length output.old }
    ensures { Written output.old 0 (head_of (listed checked.now.list)) output.new result }
{
    let list = &checked.list;
    let figures = list_fields::figures_of(list.fields);
    text_head_writing::put_head(&list_rules::field_table(), list.letters, &figures, output)
}

// Writes its component lines from a place on, and answers where they end.
fn put_lines(checked: &Checked, output: &mut [u8], start: usize) -> usize
    requires { start + length (lines_of checked.now.table.now (listed checked.now.list)) ≤ length output.old }
    ensures { Written output.old start (lines_of checked.now.table.now (listed checked.now.list)) output.new result }
{
    let list = &checked.list;
    let end = start + checked.lines_size();
    let form = list_rules::line_form(checked.table);
    text_rows_writing::put_rows(&form, list.run, list.names, &mut output[start..end]);
    end
}

// Writes its text.
fn put_list(checked: &Checked, output: &mut [u8])
    requires { length (text_of checked.now.table.now (listed checked.now.list)) ≤ length output.old }
    ensures { output.new ≡ put output.old 0 (text_of checked.now.table.now (listed checked.now.list)) }
{
    let lines = put_head(checked, output);
    let last = put_lines(checked, output, lines);
    let end = digits_put::put_bytes(output, last, text_rules::END);
    // The two bytes are spelled where they are written, here and in the crates of a text in any form: a name for them is no shorter.
    digits_put::put_bytes(output, end, b"\r\n");
}

// Writes a list under a flag table at the front of the lent output, and answers how many bytes it takes. A refusal changes nothing.
#[tactic(auto, using(std::proofs::lemmas::Bool::Decides::nat_tests), unfolding(list_rules::specs::Writing::output_after, sequences::specs::Checks::is_accepted))]
pub fn write(table: &flags::Table, list: &Listing, output: &mut [u8]) -> Result<usize, Refusal>
    ensures { WriteOutcome table.now (listed list.now) output.old result output.new }
{
    let (checked, size) = list_writing_tests::write_answer(table, list, output.len())?;
    put_list(&checked, output);
    Ok(size)
}
