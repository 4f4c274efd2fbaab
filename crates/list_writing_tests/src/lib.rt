// What writing a list answers: its tests, and how many bytes the text takes.
#![tactic(auto)]

ghost use Rattle.std.specs.Prelude.{◌≡◌, true, ◌+◌, ◌*◌, ◌≤◌, length, IfOk};
ghost use Rattle.sequences.specs.Below.{below};
ghost use Rattle.sequences.specs.Checks.{passes};
ghost use Rattle.rules.specs.Replies.{count_answer_reply};
ghost use Rattle.layout.specs.Places.{most_components};
ghost use Rattle.text_rules.specs.Well.{most_line};
ghost use Rattle.text_head_writing.specs.Lines.{most_head};
ghost use Rattle.list_rules.specs.Writing.{listed, sizes_fit, list_checks, text_of, write_fault, write_reply};
ghost use Rattle.list_writing_tests.specs.Parts.{head_of, lines_of};
ghost use Rattle.list_writing_tests.specs.Answer.{size_told};

use list_rules::Listing;
use rules::Refusal;

// A list that passes the tests of writing but that of the room, and the flag table that it passes them under. It is made where they are
// known to pass, so that no function asks it.
#[derive(Clone, Copy)]
pub struct Checked<'a> {
    pub table: &'a flags::Table,
    pub list: Listing<'a>,
    pub ghost passing: { passes (list_checks table.now (listed list)) ≡ true },
}

// Refusal 1's test. The range comes first, so that no product is too large.
#[tactic(auto, using(std::proofs::lemmas::Bool::Decides::nat_tests), unfolding(list_rules::specs::Writing::sizes_fit, sequences::specs::Every::every, sequences::specs::Every::inside))]
fn sizes_fit(list: &Listing) -> bool
    ensures { result ≡ sizes_fit (listed list.now) }
{
    let count = list.fields.count;
    (1..=layout::MOST_COMPONENTS).contains(&count)
        && list.run.len() == layout::COMPONENT_WIDTH * count
        && list.names.len() == list_rules::NAME_WIDTH * count
}

// The first component at fault, by its numbers or by its name.
#[tactic(auto, using(std::proofs::lemmas::Bool::Decides::nat_tests), unfolding(list_rules::specs::Writing::write_fault, list_rules::specs::Writing::sizes_fit, sequences::specs::Every::every, sequences::specs::Every::inside))]
fn write_fault(table: &flags::Table, list: &Listing) -> Option<usize>
    requires { sizes_fit (listed list.now) ≡ true }
    ensures { result ≡ below list.now.fields.count (write_fault table.now (listed list.now)) }
{
    let numbers = fund::run_fault(
        table,
        list.fields.fund.first_code,
        list.run,
        list.fields.count,
    );
    let name = list_names::name_fault(list.names);
    let both = numbers.zip(name).map(|(a, b)| a.min(b));
    both.or(numbers).or(name)
}

impl<'a> Checked<'a> {
    // How many bytes the head takes.
    fn head_size(&self) -> usize
        ensures value { result ≡ length (head_of (listed self.now.list)) }
        ensures upper_bound { result ≤ most_head }
    {
        let list = &self.list;
        let figures = list_fields::figures_of(list.fields);
        text_head_writing::head_size(&list_rules::field_table(), list.letters, &figures)
    }

    // How many bytes the component lines take.
    pub fn lines_size(&self) -> usize
        ensures value { result ≡ length (lines_of self.now.table.now (listed self.now.list)) }
        ensures upper_bound { result ≤ most_components * (most_line + 2) }
    {
        self.list.fields.count * list_rules::columns().pitch()
    }

    // How many bytes the text takes.
    #[tactic(auto, using(crate::proofs::Sizes::parts))]
    fn text_size(&self) -> usize
        ensures { result ≡ length (text_of self.now.table.now (listed self.now.list)) }
    {
        self.head_size() + (self.lines_size() + text_rules::END_SIZE)
    }
}

// The answer, which changes nothing: an accepted list, and how many bytes its text takes.
#[tactic(auto, using(sequences::proofs::Below::below_some_facts, sequences::proofs::Below::below_none_fact, std::proofs::lemmas::Bool::Decides::nat_tests), unfolding(list_rules::specs::Writing::write_reply, list_rules::specs::Writing::write_checks, list_rules::specs::Writing::list_checks, rules::specs::Opening::table_checks, sequences::specs::Checks::answering, sequences::specs::Checks::passes))]
pub fn write_answer<'a>(
    table: &'a flags::Table,
    list: &Listing<'a>,
    room: usize,
) -> Result<(Checked<'a>, usize), Refusal>
    ensures answer { count_answer_reply (size_told result) ≡ write_reply table.now (listed list.now) room }
    ensures checked { IfOk result (λ x. (x.0.table.now ≡ table.now) × (x.0.list ≡ list.now)) }
{
    if let Some(flag) = flags::table_fault(table) {
        return Err(Refusal::FlagTable(flag));
    }
    if !sizes_fit(list) {
        return Err(Refusal::Sizes);
    }
    if !list_fields::fields_in_range(list.fields) {
        return Err(Refusal::FundField);
    }
    if !text_lines::is_letters(list.letters) {
        return Err(Refusal::FundField);
    }
    if let Some(fault) = write_fault(table, list) {
        return Err(Refusal::Component(fault));
    }
    let checked = Checked { table, list: *list };
    let size = checked.text_size();
    if room < size {
        return Err(Refusal::ListTooShort);
    }
    Ok((checked, size))
}
