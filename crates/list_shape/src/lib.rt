// The lines of a list text in the Shanghai form: refusals 18 and 20 there, and where the component lines stand.
// The casts by `as` lose nothing: usize and u64 both have 64 bits.
#![tactic(auto)]

ghost use Rattle.std.specs.Prelude.{◌≡◌, ◌≤◌, length};
ghost use Rattle.lines.specs.Lines.{same};
ghost use Rattle.text_rules.specs.Head.{head_lines, end_word};
ghost use Rattle.text_rules.specs.Reading.{line_stands, wrong_line, body_start};
ghost use Rattle.list_rules.specs.Shanghai.{shanghai_shape, shanghai_fields};
ghost use Rattle.list_rules.specs.Reading.{is_counted};
ghost use Rattle.list_shape.specs.Shape.{Shaped};

use list_rules::Rows;

// Whether ENDENDEND with its end stands at a place.
#[tactic(auto, using(text_lines::proofs::Standing::stands_some, text_lines::proofs::Standing::stands_none))]
fn end_stands(text: &[u8], at: usize) -> bool
    requires { at ≤ length text.now }
    ensures { result ≡ line_stands (λ l. same l end_word) text.now at }
{
    lines::first_line(&text[at..]).is_some_and(|line| lines::same_bytes(line, text_rules::END))
}

// Refusal 18 behind the head. The error is a place alone: no other refusal stands here. That the head's lines stand is asked here and by
// `text_head::head_fields`: it is a fact of the text, and a struct of the text and this fact would be made for these two calls alone.
fn body_shape(text: &[u8], start: usize) -> Result<Rows, usize>
    requires head_stands { wrong_line shanghai_fields text.now ≡ head_lines shanghai_fields }
    requires start_value { (start ≡ body_start shanghai_shape text.now) × (start ≤ length text.now) }
    ensures { Shaped text.now result }
{
    let columns = list_rules::columns();
    let count = text_lines::row_count(&columns, text, start);
    let end = start + count * columns.pitch();
    if !end_stands(text, end) {
        return Err(end);
    }
    let behind = end + text_rules::END_SIZE;
    if behind < text.len() {
        return Err(behind);
    }
    Ok(Rows { start, count })
}

// Refusal 18: the component lines, or the place of the first wrong line.
#[tactic(auto, using(crate::proofs::Shaped::head_off, crate::proofs::Shaped::head_on))]
pub fn shape_of(text: &[u8]) -> Result<Rows, usize>
    ensures { Shaped text.now result }
{
    let fields = list_rules::field_table();
    let start = text_head::head_shape(&fields, text).map_err(|wrong| wrong.place)?;
    body_shape(text, start)
}

// Refusal 20's test.
#[tactic(auto, using(std::proofs::lemmas::Bool::Decides::nat_tests), unfolding(list_rules::specs::Reading::is_counted, sequences::specs::Every::inside))]
pub fn is_counted(recordnum: u64, count: usize) -> bool
    ensures { result ≡ is_counted recordnum count }
{
    (1..=layout::MOST_COMPONENTS as u64).contains(&recordnum) && recordnum == count as u64
}
