// Lines that stand in a text: the first one and its letters, and the component lines, by their columns.
#![tactic(auto)]

ghost use Rattle.std.specs.Prelude.{◌≡◌, ◌+◌, ◌*◌, ◌≤◌, true, false, length, MatchOption};
ghost use Rattle.text_rules.specs.Columns.{line_width, line_pitch, is_row};
ghost use Rattle.text_rules.specs.Head.{is_letters, letters_of, is_opening};
ghost use Rattle.text_rules.specs.Reading.{line_stands, rows_from, letters_read};

use text_rules::Columns;

// Whether the letters are 1 to 8 letters or digits.
#[tactic(auto, using(std::proofs::lemmas::Bool::Decides::nat_tests), unfolding(text_rules::specs::Head::is_letters, sequences::specs::Every::inside))]
pub fn is_letters(s: &[u8]) -> bool
    ensures { result ≡ is_letters s.now }
{
    (1..=text_rules::MOST_LETTERS).contains(&s.len()) && lines::is_letters(s)
}

// The letters of a line that is "[ETF", letters and "]".
#[tactic(auto, using(crate::proofs::Opening::opening_other, crate::proofs::Opening::opening_bare, crate::proofs::Opening::opening_told))]
fn letters_of(line: &[u8]) -> Option<&[u8]>
    ensures { MatchOption result (is_opening line.now ≡ false) (λ l. (is_opening line.now ≡ true) × (l.now ≡ letters_of line.now)) }
{
    let letters = line
        .strip_prefix(text_rules::OPENING)?
        .strip_suffix(text_rules::CLOSING)?;
    is_letters(letters).then_some(letters)
}

// Whether the line is "[ETF", letters and "]".
pub fn is_opening(line: &[u8]) -> bool
    ensures { result ≡ is_opening line.now }
{
    letters_of(line).is_some()
}

// The letters of a text's first line, as that part of it; nothing where the line is another. No Option: it goes on to C as a place and a
// length.
#[tactic(auto, using(crate::proofs::Opening::letters_open, crate::proofs::Opening::letters_other, crate::proofs::Opening::letters_said))]
pub fn letters(text: &[u8]) -> &[u8]
    ensures { result.now ≡ letters_read text.now }
{
    lines::first_line(text).and_then(letters_of).unwrap_or(&[])
}

// Whether a component line with its end stands at a place of the whole text, of which the answers are places. `width` is the columns',
// added up once for all lines. By match: a closure would have to carry what `is_row` asks of the width.
#[tactic(auto, using(crate::proofs::Standing::stands_none, crate::proofs::Standing::stands_some))]
fn row_stands(columns: &Columns, width: usize, text: &[u8], at: usize) -> bool
    requires columns_value { width ≡ line_width columns.now }
    requires at_in_bounds { at ≤ length text.now }
    ensures { result ≡ line_stands (is_row columns.now) text.now at }
{
    match lines::likely_line(&text[at..], width) {
        Some(line) => text_columns::is_row(columns, width, line),
        None => false,
    }
}

// How many component lines stand from a place on, before the first line that is none.
#[tactic(auto, using(crate::proofs::Standing::pitch_line))]
pub fn row_count(columns: &Columns, text: &[u8], start: usize) -> usize
    requires { start ≤ length text.now }
    ensures value { result ≡ rows_from columns.now text.now start }
    ensures columns_in_bounds { start + result * line_pitch columns.now ≤ length text.now }
{
    let width = columns.width();
    let pitch = columns.pitch();
    // So many lines have room.
    let room = (text.len() - start) / pitch;
    (0..room)
        .find(|j| !row_stands(columns, width, text, start + *j * pitch))
        .unwrap_or(room)
}
