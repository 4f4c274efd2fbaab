// The names of a list text in the Shanghai form: where they stand, and whether they may be written.
#![tactic(auto)]

ghost use Rattle.std.specs.Prelude.{◌≡◌, ◌+◌, ◌/◌, ◌≤◌, length};
ghost use Rattle.sequences.specs.Below.{below};
ghost use Rattle.list_rules.specs.Shanghai.{name_width};
ghost use Rattle.list_rules.specs.Reading.{name_place, name_from};
ghost use Rattle.list_rules.specs.Writing.{name_fault};

use list_rules::{ListColumn, NAME_WIDTH, TextPart};

// Where the name of the j-th component line behind a place stands; an empty part where the text has no such bytes. Text, place and j stand
// one by one, here and in the calls above, as the C interface has them: a struct of the three would be made for one call.
#[tactic(auto, using(crate::proofs::Names::place_cases))]
pub fn name_place(text: &[u8], first: usize, j: usize) -> TextPart
    ensures value { result ≡ name_place text.now first j }
    ensures length_in_bounds { result.place + result.length ≤ length text.now }
{
    let columns = list_rules::columns();
    let pitch = columns.pitch();
    if text.len().saturating_sub(first) / pitch <= j {
        return TextPart::default();
    }
    let place = first + j * pitch + columns.start(ListColumn::Name.place());
    TextPart {
        place,
        length: NAME_WIDTH,
    }
}

// That name, as the part of the text, without looking at the text's lines: `first` is where reading found the first component line. With
// another place it is the name that a component line from there on would have. No Option: a part of the caller's text is the form that the
// project names, and the empty one is what `name_from` says.
#[tactic(auto, unfolding(list_rules::specs::Reading::name_from, list_rules::specs::Reading::part_in))]
pub fn name_from(text: &[u8], first: usize, j: usize) -> &[u8]
    ensures { result.now ≡ name_from text.now first j }
{
    let part = name_place(text, first, j);
    &text[part.place..part.place + part.length]
}

// The first of the names with a byte that no name has. They are gone through one by one only where there is such a byte: for 300 good names
// one pass over all takes 1,760 instructions, one by one 15,660.
#[tactic(auto, using(crate::proofs::Names::names_fine, crate::proofs::Names::names_words))]
pub fn name_fault(names: &[u8]) -> Option<usize>
    ensures { result ≡ below (length names.now / name_width) (name_fault names.now (length names.now / name_width)) }
{
    if lines::is_name(names) {
        return None;
    }
    text_rows::words_fault(names, NAME_WIDTH, 0, NAME_WIDTH)
}
