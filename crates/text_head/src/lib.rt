// The head of a text: its first line, the lines name=value, by a table of fields that is lent, and TAGTAG.
#![tactic(auto)]

ghost use Rattle.std.specs.Prelude.{ℕ, ◌≡◌, Bool, List, ◌≤◌, MatchResult, length};
ghost use Rattle.std.specs.Fn.{FnOnceReturnsAt};
ghost use Rattle.text_rules.specs.Tables.{field_of};
ghost use Rattle.text_rules.specs.Head.{head_lines, is_kind};
ghost use Rattle.text_rules.specs.Reading.{wrong_line};
ghost use Rattle.text_head.specs.Head.{field_reading, line_passed, shape_found, fields_found};

use digits::Figure;
use text_rules::{Field, Fields, LINE_END, MOST_FIELDS, ValueKind};

// Code reads the place of a fault and the figures of a head that has none. The rest is for the contracts, which say what is found where
// there is a fault too (`shape_found`, `fields_found`).

// The first wrong line of the head, counted from 0, and its place.
#[derive(Clone, Copy, PartialEq, Eq, Debug)]
pub struct WrongLine {
    pub line: usize,
    pub place: usize,
}

// The first wrong field of the head, counted from 0, the place of its value, and the figures of the fields before it.
#[derive(Clone, Copy, PartialEq, Eq, Debug)]
pub struct WrongField {
    pub field: usize,
    pub place: usize,
    pub figures: [Figure; MOST_FIELDS],
}

// The figures of all fields, and the place of TAGTAG behind them.
#[derive(Clone, Copy, PartialEq, Eq, Debug)]
pub struct HeadFields {
    pub place: usize,
    pub figures: [Figure; MOST_FIELDS],
}

// What more than its form a field's value has to be.
#[tactic(auto, unfolding(text_rules::specs::Head::is_kind))]
fn is_kind(kind: ValueKind, v: u64) -> bool
    ensures { result ≡ is_kind kind v }
{
    match kind {
        ValueKind::Any => true,
        ValueKind::Date => text_dates::is_date(v),
        ValueKind::ZeroOrOne => v <= 1,
    }
}

// What a field says.
#[tactic(auto, unfolding(crate::specs::Head::field_reading, text_rules::specs::Tables::field_of, text_rules::specs::Head::is_field))]
fn read_field(field: &Field, s: &[u8]) -> Option<Figure>
    ensures { result ≡ field_reading (field_of field.now) s.now }
{
    let z = digits_reading::read_number(field.form, s)?;
    is_kind(field.kind, z.size).then_some(z)
}

// The place behind line k, which starts at a place, where it has its end and passes the test.
#[tactic(auto, using(crate::proofs::Lines::passed_open))]
fn pass_line<F: FnOnce(&[u8]) -> bool>(
    text: &[u8],
    k: usize,
    at: usize,
    test: F,
) -> Result<usize, WrongLine>
    requires callable { F.IsAlwaysCallable test }
    requires at_in_bounds { at ≤ length text.now }
    ensures { (said : List ℕ → Bool)
        → ((l : List ℕ) → (b : Bool) → FnOnceReturnsAt F.FnOnce test l b → b ≡ said l)
        → result ≡ line_passed said text.now k at }
{
    let wrong = WrongLine { line: k, place: at };
    let line = lines::first_line(&text[at..]).ok_or(wrong)?;
    if test(line) {
        Ok(at + (line.len() + LINE_END))
    } else {
        Err(wrong)
    }
}

// Refusal 18 in the head: the place behind it, or its first wrong line.
pub fn head_shape(fields: &Fields, text: &[u8]) -> Result<usize, WrongLine>
    ensures { (result ≡ shape_found fields.now text.now)
        × MatchResult result (λ place. place ≤ length text.now) (λ wrong. wrong.place ≤ length text.now) }
{
    let table = fields.table();
    let mut at = pass_line(text, 0, 0, text_lines::is_opening)?;
    for (k, field) in table.iter().enumerate() {
        at = pass_line(text, k + 1, at, |line| lines::is_named(field.name, line))?;
    }
    pass_line(
        text,
        table.len() + 1,
        at,
        |line| lines::same_bytes(line, text_rules::TAG),
    )
}

// Refusal 19 in the head, where its lines stand: the figures, or the first wrong field. Each line is there, as `head_shape` has found.
#[tactic(auto, using(crate::proofs::Fields::fields_laws))]
pub fn head_fields(fields: &Fields, text: &[u8]) -> Result<HeadFields, WrongField>
    requires { wrong_line fields.now text.now ≡ head_lines fields.now }
    ensures { result ≡ fields_found fields.now text.now }
{
    let table = fields.table();
    let mut figures = [Figure::from(0u64); MOST_FIELDS];
    let mut at = lines::first_line(text).unwrap().len() + LINE_END;
    for (k, field) in table.iter().enumerate() {
        let line = lines::first_line(&text[at..]).unwrap();
        let start = field.name.len() + 1;
        let Some(figure) = read_field(field, &line[start..]) else {
            return Err(WrongField {
                field: k,
                place: at + start,
                figures,
            });
        };
        figures[k] = figure;
        at += line.len() + LINE_END;
    }
    Ok(HeadFields { place: at, figures })
}
