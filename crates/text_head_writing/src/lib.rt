// Writes the head of a text, line by line, by a table of fields that is lent.
#![tactic(auto)]

ghost use Rattle.std.specs.Prelude.{◌≡◌, true, ◌++◌, ◌≤◌, length};
ghost use Rattle.digits.specs.Digits.{number_text};
ghost use Rattle.digits.specs.Written.{Written};
ghost use Rattle.digits_writing.specs.Writable.{Writable};
ghost use Rattle.lines.specs.Lines.{line_text};
ghost use Rattle.text_rules.specs.Tables.{field_of};
ghost use Rattle.text_rules.specs.Head.{opening_word, closing_word, field_line, most_letters};
ghost use Rattle.text_rules.specs.Well.{field_well};
ghost use Rattle.text_head_writing.specs.Lines.{whole_head, most_head_line, most_head};
ghost use Rattle.text_head_writing.specs.Out.{Fits, wrote};

use digits::{Figure, Form};
use text_rules::{Field, Fields, MOST_FIELDS};

// How many bytes the line of a field takes with its end.
fn field_size(field: &Field, z: Figure) -> usize
    requires { field_well (field_of field.now) ≡ true }
    ensures { (result ≡ length (line_text (field_line (field_of field.now) z))) × (result ≤ most_head_line) }
{
    field.name.len() + (digits_writing::number_size(field.form, z) + (1 + text_rules::LINE_END))
}

// How many bytes the head takes.
pub fn head_size(fields: &Fields, letters: &[u8], figures: &[Figure; MOST_FIELDS]) -> usize
    requires { length letters.now ≤ most_letters }
    ensures value { result ≡ length (whole_head fields.now letters.now figures.now) }
    ensures upper_bound { result ≤ most_head }
{
    let table = fields.table();
    let mut n = letters.len() + text_rules::OPENING_REST;
    for (field, z) in table.iter().zip(figures) {
        n += field_size(field, *z);
    }
    n + text_rules::TAG_SIZE
}

// A run that a text is written to from front to back, and its next free place: `order_records::Out` over bytes.
#[derive(Drop)]
struct Out<'a> {
    run: &'a mut [u8],
    at: usize,
}

impl<'a> Out<'a> {
    // Writes bytes.
    fn put(&mut self, bytes: &[u8])
        requires { Fits bytes.now self.old }
        ensures { self.new ≡ wrote bytes.now self.old }
    {
        self.at = digits_put::put_bytes(self.run, self.at, bytes);
    }

    // Writes a number.
    fn put_number(&mut self, form: Form, z: Figure)
        requires writable { Writable form }
        requires room { Fits (number_text form z) self.old }
        ensures { self.new ≡ wrote (number_text form z) self.old }
    {
        self.at = digits_writing::put_number(self.run, self.at, form, z);
    }

    // Writes a line with its end.
    fn put_line(&mut self, line: &[u8])
        requires { Fits (line_text line.now) self.old }
        ensures { self.new ≡ wrote (line_text line.now) self.old }
    {
        self.put(line);
        self.put(b"\r\n");
    }

    // Writes the first line.
    #[tactic(auto, using(crate::proofs::Write::line_laws))]
    fn put_opening(&mut self, letters: &[u8])
        requires { Fits (line_text (opening_word ++ (letters.now ++ closing_word))) self.old }
        ensures { self.new ≡ wrote (line_text (opening_word ++ (letters.now ++ closing_word))) self.old }
    {
        self.put(text_rules::OPENING);
        self.put(letters);
        self.put_line(text_rules::CLOSING);
    }

    // Writes the line of a field.
    #[tactic(auto, using(crate::proofs::Write::line_laws))]
    fn put_field(&mut self, field: &Field, z: Figure)
        requires well { field_well (field_of field.now) ≡ true }
        requires room { Fits (line_text (field_line (field_of field.now) z)) self.old }
        ensures { self.new ≡ wrote (line_text (field_line (field_of field.now) z)) self.old }
    {
        self.put(field.name);
        self.put(b"=");
        self.put_number(field.form, z);
        self.put(b"\r\n");
    }
}

// Writes the head at the front of a run, and gives the place behind it.
pub fn put_head(
    fields: &Fields,
    letters: &[u8],
    figures: &[Figure; MOST_FIELDS],
    dst: &mut [u8],
) -> usize
    requires { length (whole_head fields.now letters.now figures.now) ≤ length dst.old }
    ensures { Written dst.old 0 (whole_head fields.now letters.now figures.now) dst.new result }
{
    let table = fields.table();
    let mut out = Out { run: dst, at: 0 };
    out.put_opening(letters);
    for (field, z) in table.iter().zip(figures) {
        out.put_field(field, *z);
    }
    out.put_line(text_rules::TAG);
    out.at
}
