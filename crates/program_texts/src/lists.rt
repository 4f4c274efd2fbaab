// Items that are lists: each is written, what writing answers and leaves is printed, and a text that was written is read again.
// The casts by `as` lose nothing: usize and u64 both have 64 bits.
use crate::head::Head;
use crate::read_text::ReadText;
use list_layout::FIELDS_WIDTH;
use list_rules::Listing;
use program_io::fault::Fault;
use program_io::items::split;
use program_io::rows::Row;
use program_io::{changes, marks};
use std::alloc::{AllocError, Global};
use std::fmt;
use std::fmt::Display;
use std::io::Write;
use text_parts::{bytes, fields, replies};

// The most bytes of names, and of letters.
const MOST_NAMES: usize = 3000;

const MOST_LETTERS: usize = 100;

#[derive(Drop)]
pub struct List<'a> {
    // With the length of the lent output.
    head: Head<'a>,
    fields: [u64; FIELDS_WIDTH],
    components: &'a [u64],
    names: Vec<u8>,
    letters: Vec<u8>,
}

// What is read back otherwise than it was written: the first field or component that is, or the names or letters.
#[derive(Clone, Copy)]
enum Difference {
    Field(usize),
    Component(usize),
    NamesOrLetters,
}

impl Display for Difference {
    fn fmt<W: fmt::Write>(&self, f: &mut fmt::Formatter<W>) -> fmt::Result {
        match self {
            Difference::Field(place) => write!(f, "fields {place}"),
            Difference::Component(place) => write!(f, "components {place}"),
            Difference::NamesOrLetters => write!(f, "names or letters"),
        }
    }
}

impl<'a> List<'a> {
    // The numbers of a list: its head, the lengths of its components and of its names, its fields, its components, the bytes of its
    // names and its letters.
    pub fn new(alloc: Global, numbers: &'a [u64]) -> Result<List<'a>, Fault> {
        let (head, behind) = Head::split(numbers)?;
        let [components, names, body @ ..] = behind else {
            return Err(Fault::BadInput);
        };
        let Some((given, behind)) = body.split_first_chunk::<FIELDS_WIDTH>() else {
            return Err(Fault::BadInput);
        };
        let (components, behind) = split(behind, *components as usize)?;
        let (names, letters) = split(behind, *names as usize)?;
        if MOST_NAMES < names.len() || MOST_LETTERS < letters.len() {
            return Err(Fault::BadInput);
        }
        Ok(List {
            head,
            fields: *given,
            components,
            names: bytes::of_numbers(alloc, names)?,
            letters: bytes::of_numbers(alloc, letters)?,
        })
    }

    // Whether the names and the letters of the text are those of the list.
    fn is_named(&self, alloc: Global, back: &ReadText<'_>) -> Result<bool, AllocError> {
        let is_lettered = back.letters() == self.letters.as_slice();
        let joined = back.names().join(alloc)?;
        Ok(is_lettered && joined.is_some_and(|names| names.as_slice() == self.names.as_slice()))
    }

    fn difference(
        &self,
        alloc: Global,
        back: &ReadText<'_>,
    ) -> Result<Option<Difference>, AllocError> {
        let numbers = list_layout::numbers_of(back.read.fields);
        let field = marks::first_difference(&numbers, &self.fields);
        let difference = field.map(Difference::Field).or_else(|| {
            marks::first_difference(self.components, back.run).map(Difference::Component)
        });
        if difference.is_some() || self.is_named(alloc, back)? {
            return Ok(difference);
        }
        Ok(Some(Difference::NamesOrLetters))
    }

    // Reads a text that was written, into a run that holds other numbers.
    fn read_back<W: Write>(&self, alloc: Global, text: &[u8], out: &mut W) -> Result<(), Fault> {
        let mut run = marks::marked(alloc, crate::MOST_RUN)?;
        let answer = list_reading::read(self.head.table, text, &mut run);
        replies::print(out, "read", answer.map(|read| read.fields.count))?;
        let Ok(read) = answer else {
            return Ok(());
        };
        let back = ReadText {
            text,
            table: self.head.table,
            read,
            run: &run,
        };
        match self.difference(alloc, &back)? {
            Some(difference) => Ok(writeln!(out, "back {difference}")?),
            None => Ok(writeln!(out, "back same")?),
        }
    }

    // What was written, and that it is read back. Writing answers no more than the output has; `min` stands for a contract of it.
    fn print_written<W: Write>(
        &self,
        alloc: Global,
        output: &[u8],
        size: usize,
        out: &mut W,
    ) -> Result<(), Fault> {
        let text = &output[..size.min(output.len())];
        writeln!(out, "text{}", Row(text))?;
        let places = [("rest output", marks::first_marred(output, size))];
        changes::print(out, "rest same", &places)?;
        self.read_back(alloc, text, out)
    }

    // Writes the list into an output that holds other bytes.
    pub fn write<W: Write>(&self, alloc: Global, out: &mut W) -> Result<(), Fault> {
        if crate::MOST_BYTES < self.head.room {
            return Err(Fault::BadInput);
        }
        writeln!(out, "row {}", self.head.row)?;
        let mut output = marks::marked(alloc, self.head.room)?;
        let list = Listing {
            fields: fields::of_numbers(&self.fields),
            run: self.components,
            names: &self.names,
            letters: &self.letters,
        };
        let answer = list_writing::write(self.head.table, &list, &mut output);
        replies::print(out, "write", answer)?;
        match answer {
            Ok(size) => self.print_written(alloc, &output, size, out),
            Err(_) => {
                let places = [("output", marks::first_marred(&output, 0))];
                Ok(changes::print(out, "same", &places)?)
            }
        }
    }
}

#[cfg(test)]
mod tests {
    use super::*;
    use std::test::Fail;

    // No list of the programs' inputs is read back otherwise, so that they print none of these.
    #[test]
    fn differences_as_printed(rt: HostRuntime) -> Result<(), Fail> {
        for (difference, want) in [
            (Difference::Field(3), "fields 3"),
            (Difference::Component(0), "components 0"),
            (Difference::NamesOrLetters, "names or letters"),
        ] {
            let printed = format!(in rt.alloc(); "{difference}")?;
            assert_eq!(rt; printed.as_str(), want);
        }
        Ok(())
    }
}
