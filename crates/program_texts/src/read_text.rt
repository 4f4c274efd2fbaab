// A list text that was read, as it is printed: the list, and what is written of it again.
use list_rules::{ListRead, Listing};
use program_io::fault::Fault;
use program_io::marks;
use program_io::rows::Row;
use std::alloc::Global;
use std::io;
use std::io::Write;
use text_parts::names::Names;
use text_parts::{bytes, replies};

// The bytes of a written text are printed up to this length.
const SHOWN: usize = 2000;

// The text, the flag table that it was read under, what reading answered, and the run with its components.
#[derive(Clone, Copy)]
pub struct ReadText<'a> {
    pub text: &'a [u8],
    pub table: &'a flags::Table,
    pub read: ListRead,
    pub run: &'a [u64],
}

// What was written: its bytes, or of a long text how many there are before the first that differs from the text; and the sum of all
// its bytes, so that a long text is compared whole.
fn print_written<W: Write>(text: &[u8], written: &[u8], out: &mut W) -> io::Result<()> {
    if SHOWN < written.len() {
        let alike = marks::first_difference(text, written).unwrap_or(written.len().min(text.len()));
        writeln!(out, "alike {alike}")?;
    } else {
        writeln!(out, "text{}", Row(written))?;
    }
    writeln!(out, "sum {}", bytes::sum(written))
}

impl<'a> ReadText<'a> {
    pub fn letters(&self) -> &'a [u8] {
        list_reading::letters(self.text)
    }

    pub fn names(&self) -> Names<'a> {
        Names::new(self.text, &self.read)
    }

    // Writes the list with its names, into an output of the text's own length, up to the longest, that holds other bytes.
    fn write_again<W: Write>(&self, alloc: Global, names: &[u8], out: &mut W) -> Result<(), Fault> {
        let list = Listing {
            fields: self.read.fields,
            run: self.run,
            names,
            letters: self.letters(),
        };
        let mut output = marks::marked(alloc, self.text.len().min(crate::MOST_BYTES))?;
        let answer = list_writing::write(self.table, &list, &mut output);
        replies::print(out, "written", answer)?;
        if let Ok(size) = answer {
            output.truncate(size);
            print_written(self.text, &output, out)?;
        }
        Ok(())
    }

    // The list, and what is written of it again.
    pub fn print<W: Write>(&self, alloc: Global, out: &mut W) -> Result<(), Fault> {
        let numbers = list_layout::numbers_of(self.read.fields);
        writeln!(out, "fields{}", Row(&numbers))?;
        writeln!(out, "first {}", self.read.first_row)?;
        writeln!(out, "components{}", Row(self.run))?;
        writeln!(out, "letters{}", Row(self.letters()))?;
        let names = self.names();
        match names.join(alloc)? {
            Some(joined) if names.has_no_more() => {
                writeln!(out, "names{}", Row(&joined))?;
                self.write_again(alloc, &joined, out)
            }
            _ => Ok(writeln!(out, "names wrong")?),
        }
    }
}
