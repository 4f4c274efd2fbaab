// Items that are texts: each is read, what reading answers and leaves is printed, and a list that was read is written again.
// The casts by `as` lose nothing: usize and u64 both have 64 bits.
use crate::head::Head;
use crate::read_text::ReadText;
use program_io::fault::Fault;
use program_io::rows::Row;
use program_io::{changes, marks};
use std::alloc::Global;
use std::io;
use std::io::Write;
use text_parts::replies;

// The row of a text whose letters are asked for, and the component whose name is.
#[derive(Clone, Copy)]
pub struct Asking {
    row: u64,
    component: usize,
}

// Reads a text into a run that holds other numbers. The count that reading answers is at most 300; `saturating_mul` stands for that.
pub fn read<W: Write>(
    alloc: Global,
    head: Head<'_>,
    text: &[u8],
    out: &mut W,
) -> Result<(), Fault> {
    if crate::MOST_RUN < head.room {
        return Err(Fault::BadInput);
    }
    writeln!(out, "row {}", head.row)?;
    let mut run = marks::marked(alloc, head.room)?;
    let answer = list_reading::read(head.table, text, &mut run);
    replies::print(out, "read", answer.map(|read| read.fields.count))?;
    match answer {
        Ok(read) => {
            let length = read.fields.count.saturating_mul(layout::COMPONENT_WIDTH);
            let places = [("rest", marks::first_marred(&run, length))];
            changes::print(out, "rest same", &places)?;
            run.truncate(length);
            let list = ReadText {
                text,
                table: head.table,
                read,
                run: &run,
            };
            list.print(alloc, out)
        }
        Err(_) => {
            let places = [("run", marks::first_marred(&run, 0))];
            Ok(changes::print(out, "same", &places)?)
        }
    }
}

impl Asking {
    pub fn new(row: u64, component: u64) -> Asking {
        Asking {
            row,
            component: component as usize,
        }
    }

    // The letters and the component's name of a text.
    pub fn print<W: Write>(&self, text: &[u8], out: &mut W) -> io::Result<()> {
        let name = list_reading::name(text, self.component);
        writeln!(out, "row {}", self.row)?;
        writeln!(out, "letters{}", Row(list_reading::letters(text)))?;
        writeln!(out, "name{}", Row(name))
    }
}
