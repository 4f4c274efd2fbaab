// The head of a text or a list: its row, how long the lent run or output is, and its flag table.
// The casts by `as` lose nothing: usize and u64 both have 64 bits.
ghost use Rattle.std.specs.Prelude.{◌+◌, ◌≤◌, length, IfOk};
ghost use Rattle.program_texts.specs.declared.TheConstants.{MOST_ITEM};

use program_io::fault::Fault;
use program_io::items::split;

#[derive(Clone, Copy)]
pub struct Head<'a> {
    pub row: u64,
    pub room: usize,
    pub table: &'a flags::Table,
}

// Ours where no numbers are given; none of any other length than a table's.
fn table_of(numbers: &[u64]) -> Option<&flags::Table> {
    if numbers.is_empty() {
        Some(flags::our_table())
    } else {
        flags::table_in(numbers)
    }
}

impl<'a> Head<'a> {
    // The head of an item's numbers, and those behind it, which with the row and the room are no more than an item may have.
    pub fn split(numbers: &'a [u64]) -> Result<(Head<'a>, &'a [u64]), Fault>
        ensures { IfOk result (λ parts. 2 + length parts.1.now ≤ MOST_ITEM) }
    {
        let [row, room, table, body @ ..] = numbers else {
            return Err(Fault::BadInput);
        };
        let (table, behind) = split(body, *table as usize)?;
        if crate::MOST_ITEM < 2 + behind.len() {
            return Err(Fault::BadInput);
        }
        let table = table_of(table).ok_or(Fault::BadInput)?;
        let head = Head {
            row: *row,
            room: *room as usize,
            table,
        };
        Ok((head, behind))
    }
}
