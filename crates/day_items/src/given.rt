// What the item of an opening or a state gives.
// The casts by `as` lose nothing: usize and u64 both have 64 bits.
use layout::Fund;
use program_io::fault::Fault;
use program_io::items::{Item, split};

// The head of an opening and of a state: the row, a day's run up to its flag table, the length of the table that is given and one more
// (0 where none is), and the lengths of components, book and prices. Behind it stand the table and the components, and then the
// holdings, or the book and the prices.
pub const HEAD: usize = 1 + layout::TABLE_FROM + 4;

// How many numbers of an item a whole flag table takes, with its length: an item of a form with no table may have so many fewer.
pub const TABLE_NUMBERS: usize = 1 + flags::TABLE_WIDTH;

// How long a book and prices are.
#[derive(Clone, Copy)]
pub struct Lengths {
    pub book: usize,
    pub prices: usize,
}

#[derive(Drop)]
pub struct Given<'a> {
    pub row: u64,
    pub accounts: usize,
    pub count: usize,
    pub fund: Fund,
    // The numbers of a day's run before its flag table.
    pub day: &'a [u64],
    // A run of any length; none where no table is given.
    pub table: Option<&'a [u64]>,
    pub components: &'a [u64],
    // Lengths alone: an opening says how long its book and its prices are, and has none.
    pub lengths: Lengths,
    // The holdings, or the book and the prices.
    pub rest: &'a [u64],
}

impl<'a> TryFrom<&'a Item> for Given<'a> {
    type Error = Fault;

    // Cash is of one of two signs, and of a size that an amount can have.
    fn try_from(item: &'a Item) -> Result<Given<'a>, Fault> {
        let (head, body) = split(&item.numbers, HEAD)?;
        // Neither of the next two `let .. else` can fail. Tried with the head as an array, by `split_first_chunk`: a part of an array
        // behind a reference (`day @ ..`) has no proof.
        let [row, day @ .., table, components, book, prices] = head else {
            return Err(Fault::BadInput);
        };
        let [accounts, count, fund @ ..] = day else {
            return Err(Fault::BadInput);
        };
        let [_, _, _, _, 0 | 1, size, ..] = fund else {
            return Err(Fault::BadInput);
        };
        let length = (*table as usize).checked_sub(1);
        let (table, rest) = split(body, length.unwrap_or(0))?;
        let (components, rest) = split(rest, *components as usize)?;
        if i64::try_from(*size).is_err() {
            return Err(Fault::BadInput);
        }
        Ok(Given {
            row: *row,
            accounts: *accounts as usize,
            count: *count as usize,
            fund: layout::fund_of(fund, 0),
            day,
            table: length.map(|_| table),
            components,
            lengths: Lengths {
                book: *book as usize,
                prices: *prices as usize,
            },
            rest,
        })
    }
}
