// The lists that an order is lent, as runs of numbers: records, and reports to the investor and to the fund.
// The casts by `as` lose nothing: usize and u64 both have 64 bits.
ghost use Rattle.std.specs.Prelude.{◌≡◌, vec_len, IfOk};

use program_io::marks;
use std::alloc::{AllocError, Global};

// How long they are.
#[derive(Clone, Copy)]
pub struct ListLengths {
    pub records: usize,
    pub investor: usize,
    pub fund: usize,
}

impl ListLengths {
    // By the numbers of an item.
    pub fn new(records: u64, investor: u64, fund: u64) -> ListLengths
        ensures { (result.records ≡ records) × (result.investor ≡ investor) × (result.fund ≡ fund) }
    {
        ListLengths {
            records: records as usize,
            investor: investor as usize,
            fund: fund as usize,
        }
    }

    // Whether none is longer than so many numbers of records, or of reports.
    pub fn is_within(self, records: usize, reports: usize) -> bool {
        self.records <= records && self.investor <= reports && self.fund <= reports
    }
}

#[derive(Drop)]
pub struct OwnedLists {
    pub records: Vec<u64>,
    pub investor: Vec<u64>,
    pub fund: Vec<u64>,
}

impl OwnedLists {
    // Lists that hold marks.
    pub fn marked(alloc: Global, lengths: ListLengths) -> Result<OwnedLists, AllocError>
        ensures records { IfOk result (λ lists. vec_len lists.records ≡ lengths.records) }
        ensures investor { IfOk result (λ lists. vec_len lists.investor ≡ lengths.investor) }
        ensures fund { IfOk result (λ lists. vec_len lists.fund ≡ lengths.fund) }
    {
        Ok(OwnedLists {
            records: marks::marked(alloc, lengths.records)?,
            investor: marks::marked(alloc, lengths.investor)?,
            fund: marks::marked(alloc, lengths.fund)?,
        })
    }
}
