// A writer over a lent list of records.
#![tactic(auto)]

ghost use Rattle.std.specs.Prelude.{◌≡◌};
ghost use Rattle.record_writer.specs.Stored.{room_left, pushed, left_less};

use layout::Record;
use order_records::RecordSink;

// A writer over a lent list, the form that the project names: it holds the place of the next record.
#[derive(Drop)]
pub struct Writer<'a> {
    pub list: &'a mut [Record],
    pub at: usize,
}

impl<'a> Writer<'a> {
    // A writer at the first place of a list.
    pub fn new(list: &'a mut [Record]) -> Self
        ensures { (result.list ≡ list.entry) × (result.at ≡ 0) }
    {
        Writer { list, at: 0 }
    }
}

impl RecordSink for Writer<'_> {
    ghost room = { room_left };

    ghost pushed = { pushed };

    #[tactic(auto, unfolding(crate::specs::Stored::room_left))]
    fn room(&self) -> usize {
        self.list.len().saturating_sub(self.at)
    }

    #[tactic(auto, unfolding(crate::specs::Stored::room_left))]
    fn push(&mut self, r: Record) {
        self.list[self.at] = r;
        self.at += 1;
    }

    ghost room_less = { left_less };
}
