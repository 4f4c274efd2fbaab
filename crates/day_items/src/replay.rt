// A player of items on one session: openings and states give it, and each program has further items of its own.
use crate::given::{Given, Lengths};
use crate::session::Session;
use program_io::fault::Fault;
use program_io::items::Item;
use program_io::player::Player;
use std::alloc::{AllocError, Global};
use std::io::Write;

// What makes a program's calls on a session. From each opening and each state that `Replay` reads it is the default again; a state may
// also be an item of the program's own.
pub trait Caller: Default + Drop {
    // The most numbers that an item may have, and the longest book and prices.
    const MOST_NUMBERS: usize;

    const LONGEST: Lengths;

    // How many numbers an opening or a state may have, a whole flag table counted in place of its own: any count, unless a caller says one.
    const MOST_GIVEN: usize = usize::MAX;

    // Does what any other item says, and prints what comes of it.
    fn obey<W: Write>(
        &mut self,
        session: &mut Session,
        item: &Item,
        out: &mut W,
    ) -> Result<(), Fault>;
}

#[derive(Drop)]
pub struct Replay<C> {
    session: Session,
    caller: C,
}

impl<C: Caller> Player for Replay<C> {
    const MOST_NUMBERS: usize = C::MOST_NUMBERS;

    fn new(alloc: Global) -> Result<Replay<C>, AllocError> {
        let session = Session::with_most(alloc, C::LONGEST, C::MOST_GIVEN)?;
        let caller = C::default();
        Ok(Replay { session, caller })
    }

    fn obey<W: Write>(&mut self, item: &Item, out: &mut W) -> Result<(), Fault> {
        match item.tag {
            1 => {
                self.caller = C::default();
                self.session.open(&Given::try_from(item)?, out)
            }
            3 => {
                self.caller = C::default();
                self.session.set(&Given::try_from(item)?, out)
            }
            _ => self.caller.obey(&mut self.session, item, out),
        }
    }
}

#[cfg(test)]
mod tests {
    use super::*;
    use program_io::player;
    use std::test::Fail;

    // A caller that has no items of its own, and says no count of numbers with a whole flag table.
    #[derive(Default, Drop)]
    struct Plain;

    impl Caller for Plain {
        const MOST_NUMBERS: usize = 40;

        const LONGEST: Lengths = Lengths { book: 0, prices: 0 };

        fn obey<W: Write>(&mut self, _: &mut Session, _: &Item, _: &mut W) -> Result<(), Fault> {
            Err(Fault::BadInput)
        }
    }

    // Openings with no flag table, with one of a single number, and with one that takes all the numbers behind the head; then a table one
    // longer than what is there, and an item one number too long.
    #[test]
    fn openings_in_room(rt: HostRuntime) -> Result<(), Fail> {
        for (width, table, is_read) in [
            (21, 0, true),
            (40, 0, true),
            (40, 2, true),
            (40, 20, true),
            (40, 21, false),
            (41, 0, false),
        ] {
            let behind = " 0".repeat(rt.alloc(), width - 21)?;
            let head = "1 2 1 510050 2 9524 1 0 2 0 0 0 0 0 0 0 0";
            let item = format!(in rt.alloc(); "1 {width} {head} {table} 0 0 0{behind}")?;
            let out = player::printed::<Replay<Plain>, _>(rt.alloc(), item.as_bytes())?;
            let want = if is_read {
                "row 1\nopening 1 0 0 0\nsame\n"
            } else {
                "bad input\n"
            };
            assert_eq!(rt; out.as_slice(), want.as_bytes(), "{width}, {table}");
        }
        Ok(())
    }
}
