// Calls: each is made and its reply printed; what was lent to one that is refused or only reads is compared with what it was.
// The casts by `as` lose nothing: usize and u64 both have 64 bits.
use crate::kept;
use crate::order_items::Order;
use answers::Numbers;
use day_items::replies;
use day_items::session::{Kept, Session};
use program_io::fault::Fault;
use program_io::items::Item;
use rules::{Kind, Trade};
use std::io::Write;
use units::Money;

// Beside the calls that a row of the driver names, which are its own, an item may name an order's tests alone; and an order here has
// lists of its own.
#[derive(Clone, Copy)]
pub enum Call {
    Price { line: usize, price: u64 },
    Trade(Trade),
    Value,
    Order(Order),
    Test(Order),
}

impl TryFrom<&Item> for Call {
    type Error = Fault;

    fn try_from(item: &Item) -> Result<Call, Fault> {
        match (item.tag, item.numbers.as_slice()) {
            (4, [line, price]) => Ok(Call::Price {
                line: *line as usize,
                price: *price,
            }),
            (5, [line, quantity, price, seller, buyer]) => Ok(Call::Trade(Trade {
                line: *line as usize,
                quantity: *quantity,
                price: Money::new(*price),
                seller: *seller as usize,
                buyer: *buyer as usize,
            })),
            (6, numbers) => Ok(Call::Order(Order::with_room(Kind::Creation, numbers)?)),
            (7, numbers) => Ok(Call::Order(Order::with_room(Kind::Redemption, numbers)?)),
            (8, []) => Ok(Call::Value),
            (11, numbers) => Ok(Call::Test(Order::new(Kind::Creation, numbers)?)),
            (12, numbers) => Ok(Call::Test(Order::new(Kind::Redemption, numbers)?)),
            _ => Err(Fault::BadInput),
        }
    }
}

impl Call {
    // Makes the call and prints its reply. Whether it is one that leaves the book and the prices: one that was refused, or only reads.
    fn carry_out<W: Write>(&self, session: &mut Session, out: &mut W) -> Result<bool, Fault> {
        match *self {
            Call::Price { line, price } => {
                let (day, book) = (&session.day, &session.book);
                let answer = day::price(day, book, &mut session.prices, line, price);
                replies::print(out, "price", Numbers::from(answer))?;
                Ok(answer.is_err())
            }
            Call::Trade(trade) => {
                let answer = day::trade(&session.day, &mut session.book, &session.prices, trade);
                replies::print(out, "trade", Numbers::from(answer))?;
                Ok(answer.is_err())
            }
            Call::Value => {
                let answer = day::reference_value(&session.day, &session.book, &session.prices);
                replies::print(out, "value", Numbers::from(answer))?;
                Ok(true)
            }
            Call::Order(order) => order.make(session, out),
            Call::Test(order) => {
                let answer = order.tested(session);
                write!(out, "test-")?;
                replies::print(out, order.name(), Numbers::from(answer))?;
                Ok(true)
            }
        }
    }

    // Hands back what the book and the prices were before the call.
    pub fn make<W: Write>(&self, session: &mut Session, out: &mut W) -> Result<Kept, Fault> {
        let kept = Kept::new(session)?;
        if self.carry_out(session, out)? {
            kept::print_same(&kept, session, out)?;
        }
        Ok(kept)
    }
}
