// How records are printed.
use layout::Record;
use rules::Side;
use std::fmt;
use std::fmt::Display;
use units::Money;

// Money, in yuan with three decimals.
#[derive(Drop)]
struct Yuan(Money);

impl Display for Yuan {
    fn fmt<W: fmt::Write>(&self, f: &mut fmt::Formatter<W>) -> fmt::Result {
        let Money(thousandths) = self.0;
        let yuan = thousandths / 1_000;
        let rest = thousandths % 1_000;
        write!(f, "{yuan}.{rest:03}")
    }
}

// A side's letter. No `Display` of `Side`: a record's side is any number, and what is none prints as S.
fn letter(side: u64) -> char {
    match Side::try_from(side) {
        Ok(Side::B) => 'B',
        _ => 'S',
    }
}

// A record: code, side, quantity, price and amount.
#[derive(Drop)]
pub struct Slip(pub Record);

impl Display for Slip {
    fn fmt<W: fmt::Write>(&self, f: &mut fmt::Formatter<W>) -> fmt::Result {
        let code = self.0.code;
        let side = letter(self.0.side);
        let quantity = self.0.quantity;
        let price = Yuan(self.0.price);
        let amount = Yuan(self.0.amount);
        write!(f, "{code:06} {side} {quantity} {price} {amount}")
    }
}
