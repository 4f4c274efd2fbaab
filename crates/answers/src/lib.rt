// Answers as the paper's four numbers: a refusal's number (0 accepted), its place, the value of an accepted call, and of an order
// the count of its reports.
// The casts by `as` lose nothing: usize and u64 both have 64 bits.
#![tactic(auto)]

ghost use Rattle.std.specs.Prelude.{◌≡◌};
ghost use Rattle.sequences.specs.Checks.{reply};
ghost use Rattle.layout.specs.Answers.{reply_in};
ghost use Rattle.rules.specs.Replies.{refusal_reply, answer_reply, order_answer_reply, value_answer_reply, count_answer_reply};
ghost use Rattle.answers.specs.Numbers.{reply_of, Told, ToldOrder};

use rules::{Counts, Refusal};
use units::ReferenceValue;

// Numbers, and no Result: in these an answer crosses to C, and goes into the list of a batch's answers.
#[derive(Clone, Copy, Default, PartialEq, Eq, Debug)]
pub struct Numbers {
    pub number: u64,
    pub place: u64,
    pub value: u64,
    pub reports: u64,
}

// A refusal with its place. It tells no value, which is 0 then.
fn refused_at(number: u64, place: usize) -> Numbers
    ensures { reply_of result ≡ reply number place 0 }
{
    Numbers {
        number,
        place: place as u64,
        ..Numbers::default()
    }
}

// An accepted call with its value.
fn accepted(value: u64) -> Numbers
    ensures { reply_of result ≡ reply 0 0 value }
{
    Numbers {
        value,
        ..Numbers::default()
    }
}

// An impl for each answer: a trait of what an accepted call tells would take as many, and each answer has its own definition.

// The paper's numbers are those of the C interface. They stand here and not as the enum's own, since some refusals have a place beside.
impl From<Refusal> for Numbers {
    ghost from_gives = { λ why numbers. reply_of numbers ≡ refusal_reply why };

    fn from(why: Refusal) -> Numbers {
        match why {
            Refusal::Sizes => refused_at(1, 0),
            Refusal::FundField => refused_at(2, 0),
            Refusal::Component(place) => refused_at(3, place),
            Refusal::Total(place) => refused_at(4, place),
            Refusal::UnsoundDay => refused_at(5, 0),
            Refusal::NoSuchLine => refused_at(6, 0),
            Refusal::QuantityOrPrice => refused_at(7, 0),
            Refusal::Account => refused_at(8, 0),
            Refusal::ShortOfStock(place) => refused_at(9, place),
            Refusal::ShortOfCash => refused_at(10, 0),
            Refusal::NotWholeBaskets => refused_at(11, 0),
            Refusal::Switch => refused_at(12, 0),
            Refusal::Limit => refused_at(13, 0),
            Refusal::NoReferenceValue => refused_at(14, 0),
            Refusal::CashRatio => refused_at(15, 0),
            Refusal::ListTooShort => refused_at(16, 0),
            Refusal::FundShort(place) => refused_at(17, place),
            Refusal::TextLine(place) => refused_at(18, place),
            Refusal::TextField(place) => refused_at(19, place),
            Refusal::RecordCount => refused_at(20, 0),
            Refusal::FlagTable(place) => refused_at(21, place),
        }
    }
}

impl From<Result<(), Refusal>> for Numbers {
    ghost from_gives = { λ answer numbers. reply_of numbers ≡ answer_reply answer };

    fn from(answer: Result<(), Refusal>) -> Numbers {
        match answer {
            Ok(()) => accepted(0),
            Err(why) => Numbers::from(why),
        }
    }
}

impl From<Result<Counts, Refusal>> for Numbers {
    ghost from_gives = { λ answer numbers. reply_of numbers ≡ order_answer_reply answer };

    fn from(answer: Result<Counts, Refusal>) -> Numbers {
        match answer {
            Ok(counts) => Numbers {
                reports: counts.reports as u64,
                ..accepted(counts.records as u64)
            },
            Err(why) => Numbers::from(why),
        }
    }
}

impl From<Result<ReferenceValue, Refusal>> for Numbers {
    ghost from_gives = { λ answer numbers. reply_of numbers ≡ value_answer_reply answer };

    fn from(answer: Result<ReferenceValue, Refusal>) -> Numbers {
        match answer {
            Ok(value) => accepted(value.0),
            Err(why) => Numbers::from(why),
        }
    }
}

// The answer of a call that tells a count: of components that are read, or of bytes that are written.
impl From<Result<usize, Refusal>> for Numbers {
    ghost from_gives = { λ answer numbers. reply_of numbers ≡ count_answer_reply answer };

    fn from(answer: Result<usize, Refusal>) -> Numbers {
        match answer {
            Ok(count) => accepted(count as u64),
            Err(why) => Numbers::from(why),
        }
    }
}

// The numbers in the order in which they are stored, as `layout::put_answer` takes them.
impl From<Numbers> for [u64; layout::ANSWER_WIDTH] {
    ghost from_gives = { λ numbers array. reply_in array ≡ reply_of numbers };

    fn from(numbers: Numbers) -> [u64; layout::ANSWER_WIDTH] {
        [
            numbers.number,
            numbers.place,
            numbers.value,
            numbers.reports,
        ]
    }
}

// An answer's numbers: the place and the value where the caller points, and the number handed back, as the C interface asks.
pub fn tell(answer: Numbers, place: &mut u64, value: &mut u64) -> u64
    ensures { Told (reply_of answer) result place.new value.new }
{
    *place = answer.place;
    *value = answer.value;
    answer.number
}

// An order's numbers: the count of its reports where the caller points too. The C interface gives an order this one pointer more.
pub fn tell_order(answer: Numbers, place: &mut u64, value: &mut u64, reports: &mut u64) -> u64
    ensures { ToldOrder (reply_of answer) result place.new value.new reports.new }
{
    *reports = answer.reports;
    tell(answer, place, value)
}
