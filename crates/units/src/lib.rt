// The paper's units of count, each a type of its own, and the roundings between them. What a rounding asks is a range of the number
// in it: a sound day says all ranges at once, and a type for each would be made and opened again at each call.
#![tactic(auto)]

ghost use Rattle.std.specs.Prelude.{◌≡◌, ◌+◌, ◌*◌, ◌≤◌, ◌<◌, ◌^◌};
ghost use Rattle.units.specs.Units.{rate_one, rounded, premium, discount, ratio_bound};

use std::ops::Add;

// Thousandths of a yuan.
#[derive(Clone, Copy, PartialEq, Eq, PartialOrd, Ord, Debug, Default)]
pub struct Money(pub u64);

// Hundred-thousandths.
#[derive(Clone, Copy, PartialEq, Eq, PartialOrd, Ord, Debug, Default)]
pub struct Rate(pub u64);

// Ten-thousandths of a yuan.
#[derive(Clone, Copy, PartialEq, Eq, PartialOrd, Ord, Debug)]
pub struct ReferenceValue(pub u64);

impl Money {
    // The split size, 1,000 yuan: cash from here on takes two records.
    pub const SPLIT: Money = Money(1_000_000);

    // The money that a number in a run says.
    pub fn new(thousandths: u64) -> Self
        ensures { result.0 ≡ thousandths }
    {
        Money(thousandths)
    }

    // Two functions of one line: the paper's two roundings, each with its definition.

    // The amount times (100,000 + rate) / 100,000, rounded.
    #[tactic(auto, unfolding(crate::specs::Units::premium))]
    pub fn with_premium(self, rate: Rate) -> Money
        requires { (self.0 ≤ 20_000_000_000_000_000) × (rate.0 ≤ 100_000) }
        ensures { result.0 ≡ premium self.0 rate.0 }
    {
        Money(scaled(self.0, Rate::ONE.0 + rate.0))
    }

    // The amount times (100,000 - rate) / 100,000, rounded.
    #[tactic(auto, unfolding(crate::specs::Units::discount))]
    pub fn with_discount(self, rate: Rate) -> Money
        requires { (self.0 ≤ 20_000_000_000_000_000) × (rate.0 ≤ 100_000) }
        ensures { result.0 ≡ discount self.0 rate.0 }
    {
        Money(scaled(self.0, Rate::ONE.0 - rate.0))
    }
}

impl Add for Money {
    type Output = Money;

    ghost can_add = { λ x y. x.0 + y.0 < 2 ^ 64 };

    ghost add_gives = { λ x y sum. sum.0 ≡ x.0 + y.0 };

    fn add(self, other: Money) -> Money {
        Money(self.0 + other.0)
    }
}

impl Rate {
    // The rate one.
    pub const ONE: Rate = Rate(100_000);

    // The rate that a number in a run says.
    pub fn new(hundred_thousandths: u64) -> Self
        ensures { result.0 ≡ hundred_thousandths }
    {
        Rate(hundred_thousandths)
    }
}

impl ReferenceValue {
    pub fn new(ten_thousandths: u64) -> Self
        ensures { result.0 ≡ ten_thousandths }
    {
        ReferenceValue(ten_thousandths)
    }

    // The most cash that may stand for missing stock of `baskets` baskets of `size` units under a maximum cash ratio.
    pub fn ratio_bound(self, baskets: u64, size: u64, ratio: Rate) -> Money
        requires { (self.0 ≤ 9_999_999) × (baskets ≤ 20) × (size ≤ 99_999_999) × (ratio.0 ≤ 100_000) }
        ensures { result.0 ≡ ratio_bound baskets size self.0 ratio.0 }
    {
        let worth = baskets * size * self.0;
        Money((worth / 1_000_000) * ratio.0 + (worth % 1_000_000) * ratio.0 / 1_000_000)
    }
}

// v times k hundred-thousandths, rounded: the product is taken in two halves, so that it fits 64 bits. Most lines of an order have
// no cash, and 0 needs no division.
#[tactic(auto, using(crate::proofs::Laws::split, crate::proofs::Laws::rounded_rate), unfolding(crate::specs::Units::rounded))]
fn scaled(v: u64, k: u64) -> u64
    requires { (v ≤ 20_000_000_000_000_000) × (k ≤ 200_000) }
    ensures { result ≡ rounded (v * k) rate_one }
{
    if v == 0 {
        return 0;
    }
    let one = Rate::ONE.0;
    (v / one) * k + ((v % one) * k + one / 2) / one
}
