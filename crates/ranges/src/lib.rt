// Small tests that calls share. The cast by `as` loses nothing: usize and u64 both have 64 bits.
#![tactic(auto)]

ghost use Rattle.std.specs.Prelude.{◌≡◌, [], ◌∷◌, ◌||◌, ◌+◌, ◌/◌, ◌%◌, ◌<◌, eqb};
ghost use Rattle.sequences.specs.Every.{every, inside};
ghost use Rattle.rules.specs.Trade.{is_investor};
ghost use Rattle.rules.specs.Orders.{most_baskets, number_of, within_limit};

use rules::Kind;
use std::num::NonZeroU64;

// Whether x is lo to hi. One call, and a function for its contract: who asks it cites `inside` and unfolds nothing.
#[tactic(auto, using(std::proofs::lemmas::Bool::Decides::nat_tests), unfolding(sequences::specs::Every::inside))]
pub fn is_inside(lo: u64, hi: u64, x: u64) -> bool
    ensures { result ≡ inside lo hi x }
{
    (lo..=hi).contains(&x)
}

// Whether a is one of the accounts other than the fund.
#[tactic(auto, using(std::proofs::lemmas::Bool::Decides::nat_tests), unfolding(rules::specs::Trade::is_investor, sequences::specs::Every::inside))]
pub fn is_investor(accounts: usize, a: usize) -> bool
    ensures { result ≡ is_investor accounts a }
{
    (1..accounts).contains(&a)
}

// Whether so many units are a whole count of baskets from 1 to the most. A size above 0 is a clause: the count is divided by it.
#[tactic(auto, unfolding(sequences::specs::Every::every))]
pub fn whole_baskets(size: u64, units: u64) -> bool
    requires { 0 < size }
    ensures { result ≡ every (eqb (units % size) 0 ∷ inside 1 most_baskets (units / size) ∷ []) }
{
    units.is_multiple_of(size) && is_inside(1, rules::MOST_BASKETS, units / size)
}

// Whether the switch, a number as it lies in a run, allows a kind of order: 1 both, 2 creation only, 3 redemption only.
#[tactic(auto, using(std::proofs::lemmas::Bool::Decides::nat_tests))]
pub fn switch_allows(switch: u64, kind: Kind) -> bool
    ensures { result ≡ (eqb switch 1 || eqb switch (2 + number_of kind)) }
{
    switch == 1 || switch == 2 + kind.number() as u64
}

// Whether so many units pass no limit; 0 is no limit, as it lies in a run.
#[tactic(auto, using(std::proofs::lemmas::Bool::Decides::nat_tests), unfolding(rules::specs::Orders::within_limit))]
pub fn within_limit(limit: u64, units: u64) -> bool
    ensures { result ≡ within_limit limit units }
{
    NonZeroU64::new(limit).is_none_or(|most| units <= most.get())
}
