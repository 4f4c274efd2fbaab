// A fund in a run, with its signed number and its limits. The place stands beside the run: what a store leaves is said of the whole
// run, which has other numbers around the fund, and a part lent would be named by the same place.
ghost use Rattle.std.specs.Prelude.{◌≡◌, ◌+◌, ◌≤◌, length, get_or};
ghost use Rattle.std.proofs.lemmas.List.Edits.{sets};
ghost use Rattle.sequences.specs.Below.{tabulate};
ghost use Rattle.layout.specs.Places.{limit_count, fund_width};
ghost use Rattle.layout.specs.Fund.{signed_at, signed_numbers, fund_at, fund_numbers};

use crate::{CASH_AT, Fund, LIMITS, LIMITS_FROM};
use digits::Figure;
use std::array;
use units::Rate;

// A signed number, of a sign and a size.
#[tactic(auto, unfolding(crate::specs::Fund::signed_at, digits::specs::Digits::capped))]
pub fn signed_at(run: &[u64], at: usize) -> i64
    requires { at + 2 ≤ length run.now }
    ensures { result ≡ signed_at run.now at }
{
    digits::signed_of(Figure {
        negative: run[at] == 1,
        size: run[at + 1].min(digits::CAP),
    })
}

// A signed number's two numbers.
#[tactic(auto, using(crate::proofs::Stored::as_number), unfolding(crate::specs::Fund::signed_numbers))]
pub fn signed_numbers(e: i64) -> [u64; 2]
    ensures { result ≡ signed_numbers e }
{
    let z = Figure::from(e);
    [u64::from(z.negative), z.size]
}

#[tactic(auto, using(crate::proofs::Stored::signed_stored))]
fn put_signed(run: &mut [u64], at: usize, e: i64)
    requires { at + 2 ≤ length run.old }
    ensures { run.new ≡ sets run.old at (signed_numbers e) }
{
    run[at..at + 2].copy_from_slice(&signed_numbers(e));
}

fn limits_at(run: &[u64], at: usize) -> [u64; LIMITS]
    requires { at + limit_count ≤ length run.now }
    ensures { result ≡ tabulate (λ k. get_or run.now (at + k) 0) limit_count }
{
    array::from_fn(|k| run[at + k])
}

#[tactic(auto, using(crate::proofs::Stored::limits_stored))]
fn put_limits(run: &mut [u64], at: usize, limits: [u64; LIMITS])
    requires { at + limit_count ≤ length run.old }
    ensures { run.new ≡ sets run.old at (tabulate (λ k. get_or limits k 0) limit_count) }
{
    run[at..at + LIMITS].copy_from_slice(&limits);
}

// The fund whose numbers start at a place of a run.
#[tactic(auto, unfolding(crate::specs::Fund::fund_at))]
pub fn fund_of(run: &[u64], at: usize) -> Fund
    requires { at + fund_width ≤ length run.now }
    ensures { result ≡ fund_at run.now at }
{
    Fund {
        first_code: run[at],
        basket_size: run[at + 1],
        max_cash_ratio: Rate::new(run[at + 2]),
        switch: run[at + 3],
        estimated_cash: signed_at(run, at + CASH_AT),
        limits: limits_at(run, at + LIMITS_FROM),
    }
}

// Stores a fund's numbers from a place on.
#[tactic(auto, using(crate::proofs::Stored::fund_stored))]
pub fn put_fund(run: &mut [u64], at: usize, f: Fund)
    requires { at + fund_width ≤ length run.old }
    ensures { run.new ≡ sets run.old at (fund_numbers f) }
{
    run[at] = f.first_code;
    run[at + 1] = f.basket_size;
    run[at + 2] = f.max_cash_ratio.0;
    run[at + 3] = f.switch;
    put_signed(run, at + CASH_AT, f.estimated_cash);
    put_limits(run, at + LIMITS_FROM, f.limits);
}
