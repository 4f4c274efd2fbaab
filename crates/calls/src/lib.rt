// Refusal 5: a call looks at its day first. A run of another length than a day's is the blank day, which is not sound. Day, book and prices
// are parameters of their own, as in `day`.
#![tactic(auto)]

ghost use Rattle.std.specs.Prelude.{◌≡◌, true, false, MatchOption, OnOk, IfOk, IfErr};
ghost use Rattle.layout.specs.Day.{blank_day, day_at};
ghost use Rattle.rules.specs.declared.Refusal.TheVariants.{UnsoundDay};
ghost use Rattle.rules.specs.Sound.{is_sound, is_kept};

use layout::DayView;
use rules::Refusal;

// The day in a run, where the run has a day's length.
#[tactic(auto, using(layout::proofs::Day::day_none))]
fn day_in(run: &[u64]) -> Option<DayView<'_>>
    ensures { MatchOption result (day_at run.now ≡ blank_day) (λ day. day ≡ day_at run.now) }
{
    (run.len() == layout::DAY_WIDTH).then(|| layout::view_of(run))
}

// The day in a run, where it is sound; else refusal 5.
#[tactic(auto, using(crate::proofs::Run::blank_unsound))]
pub fn sound_day<'a>(run: &'a [u64], book: &[u64], prices: &[u64]) -> Result<DayView<'a>, Refusal>
    ensures ok { IfOk result (λ day. day ≡ day_at run.now) }
    ensures sound { OnOk result (is_sound (day_at run.now) book.now prices.now ≡ true) }
    ensures err { IfErr result (λ why. (why ≡ UnsoundDay) × (is_sound (day_at run.now) book.now prices.now ≡ false)) }
{
    day_in(run)
        .filter(|day| sound::is_sound(day, book, prices))
        .ok_or(Refusal::UnsoundDay)
}

// The day in a run, where it has what every call keeps. Not one function with the above: their contracts are of two tests, and the one
// tells a refusal, the other none.
#[tactic(auto, using(crate::proofs::Run::blank_not_kept))]
pub fn kept_day<'a>(run: &'a [u64], book: &[u64], prices: &[u64]) -> Option<DayView<'a>>
    ensures { MatchOption result (is_kept (day_at run.now) book.now prices.now ≡ false) (λ day. (day ≡ day_at run.now) × (is_kept (day_at run.now) book.now prices.now ≡ true)) }
{
    day_in(run).filter(|day| sound::is_kept(day, book, prices))
}
