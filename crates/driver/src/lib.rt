// The driver: a list of calls, given as rows of numbers, made on one day. It tests once whether the day is kept sound by every
// call; if so each call goes to its core, and if not each call tests the day for itself.
#![tactic(auto)]

ghost use Rattle.std.specs.Prelude.{◌≡◌, true, ◌*◌, IfSome};
ghost use Rattle.layout.specs.Places.{row_width, answer_width};
ghost use Rattle.layout.specs.Day.{day_at};
ghost use Rattle.rules.specs.Replies.{answer_reply};
ghost use Rattle.rules.specs.Sound.{is_kept};
ghost use Rattle.driver_rows.specs.Lent.{state_in, left_work};
ghost use Rattle.driver.specs.Batch.{batch_in, rows_fit, run_reply, ran, events_of, Demand3};

use driver_rows::Work;
use layout::DayView;
use rules::Refusal;

// Whether the rows are whole and have an answer each, as the definition says it. Measured here and then cut: with `as_chunks` alone, its
// rest and its count tested, a trade in a list took 131 instructions and 9.6 ns, and so 130 and 8.8.
#[tactic(auto, unfolding(crate::specs::Batch::rows_fit, sequences::specs::Every::every))]
fn rows_fit(rows: usize, answers: usize) -> bool
    ensures { result ≡ rows_fit rows answers }
{
    let n = rows / layout::ROW_WIDTH;
    rows == layout::ROW_WIDTH * n && answers == layout::ANSWER_WIDTH * n
}

// The list of calls: on a day of which it is known that every call keeps it sound, or with a test of the day in each.
fn run_rows(
    run: &[u64],
    kept: Option<&DayView>,
    work: &mut Work,
    rows: &[u64],
    answers: &mut [u64],
) -> Result<(), Refusal>
    requires { IfSome kept (λ day. (day.now ≡ day_at run.now) × (is_kept (day_at run.now) work.old.book.now work.old.prices.now ≡ true)) }
    ensures result_value { answer_reply result ≡ run_reply rows.now (batch_in (day_at run.now) work.old answers.old) }
    ensures work { work.new ≡ left_work work.old (ran rows.now (batch_in (day_at run.now) work.old answers.old)).work }
    ensures answers { answers.new ≡ (ran rows.now (batch_in (day_at run.now) work.old answers.old)).answers }
{
    if !rows_fit(rows.len(), answers.len()) {
        return Err(Refusal::Sizes);
    }
    let (each, _) = rows.as_chunks::<{ layout::ROW_WIDTH }>();
    // The answers by number: of what `as_chunks_mut` leaves nothing is known.
    for (i, row) in each.iter().enumerate() {
        let reply = driver_rows::row_call(run, kept, work, row);
        layout::put_answer(answers, i, reply.into());
    }
    Ok(())
}

// The list of calls made one by one (the C interface has this and `run`, with the promise of each): each tests the day, as the calls of
// `day` do.
pub fn run_public(
    day: &[u64],
    work: &mut Work,
    rows: &[u64],
    answers: &mut [u64],
) -> Result<(), Refusal>
    ensures result_value { answer_reply result ≡ run_reply rows.now (batch_in (day_at day.now) work.old answers.old) }
    ensures work { work.new ≡ left_work work.old (ran rows.now (batch_in (day_at day.now) work.old answers.old)).work }
    ensures answers { answers.new ≡ (ran rows.now (batch_in (day_at day.now) work.old answers.old)).answers }
    ensures demand { Demand3 (state_in (day_at day.now) work.old) (events_of rows.now (batch_in (day_at day.now) work.old answers.old)) (state_in (day_at day.now) work.new) }
{
    run_rows(day, None, work, rows, answers)
}

// The driver: the same list of calls, with one test of the day where every call keeps it sound.
pub fn run(day: &[u64], work: &mut Work, rows: &[u64], answers: &mut [u64]) -> Result<(), Refusal>
    ensures result_value { answer_reply result ≡ run_reply rows.now (batch_in (day_at day.now) work.old answers.old) }
    ensures work { work.new ≡ left_work work.old (ran rows.now (batch_in (day_at day.now) work.old answers.old)).work }
    ensures answers { answers.new ≡ (ran rows.now (batch_in (day_at day.now) work.old answers.old)).answers }
    ensures demand { Demand3 (state_in (day_at day.now) work.old) (events_of rows.now (batch_in (day_at day.now) work.old answers.old)) (state_in (day_at day.now) work.new) }
{
    let kept = work.kept_day(day);
    run_rows(day, kept.as_ref(), work, rows, answers)
}
