// Records, reports and the answers of a list of calls, in runs. Three stores and no generic one: a trait with its law would be longer
// than the three copies. No `From`, since only this module takes them apart; one record of a chunk is read by `record_at` at 0.
ghost use Rattle.std.specs.Prelude.{◌≡◌, ◌+◌, ◌*◌, ◌≤◌, length};
ghost use Rattle.std.proofs.lemmas.List.Edits.{sets};
ghost use Rattle.layout.specs.Places.{record_width, report_width, answer_width};
ghost use Rattle.layout.specs.Records.{record_at, record_numbers};
ghost use Rattle.layout.specs.Reports.{group_of, report_at, report_numbers};
ghost use Rattle.layout.specs.Answers.{put_reply, reply_in};

use crate::{ANSWER_WIDTH, Group, RECORD_WIDTH, REPORT_WIDTH, Record, Report};
use units::Money;

// The k-th record of a run.
#[tactic(auto, using(crate::proofs::Account::part_at), unfolding(crate::specs::Records::record_at))]
pub fn record_at(list: &[u64], k: usize) -> Record
    requires { record_width * k + record_width ≤ length list.now }
    ensures { result ≡ record_at list.now k }
{
    let (records, _) = list.as_chunks::<RECORD_WIDTH>();
    let [code, side, quantity, price, amount] = records[k];
    Record {
        code,
        side,
        quantity,
        price: Money::new(price),
        amount: Money::new(amount),
    }
}

// A record's numbers, in their order.
fn numbers_of_record(r: Record) -> [u64; RECORD_WIDTH]
    ensures { result ≡ record_numbers r }
{
    [r.code, r.side, r.quantity, r.price.0, r.amount.0]
}

// Stores a record from a place on.
#[tactic(auto, using(crate::proofs::Stored::numbers_stored))]
pub fn put_record(list: &mut [u64], at: usize, r: Record)
    requires { at + record_width ≤ length list.old }
    ensures { list.new ≡ sets list.old at (record_numbers r) }
{
    list[at..at + RECORD_WIDTH].copy_from_slice(&numbers_of_record(r));
}

// A group of two numbers of a report.
fn group_of(kind: u64, amount: u64) -> Group
    ensures { result ≡ group_of kind amount }
{
    Group {
        kind,
        amount: Money::new(amount),
    }
}

// A report's numbers, in their order.
fn numbers_of_report(r: Report) -> [u64; REPORT_WIDTH]
    ensures { result ≡ report_numbers r }
{
    [
        r.report_type,
        r.side,
        r.code,
        r.quantity,
        r.first.kind,
        r.first.amount.0,
        r.second.kind,
        r.second.amount.0,
        r.third.kind,
        r.third.amount.0,
    ]
}

// The k-th report of a run.
#[tactic(auto, using(crate::proofs::Account::part_at), unfolding(crate::specs::Reports::report_at))]
pub fn report_at(list: &[u64], k: usize) -> Report
    requires { report_width * k + report_width ≤ length list.now }
    ensures { result ≡ report_at list.now k }
{
    let (reports, _) = list.as_chunks::<REPORT_WIDTH>();
    let [report_type, side, code, quantity, k1, m1, k2, m2, k3, m3] = reports[k];
    Report {
        report_type,
        side,
        code,
        quantity,
        first: group_of(k1, m1),
        second: group_of(k2, m2),
        third: group_of(k3, m3),
    }
}

// Stores a report from a place on.
#[tactic(auto, using(crate::proofs::Stored::numbers_stored))]
pub fn put_report(list: &mut [u64], at: usize, r: Report)
    requires { at + report_width ≤ length list.old }
    ensures { list.new ≡ sets list.old at (report_numbers r) }
{
    list[at..at + REPORT_WIDTH].copy_from_slice(&numbers_of_report(r));
}

// Stores the i-th answer: a refusal's number, its place, the value of an accepted call and the count of an order's reports.
#[tactic(auto, using(crate::proofs::Stored::numbers_stored, crate::proofs::Stored::reply_stored))]
pub fn put_answer(answers: &mut [u64], i: usize, numbers: [u64; ANSWER_WIDTH])
    requires { answer_width * i + answer_width ≤ length answers.old }
    ensures { answers.new ≡ put_reply answers.old i (reply_in numbers) }
{
    let at = ANSWER_WIDTH * i;
    answers[at..at + ANSWER_WIDTH].copy_from_slice(&numbers);
}
