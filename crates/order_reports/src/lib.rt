// The reports of an order to its two parties, written to lent runs of numbers one behind another: the investor's, and the fund's, which are
// these with the side turned.
#![tactic(auto)]

ghost use Rattle.std.specs.Prelude.{◌≡◌, ◌*◌, ◌≤◌, ◌<◌, length, [], ◌∷◌, MatchOption};
ghost use Rattle.std.proofs.lemmas.List.Edits.{sets};
ghost use Rattle.sequences.specs.Below.{tabulate};
ghost use Rattle.layout.specs.Places.{report_width};
ghost use Rattle.layout.specs.Laid.{laid};
ghost use Rattle.layout.specs.Reports.{report_numbers};
ghost use Rattle.std.specs.Int.NonZero.{non_zero_u64_get};
ghost use Rattle.rules.specs.Records.{side_number};
ghost use Rattle.rules.specs.Reports.{cash_number, type_number, unit_type, move_report, opposite};
ghost use Rattle.order_records.specs.Put.{put_all, quantity_in};
ghost use Rattle.order_reports.specs.Put.{group_there, reports_left, with_report, line_report, told_cash, mirrored};

use layout::{Group, Report};
use rules::{CashByMarket, CashKind, ReportType, Side};
use std::num::NonZeroU64;
use units::Money;

// The group where a report has none. No `Default` of `layout::Group`: kind 0 is none of `CashKind`, which `layout` does not know. A report
// has numbers for type, side and kinds, as any run may show (`layout::Report`); what makes it here (`told`, `cash_report`) takes the enums.
const NO_GROUP: Group = Group {
    kind: 0,
    amount: Money(0),
};

// The group of an amount of cash, none where the amount is 0.
#[tactic(auto, unfolding(crate::specs::Put::group_there))]
fn group(kind: CashKind, amount: Money) -> Option<Group>
    ensures { result ≡ group_there (cash_number kind) amount.0 }
{
    (amount != Money(0)).then_some(Group {
        kind: u64::from(kind),
        amount,
    })
}

// A report of the unit or of stock: so many of a code.
fn told(report_type: ReportType, side: Side, code: u64, quantity: u64) -> Report
    ensures { result ≡ move_report (type_number report_type) (side_number side) code quantity }
{
    Report {
        report_type: u64::from(report_type),
        side: u64::from(side),
        code,
        quantity,
        first: NO_GROUP,
        second: NO_GROUP,
        third: NO_GROUP,
    }
}

// The report of all cash, none where there is none: Shanghai, then other, which moves up where there is none of Shanghai.
#[tactic(auto, unfolding(crate::specs::Put::group_there, rules::specs::Reports::cash_groups, rules::specs::Reports::present))]
fn cash_report(side: Side, cash: CashByMarket) -> Option<Report>
    ensures { MatchOption result (told_cash (side_number side) cash ≡ []) (λ r. told_cash (side_number side) cash ≡ r ∷ []) }
{
    let shanghai = group(CashKind::Shanghai, cash.shanghai);
    let other = group(CashKind::Other, cash.other);
    let first = shanghai.or(other)?;
    Some(Report {
        report_type: u64::from(ReportType::Cash),
        side: u64::from(side),
        code: 0,
        quantity: 0,
        first,
        second: shanghai.and(other).unwrap_or(NO_GROUP),
        third: NO_GROUP,
    })
}

// The investor's run, to which an order's reports go one behind another, and its next free place.
#[derive(Drop)]
pub struct Reports<'a> {
    pub run: &'a mut [u64],
    pub at: usize,
}

impl<'a> Reports<'a> {
    // Writes a report.
    #[tactic(auto, unfolding(crate::specs::Put::reports_left))]
    fn put(&mut self, r: Report)
        requires { 0 < reports_left self.old }
        ensures { self.new ≡ with_report self.old r }
    {
        layout::put_report(self.run, self.at, r);
        self.at += layout::REPORT_WIDTH;
    }

    // The report of the units.
    pub fn tell_unit(&mut self, first_code: u64, side: Side, units: u64)
        requires { 0 < reports_left self.old }
        ensures { self.new ≡ with_report self.old (move_report unit_type (side_number side) first_code units) }
    {
        self.put(told(ReportType::Unit, side, first_code, units));
    }

    // The report of a component of which stock moves.
    #[tactic(auto, using(order_records::proofs::Laws::put_none, order_records::proofs::Laws::put_one, crate::proofs::Laws::line_none, crate::proofs::Laws::line_some))]
    pub fn tell_line(&mut self, code: u64, side: Side, moved: Option<NonZeroU64>)
        requires { length (line_report code (side_number side) (quantity_in non_zero_u64_get moved)) ≤ reports_left self.old }
        ensures { self.new ≡ put_all with_report self.old (line_report code (side_number side) (quantity_in non_zero_u64_get moved)) }
    {
        if let Some(q) = moved {
            self.put(told(ReportType::Stock, side, code, q.get()));
        }
    }

    // The report of cash, where there is any.
    #[tactic(auto, using(order_records::proofs::Laws::put_none, order_records::proofs::Laws::put_one))]
    pub fn tell_cash(&mut self, side: Side, cash: CashByMarket)
        requires { length (told_cash (side_number side) cash) ≤ reports_left self.old }
        ensures { self.new ≡ put_all with_report self.old (told_cash (side_number side) cash) }
    {
        if let Some(r) = cash_report(side, cash) {
            self.put(r);
        }
    }
}

// The same report to the other party.
#[tactic(auto, unfolding(rules::specs::Reports::turned))]
fn opposite(r: Report) -> Report
    ensures { result ≡ opposite r }
{
    let side = if r.side == u64::from(Side::B) {
        Side::S
    } else {
        Side::B
    };
    Report {
        side: u64::from(side),
        ..r
    }
}

// Writes the fund's reports, so many: the investor's, each with its side turned. A pass of its own: where they are told with the investor's
// as the stock moves, a creation takes 5 % more time.
pub fn mirror(investor: &[u64], fund: &mut [u64], count: usize)
    requires { (report_width * count ≤ length investor.now) × (report_width * count ≤ length fund.old) }
    ensures { fund.new ≡ sets fund.old 0 (laid report_numbers (tabulate (mirrored investor.now) count)) }
{
    for k in 0..count {
        let r = layout::report_at(investor, k);
        layout::put_report(fund, layout::REPORT_WIDTH * k, opposite(r));
    }
}
