// An accepted order is settled: its stock, units and cash move, and its records and the investor's reports are put, with one pass over the
// components.
#![tactic(auto)]

ghost use Rattle.std.specs.Prelude.{◌≡◌, ◌+◌, ◌*◌, ◌≤◌, ◌<◌, length};
ghost use Rattle.layout.specs.Places.{report_width};
ghost use Rattle.layout.specs.Book.{width, account};
ghost use Rattle.layout.specs.Reports.{with_reports};
ghost use Rattle.rules.specs.Kinds.{all_cash, records_by, reports_by, order_moves};
ghost use Rattle.book.specs.Moved.{stock_moves};
ghost use Rattle.book.specs.Ready.{StockReady, FundReady, OrderReady};
ghost use Rattle.order_records.specs.Put.{put_all, stock_records};
ghost use Rattle.order_records.specs.Ready.{Writable};
ghost use Rattle.order_reports.specs.Put.{with_report, reports_left, stock_reports};

use layout::DayView;
use order_records::RecordSink;
use order_reports::Reports;
use order_stock::StockOrder;
use rules::{Ask, CashByMarket, Kind};
use units::Money;

// Moves the stock of every component, and puts its record and reports. By number: it is the component's, that of its lots on both sides,
// and the turn in the definition. Its callers name the kind, so that no copy of the loop tests it for each component.
#[inline(always)]
fn settle_lines<S: RecordSink>(
    ask: Ask,
    day: &DayView,
    book: &mut [u64],
    m: u64,
    records: &mut S,
    reports: &mut Reports,
)
    requires account_nonzero { (0 < ask.account) × (ask.account * width day.now + width day.now ≤ length book.old) }
    requires stock_ready { StockReady day.now (account day.now book.old ask.account) m }
    requires fund_ready { FundReady ask.kind day.now (account day.now book.old ask.account) (account day.now book.old 0) m }
    requires records_fit { length (stock_records ask.kind day.now (account day.now book.old ask.account) m) ≤ S.room records.old }
    requires reports_fit { length (stock_reports ask.kind day.now (account day.now book.old ask.account) m) ≤ reports_left reports.old }
    ensures records { records.new ≡ put_all S.pushed records.old (stock_records ask.kind day.now (account day.now book.old ask.account) m) }
    ensures reports { reports.new ≡ put_all with_report reports.old (stock_reports ask.kind day.now (account day.now book.old ask.account) m) }
    ensures moved { book.new ≡ stock_moves ask.kind day.now ask.account m day.now.count book.old }
{
    let count = day.count();
    let width = layout::width_of(count);
    let order = StockOrder {
        kind: ask.kind,
        table: day.table(),
        width,
        account: ask.account,
        baskets: m,
    };
    let side = order_records::stock_side(ask.kind);
    for i in 0..count {
        let c = day.component(i);
        let moved = order.move_line(book, c, i);
        order_records::put_line(records, c.code, side, moved);
        reports.tell_line(c.code, side, moved);
    }
}

// The stock of an order of either kind. With one loop for both a creation takes 3 % more instructions and a redemption 25 %.
fn settle_stock<S: RecordSink>(
    ask: Ask,
    day: &DayView,
    book: &mut [u64],
    m: u64,
    records: &mut S,
    reports: &mut Reports,
)
    requires account_nonzero { (0 < ask.account) × (ask.account * width day.now + width day.now ≤ length book.old) }
    requires stock_ready { StockReady day.now (account day.now book.old ask.account) m }
    requires fund_ready { FundReady ask.kind day.now (account day.now book.old ask.account) (account day.now book.old 0) m }
    requires records_fit { length (stock_records ask.kind day.now (account day.now book.old ask.account) m) ≤ S.room records.old }
    requires reports_fit { length (stock_reports ask.kind day.now (account day.now book.old ask.account) m) ≤ reports_left reports.old }
    ensures records { records.new ≡ put_all S.pushed records.old (stock_records ask.kind day.now (account day.now book.old ask.account) m) }
    ensures reports { reports.new ≡ put_all with_report reports.old (stock_reports ask.kind day.now (account day.now book.old ask.account) m) }
    ensures book { book.new ≡ stock_moves ask.kind day.now ask.account m day.now.count book.old }
{
    let Ask {
        kind,
        account,
        units,
    } = ask;
    match kind {
        Kind::Creation => {
            let ask = Kind::Creation.ask(account, units);
            settle_lines(ask, day, book, m, records, reports);
        }
        Kind::Redemption => {
            let ask = Kind::Redemption.ask(account, units);
            settle_lines(ask, day, book, m, records, reports);
        }
    }
}

// Settles an order in `m` baskets with its cash. The records, and the reports to the investor, tell what moves. `m` comes beside the order, as its tests had it: what
// is promised holds for any count of baskets that is ready, and units over the basket size would ask here that the size is not 0.
pub fn settle<S: RecordSink>(
    ask: Ask,
    day: &DayView,
    book: &mut [u64],
    m: u64,
    cash: CashByMarket,
    records: &mut S,
    investor: &mut [u64],
)
    requires order_ready { OrderReady ask.kind day.now book.old ask.account ask.units m (all_cash cash) }
    requires writable { Writable day.now (account day.now book.old ask.account) ask m cash (S.room records.old) }
    requires reports_fit { report_width * length (reports_by ask.kind day.now (account day.now book.old ask.account) ask.units m cash) ≤ length investor.old }
    ensures book { book.new ≡ order_moves ask.kind day.now ask.account ask.units m (all_cash cash) book.old }
    ensures records { records.new ≡ put_all S.pushed records.old (records_by ask.kind day.now (account day.now book.old ask.account) ask.units m cash) }
    ensures investor { investor.new ≡ with_reports (reports_by ask.kind day.now (account day.now book.old ask.account) ask.units m cash) investor.old }
{
    let count = day.count();
    let first_code = day.fund().first_code;
    let units = ask.units;
    let side = order_records::rest_side(ask.kind);
    let mut reports = Reports {
        run: investor,
        at: 0,
    };
    records.push(order_records::record_of(first_code, side, units, Money(0)));
    reports.tell_unit(first_code, side, units);
    settle_stock(ask, day, book, m, records, &mut reports);
    order_records::put_after_stock(records, first_code, side, units, cash);
    reports.tell_cash(side, cash);
    order_units::move_rest(ask.kind, count, book, ask.account, units, cash.total());
}
