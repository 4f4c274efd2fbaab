// The third stage of an order: stock, the cash ratio, cash and the room for the records and reports. It only reads.
#![tactic(auto)]

ghost use Rattle.std.specs.Prelude.{◌≡◌, ◌≤◌, ◌<◌, IfOk};
ghost use Rattle.sequences.specs.Checks.{answered};
ghost use Rattle.rules.specs.Replies.{answer_reply};
ghost use Rattle.rules.specs.Orders.{most_baskets, baskets};
ghost use Rattle.rules.specs.Creation.{available};
ghost use Rattle.rules.specs.Kinds.{asked_cash};
ghost use Rattle.value.specs.Worth.{Priceable};
ghost use Rattle.order_scan.specs.Ready.{Scannable};
ghost use Rattle.order_tests.specs.Tests.{ratio_tests, accepted_reply, means_answer};

use layout::DayView;
use order_scan::Parties;
use rules::{Ask, CashByMarket, Counts, Refusal, Rooms};
use units::Money;

// What an order that passes its tests makes: how many records and reports, and its cash.
#[derive(Clone, Copy)]
pub struct Accepted {
    pub counts: Counts,
    pub cash: CashByMarket,
}

// The tests 14 and 15: nothing is asked where nothing is missing.
#[tactic(auto, using(crate::proofs::Laws::ratio_laws), unfolding(crate::specs::Tests::ratio_tests, rules::specs::Value::value_checks, sequences::specs::Checks::answering, sequences::specs::Checks::is_accepted))]
fn ratio_answer(
    day: &DayView,
    prices: &[u64],
    m: u64,
    missing: Option<Money>,
) -> Result<(), Refusal>
    requires priceable { Priceable day.now prices.now }
    requires m_le_most_baskets { (m ≤ most_baskets) × (day.now.fund.max_cash_ratio.0 ≤ 100_000) }
    ensures { answer_reply result ≡ answered (ratio_tests day.now prices.now m missing) 0 }
{
    let Some(worth) = missing else {
        return Ok(());
    };
    let fund = day.fund();
    let value = value::reference_value(day, prices)?;
    if value.ratio_bound(m, fund.basket_size, fund.max_cash_ratio) < worth {
        return Err(Refusal::CashRatio);
    }
    Ok(())
}

// M, how many baskets an order for so many units is of.
#[tactic(auto, unfolding(rules::specs::Orders::baskets))]
pub fn baskets_in(day: &DayView, units: u64) -> u64
    requires { 0 < day.now.fund.basket_size }
    ensures { result ≡ baskets day.now units }
{
    units / day.fund().basket_size
}

// The third stage of an order between two parties: stock first, then the ratio, then cash and room.
#[tactic(auto, using(crate::proofs::Laws::means_laws), unfolding(sequences::specs::Checks::is_accepted))]
pub fn order_means(
    day: &DayView,
    parties: &Parties,
    prices: &[u64],
    ask: Ask,
    rooms: Rooms,
) -> Result<Accepted, Refusal>
    requires scannable { Scannable day.now parties.now.account.now parties.now.fund.now prices.now (baskets day.now ask.units) }
    requires priceable { Priceable day.now prices.now }
    requires ratio_bound { (day.now.fund.max_cash_ratio.0 ≤ 100_000) × (available parties.now.account.now day.now.count ≤ 2_000_000_000_000_000_000) }
    ensures answer_value { accepted_reply result ≡ means_answer day.now parties.now.account.now parties.now.fund.now prices.now ask rooms }
    ensures cash { IfOk result (λ accepted. accepted.cash ≡ asked_cash day.now parties.now.account.now prices.now ask) }
{
    let n = day.count();
    let m = baskets_in(day, ask.units);
    let t = order_scan::order_scan(ask.kind, day, parties, prices, m);
    let held = parties.cash_held(ask.kind);
    let due = t.cash.total();
    let counts = t.counts();
    order_shortage::stock_answer(ask, n, parties.account, t.short)?;
    ratio_answer(day, prices, m, t.missing)?;
    order_shortage::last_answer(ask.kind, n, held, due, rooms, counts)?;
    Ok(Accepted {
        counts,
        cash: t.cash,
    })
}
