// The first two stages of an order: account and baskets, then the switch and the limits. They only read.
#![tactic(auto)]

ghost use Rattle.std.specs.Prelude.{[], ◌≡◌, ◌+◌, ◌≤◌, ◌<◌, ◌^◌};
ghost use Rattle.sequences.specs.Checks.{answered};
ghost use Rattle.fund.specs.Fund.{limit_number};
ghost use Rattle.layout.specs.Day.{day_of};
ghost use Rattle.rules.specs.Orders.{limit_for, within_limits};
ghost use Rattle.rules.specs.Replies.{answer_reply};
ghost use Rattle.order_form.specs.Form.{all_units, own_units, within_both, order_form, Countable};

use fund::Limit;
use layout::DayHead;
use rules::{Ask, Kind, Refusal};

// Units of an order's kind, and of the other kind, on this day.
#[derive(Clone, Copy, Default)]
struct Units {
    made: u64,
    reverse: u64,
}

// The units of one account. `Countable` stands in four contracts, since head and book come from the caller apart: a struct of both
// would be made for each order only to carry it.
#[tactic(auto, unfolding(crate::specs::Form::own_units, rules::specs::Orders::count_of))]
fn units_of(head: &DayHead, book: &[u64], a: usize, kind: Kind) -> Units
    requires { Countable (day_of head.now [] []) book.now × (a < head.now.accounts) }
    ensures { result ≡ own_units (day_of head.now [] []) book.now a kind }
{
    let w = layout::width_of(head.count);
    Units {
        made: book::head_of(book, w, a, kind.counter()),
        reverse: book::head_of(book, w, a, kind.opposite().counter()),
    }
}

// The units of all accounts together, which are read by number: the one account of an order is read in the same way.
#[tactic(auto, using(crate::proofs::Laws::heads_none, crate::proofs::Laws::counted, crate::proofs::Laws::counted_fits))]
fn units_of_all(head: &DayHead, book: &[u64], kind: Kind) -> Units
    requires { Countable (day_of head.now [] []) book.now }
    ensures { result ≡ all_units (day_of head.now [] []) book.now kind }
{
    let mut all = Units::default();
    for a in 0..head.accounts {
        let own = units_of(head, book, a, kind);
        all.made += own.made;
        all.reverse += own.reverse;
    }
    all
}

// One of the fund's limits on orders of a kind.
#[tactic(auto, unfolding(fund::specs::Fund::limit_of))]
fn limit_of(head: &DayHead, limit: Limit, kind: Kind) -> u64
    ensures { result ≡ limit_for (day_of head.now [] []) (limit_number limit) kind }
{
    head.fund.limits[2 * limit.number() + kind.number()]
}

// Whether the units counted, with an order's, pass neither a limit on them nor one on their net.
#[tactic(auto, unfolding(crate::specs::Form::within_both))]
fn within_both(head: &DayHead, counted: Units, ask: Ask, limit: Limit, net_limit: Limit) -> bool
    requires { counted.made + ask.units < 2 ^ 64 }
    ensures { result ≡ within_both (day_of head.now [] []) counted ask (limit_number limit) (limit_number net_limit) }
{
    let after = counted.made + ask.units;
    ranges::within_limit(limit_of(head, limit, ask.kind), after)
        && ranges::within_limit(
            limit_of(head, net_limit, ask.kind),
            after.saturating_sub(counted.reverse),
        )
}

// Refusal 13's test: the fund's limits and the ceiling for all accounts together, and those for its own account.
#[tactic(auto, using(crate::proofs::Laws::limits_are))]
fn limits_held(head: &DayHead, book: &[u64], ask: Ask) -> bool
    requires countable { Countable (day_of head.now [] []) book.now }
    requires units_bound { (ask.account < head.now.accounts) × (ask.units ≤ 1_999_999_980) }
    ensures { result ≡ within_limits (day_of head.now [] []) book.now ask.kind ask.account ask.units }
{
    let all = units_of_all(head, book, ask.kind);
    let own = units_of(head, book, ask.account, ask.kind);
    let under_ceiling = all.made + ask.units <= fund::CEILING;
    within_both(head, all, ask, Limit::Cumulative, Limit::Net)
        && under_ceiling
        && within_both(head, own, ask, Limit::CumulativeEach, Limit::NetEach)
}

// The tests 8, 11, 12 and 13 of an order. They look at no component, and not at the flag table.
#[tactic(auto, using(rules::proofs::Accepted::investor_facts, crate::proofs::Laws::units_small), unfolding(sequences::specs::Checks::answering, crate::specs::Form::order_form, rules::specs::Orders::form_checks, rules::specs::Orders::permission_checks, rules::specs::Orders::whole_baskets, rules::specs::Orders::baskets, rules::specs::Orders::switch_allows))]
pub fn order_form(head: &DayHead, book: &[u64], ask: Ask) -> Result<(), Refusal>
    requires { Countable (day_of head.now [] []) book.now }
    ensures { answer_reply result ≡ answered (order_form (day_of head.now [] []) book.now ask) 0 }
{
    if !ranges::is_investor(head.accounts, ask.account) {
        return Err(Refusal::Account);
    }
    if !ranges::whole_baskets(head.fund.basket_size, ask.units) {
        return Err(Refusal::NotWholeBaskets);
    }
    if !ranges::switch_allows(head.fund.switch, ask.kind) {
        return Err(Refusal::Switch);
    }
    if !limits_held(head, book, ask) {
        return Err(Refusal::Limit);
    }
    Ok(())
}
