// A day in a run, and a day where it lies.
ghost use Rattle.std.specs.Prelude.{◌≡◌, ◌-◌, ◌≤◌, ◌<◌, ◌++◌, length, get_or, drop, replicate};
ghost use Rattle.flags.specs.Table.{table_width};
ghost use Rattle.std.proofs.lemmas.List.Edits.{sets};
ghost use Rattle.layout.specs.Places.{most_components, basket_width, table_from, day_width};
ghost use Rattle.layout.specs.Components.{blank, component_at, places_of};
ghost use Rattle.layout.specs.Day.{Day, day_at, day_numbers};

use crate::basket::component_at;
use crate::funds::{fund_of, put_fund};
use crate::{ACCOUNTS_AT, BASKET_FROM, COUNT_AT, Component, DayHead, FUND_FROM, Fund, TABLE_FROM};
use std::marker::Model;

// A day where it lies, in a run of a day's length. Contracts see it as the day.
#[derive(Drop)]
pub struct DayView<'a> {
    run: &'a [u64],
}

impl<'a> Model for DayView<'a> {
    ghost Value = { Day };

    ghost view = { λ x. day_at x.run.now };

    ghost invariant = { λ x. length x.run.now ≡ day_width };
}

impl<'a> DayView<'a> {
    // Its head.
    pub fn head(&self) -> DayHead
        ensures { result ≡ record { accounts = self.now.accounts; count = self.now.count; fund = self.now.fund } }
    {
        DayHead {
            accounts: self.accounts(),
            count: self.count(),
            fund: self.fund(),
        }
    }

    #[tactic(auto, using(crate::proofs::Day::accounts_in))]
    pub fn accounts(&self) -> usize
        ensures { result ≡ self.now.accounts }
    {
        self.run[ACCOUNTS_AT] as usize
    }

    // How many components it has.
    #[tactic(auto, using(crate::proofs::Day::count_in))]
    pub fn count(&self) -> usize
        ensures { result ≡ self.now.count }
    {
        self.run[COUNT_AT] as usize
    }

    #[tactic(auto, using(crate::proofs::Day::fund_in))]
    pub fn fund(&self) -> Fund
        ensures { result ≡ self.now.fund }
    {
        fund_of(self.run, FUND_FROM)
    }

    // Its flag table.
    #[tactic(auto, using(crate::proofs::Day::table_in))]
    pub fn table(&self) -> &'a flags::Table
        ensures { result.now ≡ self.now.table }
    {
        flags::table_at(&self.run[TABLE_FROM..BASKET_FROM])
    }

    // Component i.
    #[tactic(auto, using(crate::proofs::Components::places_at))]
    pub fn component(&self, i: usize) -> Component
        requires { i < most_components }
        ensures { result ≡ get_or self.now.components i blank }
    {
        component_at(self.basket(), i)
    }

    // Its basket.
    #[tactic(auto, using(crate::proofs::Day::components_in))]
    pub fn basket(&self) -> &'a [u64]
        ensures length { length result.now ≡ basket_width }
        ensures components { places_of (component_at result.now) most_components ≡ self.now.components }
    {
        &self.run[BASKET_FROM..]
    }
}

// The day in a run.
pub fn view_of(run: &[u64]) -> DayView<'_>
    requires { length run.now ≡ day_width }
    ensures { result ≡ day_at run.now }
{
    DayView { run }
}

// Stores numbers at the front of a run. By place: of `copy_from_slice`, which goes over raw pointers, LLVM makes memmove, and the archive for C
// would need that name from outside.
fn put_front(run: &mut [u64], numbers: &[u64])
    requires { length numbers.now ≤ length run.old }
    ensures { run.new ≡ numbers.now ++ drop (length numbers.now) run.old }
{
    for i in 0..numbers.len() {
        run[i] = numbers[i];
    }
}

// Stores components as a basket: zeros stand behind them.
fn put_basket(basket: &mut [u64], components: &[u64])
    requires { length components.now ≤ length basket.old }
    ensures { basket.new ≡ components.now ++ replicate (length basket.old - length components.now) 0 }
{
    let (front, rest) = basket.split_at_mut(components.len());
    put_front(front, components);
    rest.fill(0);
}

// Stores the numbers of a flag table in a day.
#[tactic(auto, using(crate::proofs::Stored::table_put))]
fn put_table(day: &mut [u64], table: &[u64])
    requires day_len { length day.old ≡ day_width }
    requires table_len { length table.now ≡ table_width }
    ensures { day.new ≡ sets day.old table_from table.now }
{
    put_front(&mut day[TABLE_FROM..BASKET_FROM], table);
}

// Stores a day, of its head, the numbers of its flag table and its components.
#[tactic(auto, using(crate::proofs::Stored::day_stored))]
pub fn put_day(day: &mut [u64], head: DayHead, table: &[u64], components: &[u64])
    requires day_len { length day.old ≡ day_width }
    requires table_len { length table.now ≡ table_width }
    requires components_len_bound { length components.now ≤ basket_width }
    ensures { day.new ≡ day_numbers head.accounts head.count head.fund table.now components.now }
{
    day[ACCOUNTS_AT] = head.accounts as u64;
    day[COUNT_AT] = head.count as u64;
    put_fund(day, FUND_FROM, head.fund);
    put_table(day, table);
    put_basket(&mut day[BASKET_FROM..], components);
}
