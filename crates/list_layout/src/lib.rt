// A list's fields as a run of numbers, in which they cross to other languages.
// The casts by `as` lose nothing: usize and u64 both have 64 bits.
#![tactic(auto)]

ghost use Rattle.std.specs.Prelude.{◌≡◌};
ghost use Rattle.list_layout.specs.Run.{fields_at, fields_numbers};

use list_rules::ListFields;

// How many numbers they take: the fund's, and those of Publish, both days, the cash component, NAVperCU, NAV and the count of components.
pub const FIELDS_WIDTH: usize = layout::FUND_WIDTH + 8;

// The fields of a run.
#[tactic(auto, unfolding(crate::specs::Run::fields_at, layout::specs::Fund::signed_at))]
pub fn fields_at(run: &[u64; FIELDS_WIDTH]) -> ListFields
    ensures { result ≡ fields_at run.now }
{
    let [
        ..,
        publish,
        trading_day,
        pre_trading_day,
        sign,
        size,
        nav_per_cu,
        nav,
        count,
    ] = *run;
    ListFields {
        fund: layout::fund_of(run, 0),
        publish,
        trading_day,
        pre_trading_day,
        cash_component: layout::signed_at(&[sign, size], 0),
        nav_per_cu,
        nav,
        count: count as usize,
    }
}

// A list's fields in their places.
pub fn numbers_of(l: ListFields) -> [u64; FIELDS_WIDTH]
    ensures { result ≡ fields_numbers l }
{
    let [sign, size] = layout::signed_numbers(l.cash_component);
    let rest = [
        l.publish,
        l.trading_day,
        l.pre_trading_day,
        sign,
        size,
        l.nav_per_cu,
        l.nav,
        l.count as u64,
    ];
    let mut run = [0; FIELDS_WIDTH];
    layout::put_fund(&mut run, 0, l.fund);
    run[layout::FUND_WIDTH..].copy_from_slice(&rest);
    run
}
