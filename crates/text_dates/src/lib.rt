// Dates of the list text: year, month and day in eight digits.
#![tactic(auto)]

ghost use Rattle.std.specs.Prelude.{◌≡◌};
ghost use Rattle.text_rules.specs.Dates.{is_leap, days_in, is_date};

#[tactic(auto, using(std::proofs::lemmas::Bool::Decides::nat_tests), unfolding(text_rules::specs::Dates::is_leap))]
fn is_leap(year: u64) -> bool
    ensures { result ≡ is_leap year }
{
    year.is_multiple_of(4) && (!year.is_multiple_of(100) || year.is_multiple_of(400))
}

#[tactic(auto, using(std::proofs::lemmas::Bool::Decides::nat_tests), unfolding(text_rules::specs::Dates::days_in))]
fn days_in(year: u64, month: u64) -> u64
    ensures { result ≡ days_in year month }
{
    match month {
        2 if is_leap(year) => 29,
        2 => 28,
        4 | 6 | 9 | 11 => 30,
        _ => 31,
    }
}

// Whether year, month and day in eight digits are a day of the Gregorian calendar.
#[tactic(auto, using(std::proofs::lemmas::Bool::Decides::nat_tests), unfolding(text_rules::specs::Dates::is_date, sequences::specs::Every::every, sequences::specs::Every::inside))]
pub fn is_date(d: u64) -> bool
    ensures { result ≡ is_date d }
{
    let year = d / 10_000;
    let month = d / 100 % 100;
    let day = d % 100;
    (1..=9_999).contains(&year)
        && (1..=12).contains(&month)
        && (1..=days_in(year, month)).contains(&day)
}
