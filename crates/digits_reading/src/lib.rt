// Reads a number's field, by its form.
#![tactic(auto)]

ghost use Rattle.std.specs.Prelude.{◌≡◌, false, ◌≤◌, ◌^◌, length};
ghost use Rattle.digits.specs.Digits.{cap, from, capped, is_whole, is_plain, plain_size, is_signed, signed_figure, is_number, figure_of, size_reading, reading, minus_figure};

use digits::{Figure, Form};

// What stands before the point. Where CAPPED is false, the digits are too few to meet the cap.
#[inline(always)]
fn read_whole<const CAPPED: bool>(digits: Option<usize>, s: &[u8]) -> Option<u64>
    requires { CAPPED ≡ false → 10 ^ length s.now ≤ cap }
    ensures { result ≡ size_reading (is_whole digits s.now) (capped (from 0 s.now)) }
{
    if !digits_scan::is_shaped(digits, s) {
        return None;
    }
    digits_scan::read_digits::<CAPPED>(s, 0)
}

// A number with the decimals of the form, with no sign and no blanks. Inlined, as a column's form is known where it is read.
#[inline(always)]
#[tactic(auto, using(crate::proofs::Few::pointed))]
pub fn read_plain<const CAPPED: bool>(form: Form, s: &[u8]) -> Option<u64>
    requires { CAPPED ≡ false → 10 ^ length s.now ≤ cap }
    ensures { result ≡ size_reading (is_plain form s.now) (plain_size form s.now) }
{
    let k = form.decimals;
    if k == 0 {
        return read_whole::<CAPPED>(form.digits, s);
    }
    // A test, and no `checked_sub` with `?`: with that, reading a list of 300 components by a loop for each column took 12 % more time.
    if s.len() <= k {
        return None;
    }
    let (whole, rest) = s.split_at(s.len() - (k + 1));
    let [b'.', decimals @ ..] = rest else {
        return None;
    };
    let head = read_whole::<CAPPED>(form.digits, whole)?;
    digits_scan::read_digits::<CAPPED>(decimals, head)
}

// A size behind a "-"; 0 is none.
#[tactic(auto, using(std::proofs::lemmas::Bool::Decides::nat_tests), unfolding(digits::specs::Digits::minus_figure))]
fn minus_figure(size: u64) -> Option<Figure>
    ensures { result ≡ minus_figure size }
{
    let figure = Figure {
        negative: true,
        size,
    };
    (size != 0).then_some(figure)
}

// A number with its sign.
fn read_signed(form: Form, s: &[u8]) -> Option<Figure>
    ensures { result ≡ reading (is_signed form s.now) (signed_figure form s.now) }
{
    match s {
        [b'-', rest @ ..] if form.signed => read_plain::<true>(form, rest).and_then(minus_figure),
        _ => read_plain::<true>(form, s).map(Figure::from),
    }
}

// What the field says in the form.
pub fn read_number(form: Form, s: &[u8]) -> Option<Figure>
    ensures { result ≡ reading (is_number form s.now) (figure_of form s.now) }
{
    if form.width.is_none() {
        return read_signed(form, s);
    }
    read_signed(form, digits_scan::trimmed(s))
}
