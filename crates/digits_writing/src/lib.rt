// Writes a number's field, by its form. That a form is `Writable` is asked by four functions and not held by `Form`: reading takes
// any form.
#![tactic(auto)]

ghost use Rattle.std.specs.Prelude.{◌≡◌, ◌+◌, ◌-◌, ◌≤◌, length};
ghost use Rattle.digits.specs.Digits.{tens, whole_text, plain_text, signed_text, number_text};
ghost use Rattle.digits.specs.Written.{put, Written};
ghost use Rattle.digits_writing.specs.Writable.{Writable};

use digits::{Figure, Form};

// How many digits n has after its first.
#[tactic(auto, using(crate::proofs::Sizes::digits_counted))]
fn more_digits(n: u64) -> usize
    ensures { (result ≡ tens n) × (result ≤ 19) }
{
    n.checked_ilog10().unwrap_or(0) as usize
}

// How many digits stand before the point.
#[tactic(auto, using(crate::proofs::Sizes::whole_sizes))]
fn whole_size(digits: Option<usize>, n: u64) -> usize
    ensures { result ≡ length (whole_text digits n) }
{
    match digits {
        Some(digits) => digits,
        None => more_digits(n) + 1,
    }
}

// How many bytes the number takes, without its sign and its blanks.
#[tactic(auto, using(crate::proofs::Sizes::plain_sizes))]
fn plain_size(form: Form, n: u64) -> usize
    requires { Writable form }
    ensures { (result ≡ length (plain_text form n)) × (result ≤ 40) }
{
    let k = form.decimals;
    if k == 0 {
        return whole_size(form.digits, n);
    }
    whole_size(form.digits, n / 10u64.pow(k as u32)) + (k + 1)
}

// How many bytes the number takes, without its blanks.
#[tactic(auto, using(crate::proofs::Sizes::signed_sizes))]
fn signed_size(form: Form, z: Figure) -> usize
    requires { Writable form }
    ensures { (result ≡ length (signed_text form z)) × (result ≤ 41) }
{
    plain_size(form, z.size) + usize::from(z.negative)
}

// How many bytes the field takes.
#[tactic(auto, using(crate::proofs::Sizes::number_sizes))]
pub fn number_size(form: Form, z: Figure) -> usize
    requires { Writable form }
    ensures { result ≡ length (number_text form z) }
{
    signed_size(form, z).max(form.width.unwrap_or(0))
}

// Writes the digits of n before the point at the end of a field, and says where they start.
#[tactic(auto, using(crate::proofs::Ending::whole_put), unfolding(digits::specs::Digits::whole_text))]
fn put_whole(field: &mut [u8], digits: Option<usize>, n: u64) -> usize
    requires { length (whole_text digits n) ≤ length field.old }
    ensures { Written field.old result (whole_text digits n) field.new (length field.old) }
{
    match digits {
        Some(k) => {
            let start = field.len() - k;
            digits_put::put_last(&mut field[start..], n);
            start
        }
        None => digits_put::put_all(field, n),
    }
}

// Writes the number without its sign at the end of a field, and says where it starts.
#[tactic(auto, using(crate::proofs::Ending::plain_put))]
fn put_plain(field: &mut [u8], form: Form, n: u64) -> usize
    requires { length (plain_text form n) ≤ length field.old }
    ensures { Written field.old result (plain_text form n) field.new (length field.old) }
{
    let k = form.decimals;
    if k == 0 {
        return put_whole(field, form.digits, n);
    }
    let point = field.len() - (k + 1);
    let whole = digits_put::put_last(&mut field[point + 1..], n);
    field[point] = b'.';
    put_whole(&mut field[..point], form.digits, whole)
}

// Writes the number with its sign at the end of a field; what stands before it stays.
#[tactic(auto, using(crate::proofs::Ending::signed_put))]
pub fn put_signed(field: &mut [u8], form: Form, z: Figure)
    requires { length (signed_text form z) ≤ length field.old }
    ensures { field.new ≡ put field.old (length field.old - length (signed_text form z)) (signed_text form z) }
{
    let start = put_plain(field, form, z.size);
    if z.negative {
        field[start - 1] = b'-';
    }
}

// Writes the number right in its field, which is as long as its text.
#[tactic(auto, using(crate::proofs::Sizes::number_sizes))]
fn put_right(field: &mut [u8], form: Form, z: Figure)
    requires { length field.old ≡ length (number_text form z) }
    ensures { field.new ≡ number_text form z }
{
    field.fill(b' ');
    put_signed(field, form, z);
}

// Writes the number's field into its place, and gives the place behind it.
#[tactic(auto, using(digits::proofs::Put::written_part, crate::proofs::Sizes::number_sizes))]
pub fn put_number(dst: &mut [u8], at: usize, form: Form, z: Figure) -> usize
    requires writable { Writable form }
    requires room { at + length (number_text form z) ≤ length dst.old }
    ensures { Written dst.old at (number_text form z) dst.new result }
{
    let end = at + number_size(form, z);
    put_right(&mut dst[at..end], form, z);
    end
}
