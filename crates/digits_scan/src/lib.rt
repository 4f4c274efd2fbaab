// Digits and blanks of a field, byte by byte.
#![tactic(auto)]

ghost use Rattle.std.specs.Prelude.{◌≡◌, ◌+◌, ◌-◌, ◌*◌, ◌^◌, ◌<◌, ◌≤◌, true, false, length, drop, cond, Some, None};
ghost use Rattle.digits.specs.Bytes.{zero_byte};
ghost use Rattle.digits.specs.Digits.{cap, capped, is_digit, is_shaped, blanks, all_blank, read_on};

use digits::CAP;

// The value of a digit, in 64 bits, as it is used: in 8 each digit takes an instruction more (a list 6 % more of its time).
#[tactic(auto, using(crate::proofs::Blank::digit_tests))]
fn digit_of(b: u8) -> Option<u64>
    ensures { result ≡ cond (is_digit b) (Some (b - zero_byte)) None }
{
    let digit = u64::from(b).wrapping_sub(u64::from(b'0'));
    (digit <= 9).then_some(digit)
}

// a * 10 + digit, as far as the cap.
#[tactic(auto, using(std::proofs::lemmas::Bool::Decides::nat_tests), unfolding(digits::specs::Digits::capped))]
fn next_size(a: u64, digit: u64) -> u64
    requires { (a ≤ cap) × (digit ≤ 9) }
    ensures { result ≡ capped (a * 10 + digit) }
{
    (a * 10 + digit).min(CAP)
}

// The digits of s, read on after the number before. Where they may be so many that the number meets the cap, each step looks at it:
// 8 digits take 95 instructions with the look (in plain Rust), 78 without.
pub fn read_digits<const CAPPED: bool>(s: &[u8], before: u64) -> Option<u64>
    requires low { CAPPED ≡ true → before ≤ cap }
    requires few { CAPPED ≡ false → (before + 1) * 10 ^ length s.now ≤ cap }
    ensures { result ≡ read_on before s.now }
{
    let mut a = before;
    for b in s {
        let digit = digit_of(*b)?;
        a = if CAPPED {
            next_size(a, digit)
        } else {
            a * 10 + digit
        };
    }
    Some(a)
}

// Whether there are so many digits, or some and no spare zero.
#[tactic(auto, using(std::proofs::lemmas::Bool::Decides::nat_tests), unfolding(digits::specs::Digits::is_shaped, digits::specs::Digits::spare))]
pub fn is_shaped(digits: Option<usize>, s: &[u8]) -> bool
    ensures { result ≡ is_shaped digits s.now }
{
    match digits {
        Some(digits) => s.len() == digits,
        None => !matches!(s, [] | [b'0', _, ..]),
    }
}

// The field behind the blanks that stand first.
pub fn trimmed(s: &[u8]) -> &[u8]
    ensures { result.now ≡ drop (blanks s.now) s.now }
{
    let b = s.iter().position(|b| *b != b' ').unwrap_or(s.len());
    &s[b..]
}

// Whether the field is nothing but blanks. By `fold`, with one branch for a field: 56 instructions for 12 bytes, by `all` 91.
pub fn is_blank(s: &[u8]) -> bool
    ensures { result ≡ all_blank s.now }
{
    s.iter().fold(true, |good, b| good & (*b == b' '))
}
