// Lines of a text, words compared in any case, and bytes that a name may have.
#![tactic(auto)]

ghost use Rattle.std.specs.Prelude.{◌≡◌, ◌+◌, true, false, ◌≤◌, ◌<◌, length, MatchOption, ⊤};
ghost use Rattle.lines.specs.Lines.{end_at, line_len, ended, first_line, other_byte, same, is_named, name_byte, letter_byte, all_bytes};

// Whether 0D 0A stands at i.
#[tactic(auto, using(std::proofs::lemmas::Bool::Decides::nat_tests), unfolding(crate::specs::Lines::end_at))]
fn end_at(s: &[u8], i: usize) -> bool
    requires { i < length s.now }
    ensures { result ≡ end_at s.now i }
{
    matches!(&s[i..], [b'\r', b'\n', ..])
}

// Where the first 0D 0A stands. Over places and not over pairs of bytes: `end_at` is defined at a place.
fn end_of(s: &[u8]) -> Option<usize>
    ensures { MatchOption result (ended s.now ≡ false) (λ n. (n ≡ line_len s.now) × (n < length s.now)) }
{
    (0..s.len()).find(|i| end_at(s, *i))
}

// The first line of s without its end, where it has one.
#[tactic(auto, using(crate::proofs::Turns::line_parts), unfolding(crate::specs::Lines::ended, crate::specs::Lines::first_line))]
pub fn first_line(s: &[u8]) -> Option<&[u8]>
    ensures line { MatchOption result (ended s.now ≡ false) (λ l. (ended s.now ≡ true) × (l.now ≡ first_line s.now)) }
    ensures room { MatchOption result ⊤ (λ l. length l.now + 2 ≤ length s.now) }
{
    let n = end_of(s)?;
    Some(&s[..n])
}

// Whether no byte is 0D. The library's search looks at many bytes at once.
fn has_no_return(s: &[u8]) -> bool
    ensures { result ≡ all_bytes other_byte s.now }
{
    !s.contains(&b'\r')
}

// Whether 0D 0A stands behind n bytes, none of which is 0D.
#[tactic(auto, using(crate::proofs::Laws::plain_len))]
fn is_plain_line(s: &[u8], n: usize) -> bool
    ensures { result ≡ true → (line_len s.now ≡ n) × (n < length s.now) }
{
    n < s.len() && end_at(s, n) && has_no_return(&s[..n])
}

// The same as `first_line`, quick where the line has n bytes: 150 instructions for a row of 53 bytes, by `first_line` 440.
#[tactic(auto, using(crate::proofs::Turns::line_parts), unfolding(crate::specs::Lines::ended, crate::specs::Lines::first_line))]
pub fn likely_line(s: &[u8], n: usize) -> Option<&[u8]>
    ensures line { MatchOption result (ended s.now ≡ false) (λ l. (ended s.now ≡ true) × (l.now ≡ first_line s.now)) }
    ensures room { MatchOption result ⊤ (λ l. length l.now + 2 ≤ length s.now) }
{
    if is_plain_line(s, n) {
        return Some(&s[..n]);
    }
    first_line(s)
}

// Whether the two are the same bytes: `==`, which its contract says by the definition `same`, so that no caller has to name the law.
#[tactic(auto, using(crate::proofs::Turns::same_points))]
pub fn same_bytes(a: &[u8], b: &[u8]) -> bool
    ensures { result ≡ same a.now b.now }
{
    a == b
}

// Whether the line is this name in any case, "=" and a value.
#[tactic(auto, using(std::proofs::lemmas::Bool::Decides::nat_tests), unfolding(crate::specs::Lines::is_named, sequences::specs::Every::every))]
pub fn is_named(name: &[u8], line: &[u8]) -> bool
    ensures { result ≡ is_named name.now line.now }
{
    let n = name.len();
    n < line.len() && line[n] == b'=' && name.eq_ignore_ascii_case(&line[..n])
}

#[tactic(auto, using(std::proofs::lemmas::Bool::Decides::nat_tests), unfolding(crate::specs::Lines::name_byte))]
fn name_byte(b: u8) -> bool
    ensures { result ≡ name_byte b }
{
    !matches!(b, b'|' | b'\r' | b'\n')
}

// Whether every byte may stand in a component's name. By `fold`, with one branch for a name: 50 instructions for 8 bytes, by `all` 107.
pub fn is_name(s: &[u8]) -> bool
    ensures { result ≡ all_bytes name_byte s.now }
{
    s.iter().fold(true, |good, b| good & name_byte(*b))
}

#[tactic(auto, using(std::proofs::lemmas::Bool::Decides::nat_tests), unfolding(crate::specs::Lines::letter_byte, sequences::specs::Every::inside))]
fn letter_byte(b: u8) -> bool
    ensures { result ≡ letter_byte b }
{
    b.is_ascii_alphanumeric()
}

// Whether every byte is a letter or a digit.
pub fn is_letters(s: &[u8]) -> bool
    ensures { result ≡ all_bytes letter_byte s.now }
{
    s.iter().all(|b| letter_byte(*b))
}
