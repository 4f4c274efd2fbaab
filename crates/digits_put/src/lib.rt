// Puts bytes and digits into a run.
#![tactic(auto)]

ghost use Rattle.std.specs.Prelude.{◌≡◌, ◌+◌, ◌/◌, ◌%◌, ◌^◌, ◌≤◌, suc, length};
ghost use Rattle.digits.specs.Bytes.{zero_byte};
ghost use Rattle.digits.specs.Digits.{fixed, tens, decimal};
ghost use Rattle.digits.specs.Written.{Written};

// Writes all of src, and gives the place behind it, where the next one writes: a slice behind it would have to be lent anew for each.
pub fn put_bytes(dst: &mut [u8], at: usize, src: &[u8]) -> usize
    requires { at + length src.now ≤ length dst.old }
    ensures { Written dst.old at src.now dst.new result }
{
    // By place: of `copy_from_slice`, which goes over raw pointers, LLVM makes memmove, and the archive for C would need that name from outside.
    for i in 0..src.len() {
        dst[at + i] = src[i];
    }
    at + src.len()
}

// The number before the last digit, and that digit as a byte. By 64 bits at any size: with a division of 32 bits beside it for small
// numbers, a list of 300 components takes 198,900 instructions to write, so 178,500.
fn split_last(m: u64) -> (u64, u8)
    ensures { (result.0 ≡ m / 10) × (result.1 ≡ zero_byte + m % 10) }
{
    (m / 10, b'0' + (m % 10) as u8)
}

// Fills a run with the last digits of n, and gives what is left of n before them.
pub fn put_last(digits: &mut [u8], n: u64) -> u64
    ensures bytes { digits.new ≡ fixed (length digits.old) n }
    ensures left { result ≡ n / 10 ^ length digits.old }
{
    let mut m = n;
    // By place: of what `iter_mut().rev()` writes nothing is known behind the loop (the library says it of `iter_mut` alone).
    for i in (0..digits.len()).rev() {
        let (rest, digit) = split_last(m);
        digits[i] = digit;
        m = rest;
    }
    m
}

// Puts n with as many digits as it has at the end of a run, and says where they start. With `put_last` behind a count of the digits, in the
// place of a loop of its own, six digits take 123 instructions (in plain Rust), 100 as it is.
pub fn put_all(dst: &mut [u8], n: u64) -> usize
    requires { suc (tens n) ≤ length dst.old }
    ensures { Written dst.old result (decimal n) dst.new (length dst.old) }
{
    let mut m = n;
    // By place: where the first digit stands is the answer.
    for i in (0..dst.len()).rev() {
        let (rest, digit) = split_last(m);
        dst[i] = digit;
        let is_first = rest == 0;
        if is_first {
            return i;
        }
        m = rest;
    }
    // The last digit had room.
    unreachable!()
}
