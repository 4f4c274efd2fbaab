// Replies of reading and writing as they are printed.
use answers::Numbers;
use program_io::rows::Row;
use rules::Refusal;
use std::io;
use std::io::Write;

// A word and a reply, the paper's number, place and value, on a line: a call's has a fourth number. The value is the count of
// components or bytes.
pub fn print<W: Write>(out: &mut W, word: &str, answer: Result<usize, Refusal>) -> io::Result<()> {
    let r = Numbers::from(answer);
    writeln!(out, "{word}{}", Row(&[r.number, r.place, r.value]))
}
