// Replies as they are printed.
use answers::Numbers;
use program_io::rows::Row;
use std::io;
use std::io::Write;

// A word and a reply, the paper's number, place, value and count of reports, on a line.
pub fn print<W: Write>(out: &mut W, word: &str, r: Numbers) -> io::Result<()> {
    let numbers: [u64; layout::ANSWER_WIDTH] = r.into();
    writeln!(out, "{word}{}", Row(&numbers))
}
