// What a call leaves in the book and the prices, beside what was kept of both from before it.
use day_items::session::{Kept, Session};
use program_io::marks;
use program_io::rows::Row;
use std::io;
use std::io::Write;

// A run, whole, where it is other than it was.
fn print_changed<W: Write>(out: &mut W, word: &str, run: &[u64], kept: &[u64]) -> io::Result<()> {
    if run != kept {
        writeln!(out, "{word}{}", Row(run))?;
    }
    Ok(())
}

// What a call was lent that was refused or only reads: the same, or the first place that differs. Not `changes::print`, which has a line
// for each run: of the two the program prints the first alone.
pub fn print_same<W: Write>(kept: &Kept, session: &Session, out: &mut W) -> io::Result<()> {
    if let Some(place) = marks::first_difference(&session.book, &kept.book) {
        return writeln!(out, "book {place}");
    }
    if let Some(place) = marks::first_difference(&session.prices, &kept.prices) {
        return writeln!(out, "prices {place}");
    }
    writeln!(out, "same")
}

// Prints what a call made of the book and the prices, and puts back what they were.
pub fn put_back<W: Write>(kept: Kept, session: &mut Session, out: &mut W) -> io::Result<()> {
    print_changed(out, "book", &session.book, &kept.book)?;
    print_changed(out, "prices", &session.prices, &kept.prices)?;
    kept.leave(session);
    Ok(())
}
