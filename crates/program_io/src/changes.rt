// Runs that are not as they should be, as they are printed.
use std::io;
use std::io::Write;

// Prints the word of each run that has a place which is not as it should be, and that place; where no run has one, that all is the same.
pub fn print<W: Write>(
    out: &mut W,
    same: &str,
    places: &[(&str, Option<usize>)],
) -> io::Result<()> {
    if places.iter().all(|(_, place)| place.is_none()) {
        return writeln!(out, "{same}");
    }
    for (word, place) in places {
        if let Some(place) = place {
            writeln!(out, "{word} {place}")?;
        }
    }
    Ok(())
}
