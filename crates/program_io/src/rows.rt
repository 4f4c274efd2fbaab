// Rows of numbers as they are printed, each number behind a blank.
use std::fmt;
use std::fmt::Display;

#[derive(Clone, Copy)]
pub struct Row<'a, T>(pub &'a [T]);

impl<T: Display> Display for Row<'_, T> {
    fn fmt<W: fmt::Write>(&self, f: &mut fmt::Formatter<W>) -> fmt::Result {
        for x in self.0 {
            write!(f, " {x}")?;
        }
        Ok(())
    }
}
