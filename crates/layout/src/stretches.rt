// An account's stretch. That it has a line is asked of its length, here and above: a stretch is lent as a part of the caller's run,
// whose length the day's count of components says.
ghost use Rattle.std.specs.Prelude.{◌≡◌, ◌+◌, ◌*◌, ◌^◌, ◌≤◌, ◌<◌, length};
ghost use Rattle.layout.specs.Places.{most_components};
ghost use Rattle.layout.specs.Book.{width_of, line_from, behind_line, lots_at, put_lots};

use crate::{LINE_WIDTH, LINES_FROM};
use lots::Lots;
use std::ops::Range;

// The width of an account's stretch in a fund of `count` components, a count that any run may say: sizes are tested first.
pub fn width_of(count: usize) -> usize
    requires { count ≤ most_components }
    ensures { result ≡ width_of count }
{
    line_at(count + 1)
}

// Where the lots of a line start.
pub fn line_at(line: usize) -> usize
    requires { line_from line < 2 ^ 64 }
    ensures { result ≡ line_from line }
{
    LINES_FROM + LINE_WIDTH * line
}

// Where an account's stretch lies in a book of stretches of a width.
pub fn stretch_at(width: usize, account: usize) -> Range<usize>
    requires { account * width + width < 2 ^ 64 }
    ensures start_value { result.start ≡ account * width }
    ensures end { result.end ≡ account * width + width }
{
    let start = account * width;
    start..start + width
}

// The lots of a line, read off a stretch.
pub fn lots_at(stretch: &[u64], line: usize) -> Lots
    requires { behind_line line ≤ length stretch.now }
    ensures { result ≡ lots_at stretch.now line }
{
    let (lines, _) = stretch[LINES_FROM..].as_chunks::<LINE_WIDTH>();
    let [old, bought, got] = lines[line];
    Lots { old, bought, got }
}

// Three stores. Tried: one copy of an array took 5.5 ns a line, these 3.3; and of a run whose chunks were written nothing is known.
#[tactic(auto, unfolding(crate::specs::Book::put_lots))]
pub fn put_lots(stretch: &mut [u64], line: usize, x: Lots)
    requires { behind_line line ≤ length stretch.old }
    ensures { stretch.new ≡ put_lots stretch.old line x }
{
    let at = line_at(line);
    stretch[at] = x.old;
    stretch[at + 1] = x.bought;
    stretch[at + 2] = x.got;
}
