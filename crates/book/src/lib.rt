// An account's head and lots read off the whole book, and lots stored. What moves make of a book is in specs/.
#![tactic(auto)]

ghost use Rattle.std.specs.Prelude.{◌≡◌, ◌+◌, ◌*◌, ◌≤◌, ◌<◌, length};
ghost use Rattle.sequences.specs.Stretch.{stretch_of, on_stretch};
ghost use Rattle.layout.specs.Book.{behind_line, head_at, lots_at, put_lots};
ghost use Rattle.rules.specs.Kinds.{stock_lots};
ghost use Rattle.book.specs.Ready.{LotsReady};

use lots::Lots;
use rules::Kind;

// The fund's account.
pub const FUND: usize = 0;

// The book and its width are two parameters, and each contract asks that the account and the line lie in the book. No struct of them that
// promises this: an order writes the book between its reads, and would make the struct anew for each read.

// A number of the head of account `a`, its cash or a counter, read off the whole book.
#[tactic(auto, using(sequences::proofs::Stretch::stretch_at), unfolding(layout::specs::Book::head_at))]
pub fn head_of(book: &[u64], w: usize, a: usize, place: usize) -> u64
    requires w_in_bounds { a * w + w ≤ length book.now }
    requires place_lt_w { place < w }
    ensures { result ≡ head_at (stretch_of w book.now a) place }
{
    book[a * w + place]
}

// The lots of a line of account `a`, read off the whole book.
#[tactic(auto, using(sequences::proofs::Stretch::part_is))]
pub fn lots_of(book: &[u64], w: usize, a: usize, line: usize) -> Lots
    requires w_in_bounds { a * w + w ≤ length book.now }
    requires line_bound { behind_line line ≤ w }
    ensures { result ≡ lots_at (stretch_of w book.now a) line }
{
    layout::lots_at(&book[layout::stretch_at(w, a)], line)
}

// Stores them in the whole book.
#[tactic(auto, using(crate::proofs::Sides::middle_put, sequences::proofs::Stretch::part_is))]
pub fn put_lots_of(book: &mut [u64], w: usize, a: usize, line: usize, x: Lots)
    requires w_in_bounds { a * w + w ≤ length book.old }
    requires line_bound { behind_line line ≤ w }
    ensures { book.new ≡ on_stretch w a (λ s. put_lots s line x) book.old }
{
    layout::put_lots(&mut book[layout::stretch_at(w, a)], line, x);
}

// What an account's lots become when it hands in `q` of them on a creation, or gets `q` on a redemption.
#[tactic(auto, unfolding(rules::specs::Kinds::stock_lots))]
pub fn account_lots(kind: Kind, x: Lots, q: u64) -> Lots
    requires { LotsReady kind x q }
    ensures { result ≡ stock_lots kind x q }
{
    match kind {
        Kind::Creation => x.hand_in(q),
        Kind::Redemption => x.get(q),
    }
}
