// Items that give a day, its book and its prices: an opening, or a state written out; and the lists that calls are lent.
// `scripts/vector_text.py` says how items are written.
#![tactic(auto)]

pub mod given;
pub mod lists;
pub mod replay;
pub mod replies;
pub mod session;
