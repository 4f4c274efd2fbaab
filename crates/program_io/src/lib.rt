// What programs share: items of numbers, a player that obeys them, marks in lent runs, and what is printed of runs.
#![tactic(auto)]

pub mod changes;
pub mod fault;
pub mod items;
pub mod marks;
pub mod player;
pub mod rows;
