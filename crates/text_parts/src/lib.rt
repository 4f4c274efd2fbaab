// What programs that play list texts share: texts that are made, fields as numbers, names, and replies as they are printed.
#![tactic(auto)]

pub mod bytes;
pub mod fields;
pub mod made;
pub mod names;
pub mod replies;
