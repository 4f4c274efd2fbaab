// What ends a run with no slips, or with a part of them. Not the `Fault` of the other programs: a refusal ends this run and is printed.
use answers::Numbers;
use rules::Refusal;
use std::alloc::AllocError;
use std::io;
use thiserror::Error;

#[derive(Debug, Drop, Error)]
pub enum Fault {
    #[error("input too long")]
    TooLong,
    #[error("refused {number} {place}", number = Numbers::from(*.0).number, place = Numbers::from(*.0).place)]
    Refused(#[from] Refusal),
    #[error(transparent)]
    Memory(#[from(alloc)] AllocError),
    #[error(transparent)]
    Io(#[from] io::Error),
}
