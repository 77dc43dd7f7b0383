// Why a table of cases is refused.
use std::alloc::{AllocError, AllocFailed};

/// Why a line of a table is refused.
#[derive(Clone, Copy, Debug, thiserror::Error)]
pub enum Cause {
    #[error("no key with a colon after it")]
    NoKey,
    #[error("no such key")]
    UnknownKey,
    #[error("the case has this key already")]
    Repeated,
    #[error("the case has no words or no code")]
    Missing,
    #[error("not a number")]
    NotNumber,
    #[error("not hexadecimal")]
    NotHex,
    #[error("no such escape")]
    BadEscape,
    #[error("an empty word; write it as \\e")]
    EmptyWord,
    #[error("no such edit")]
    BadEdit,
    #[error("no such sweep")]
    BadSweep,
    #[error("not text")]
    NotText,
    #[error("out of memory")]
    Memory,
}

impl From<AllocError> for Cause {
    fn from(_error: AllocError) -> Cause {
        Cause::Memory
    }
}

impl<T: Drop> From<AllocFailed<T>> for Cause {
    fn from(_failed: AllocFailed<T>) -> Cause {
        Cause::Memory
    }
}

/// The first line of a table that is refused, counted from 1, and why it is.
#[derive(Clone, Copy, Debug, thiserror::Error)]
#[error("line {line}: {cause}")]
pub struct TableError {
    pub line: usize,
    pub cause: Cause,
}
