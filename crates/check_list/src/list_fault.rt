// Why a checklist is refused.
ghost use Rattle.std.specs.Prelude.{◌≡◌};

use std::alloc::{AllocError, AllocFailed};

/// What is wrong at a line of a checklist, in the order in which a line is looked at.
#[derive(Clone, Copy, Debug, PartialEq, Eq)]
pub enum ListCause {
    /// The line neither begins a check nor is a setting.
    BadLine,
    /// A setting comes before the first check.
    NoCheck,
    /// A check ends without its `check_type` or a needed key.
    Missing,
    /// An earlier check has the name.
    DuplicateName,
    /// The first setting of a check is not `check_type` with one of the three words.
    BadType,
    /// The kind of check lacks the key, or the check has it already.
    BadKey,
    /// `missing_ok` is neither `true` nor `false`.
    BadValue,
    /// The policy lacks a name.
    UnknownName,
}

impl ListCause {
    ghost use Rattle.check_list.specs.CheckWords.{cause_word};

    /// The cause's word in a message: its name.
    pub fn word(&self) -> &'static str
        ensures { result.now ≡ cause_word self.now }
    {
        match self {
            ListCause::BadLine => "BadLine",
            ListCause::NoCheck => "NoCheck",
            ListCause::Missing => "Missing",
            ListCause::DuplicateName => "DuplicateName",
            ListCause::BadType => "BadType",
            ListCause::BadKey => "BadKey",
            ListCause::BadValue => "BadValue",
            ListCause::UnknownName => "UnknownName",
        }
    }
}

/// The first fault of a checklist: its line, from 1 on, and its cause.
#[derive(Clone, Copy, Debug, PartialEq, Eq)]
pub struct ListFault {
    pub line: u32,
    pub cause: ListCause,
}

/// Why a checklist is not read.
#[derive(Debug, Drop, thiserror::Error)]
pub enum ListError {
    #[error("the checklist is refused: {0:?}")]
    Fault(ListFault),
    #[error("out of memory")]
    Memory,
}

impl From<ListFault> for ListError {
    ghost use Rattle.std.specs.Prelude.{◌≡◌};
    ghost use Rattle.check_list.specs.declared.list_fault.ListError.TheVariants as errors;

    ghost from_gives = { λ fault error. error ≡ errors.Fault fault };

    fn from(fault: ListFault) -> ListError {
        ListError::Fault(fault)
    }
}

impl From<AllocError> for ListError {
    ghost use Rattle.std.specs.Prelude.{◌≡◌};
    ghost use Rattle.check_list.specs.declared.list_fault.ListError.TheVariants.{Memory};

    ghost from_gives = { λ _ error. error ≡ Memory };

    fn from(_error: AllocError) -> ListError {
        ListError::Memory
    }
}

impl<T: Drop> From<AllocFailed<T>> for ListError {
    ghost use Rattle.std.specs.Prelude.{◌≡◌};
    ghost use Rattle.check_list.specs.declared.list_fault.ListError.TheVariants.{Memory};

    ghost from_gives = { λ _ error. error ≡ Memory };

    fn from(_error: AllocFailed<T>) -> ListError {
        ListError::Memory
    }
}
