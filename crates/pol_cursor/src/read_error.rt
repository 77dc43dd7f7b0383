//! Why a policy is not read: a fault, or want of memory.

use pol_fields::Fault;
use std::alloc::{AllocError, AllocFailed};

/// Why a reader that takes memory refuses.
#[derive(Debug, Drop, thiserror::Error)]
pub enum ReadError {
    #[error("the policy is refused: {0:?}")]
    Fault(Fault),
    #[error("out of memory")]
    Memory,
}

impl From<Fault> for ReadError {
    ghost use Rattle.std.specs.Prelude.{◌≡◌};
    ghost use Rattle.pol_cursor.specs.declared.read_error.ReadError.TheVariants as errors;

    ghost from_gives = { λ fault error. error ≡ errors.Fault fault };

    fn from(fault: Fault) -> ReadError {
        ReadError::Fault(fault)
    }
}

impl From<AllocError> for ReadError {
    ghost use Rattle.std.specs.Prelude.{◌≡◌};
    ghost use Rattle.pol_cursor.specs.declared.read_error.ReadError.TheVariants.{Memory};

    ghost from_gives = { λ _ error. error ≡ Memory };

    fn from(_error: AllocError) -> ReadError {
        ReadError::Memory
    }
}

impl<T: Drop> From<AllocFailed<T>> for ReadError {
    ghost use Rattle.std.specs.Prelude.{◌≡◌};
    ghost use Rattle.pol_cursor.specs.declared.read_error.ReadError.TheVariants.{Memory};

    ghost from_gives = { λ _ error. error ≡ Memory };

    fn from(_error: AllocFailed<T>) -> ReadError {
        ReadError::Memory
    }
}
