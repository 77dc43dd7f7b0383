// Why a tree is not written.
use pol_fields::{Fault, Field};
use std::alloc::AllocError;

/// Why a tree cannot be written as a policy.
#[derive(Clone, Copy, Debug, PartialEq, Eq)]
pub enum Unsound {
    /// An optional part is there and must not be, or is not there and has to be: the first such part, in the order of the file.
    Shape(Field),
    /// The bytes are more than 67,108,864.
    TooLong,
    /// The bytes are refused by the reader, with this fault.
    Fault(Fault),
}

/// Why a tree was not written.
#[derive(Debug, Drop, thiserror::Error)]
pub enum WriteError {
    #[error("the tree is no policy: {0:?}")]
    NotSound(Unsound),
    #[error("out of memory")]
    Memory,
}

impl From<AllocError> for WriteError {
    ghost use Rattle.std.specs.Prelude.{◌≡◌};
    ghost use Rattle.pol_write.specs.declared.errors.WriteError.TheVariants.{Memory};

    ghost from_gives = { λ failure error. error ≡ Memory };

    fn from(_failure: AllocError) -> WriteError {
        WriteError::Memory
    }
}
