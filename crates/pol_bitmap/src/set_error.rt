//! Why no set is made of bits.

use std::alloc::AllocError;

/// Why no set is made of a slice.
#[derive(Clone, Copy, Debug, PartialEq, Eq, thiserror::Error)]
pub enum SetError {
    /// A number is not above the one before.
    #[error("the bits do not rise")]
    NotRising,
    #[error("out of memory")]
    Memory,
}

impl From<AllocError> for SetError {
    ghost use Rattle.std.specs.Prelude.{◌≡◌};
    ghost use Rattle.pol_bitmap.specs.declared.set_error.SetError.TheVariants.{Memory};

    ghost from_gives = { λ _ error. error ≡ Memory };

    fn from(_error: AllocError) -> SetError {
        SetError::Memory
    }
}
