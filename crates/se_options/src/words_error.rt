// Why the words are not understood.
use std::alloc::AllocError;

/// Why the words are not understood.
#[derive(Clone, Copy, Debug, PartialEq, Eq)]
pub enum WordsError {
    /// The word of that number is the first that does not fit.
    Usage(u64),
    /// Out of memory.
    Memory,
}

impl From<AllocError> for WordsError {
    ghost use Rattle.std.specs.Prelude.{◌≡◌};
    ghost use Rattle.se_options.specs.declared.words_error.WordsError.TheVariants.{Memory};

    ghost from_gives = { λ _ e. e ≡ Memory };

    fn from(_: AllocError) -> WordsError {
        WordsError::Memory
    }
}
