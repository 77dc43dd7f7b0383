// Groups of words.
use crate::OptionRow;

/// A text and the number of the word that has it.
#[derive(Clone, Copy, Debug)]
pub struct Named<'w> {
    pub text: &'w str,
    pub word: u64,
}

/// A group of words.
#[derive(Clone, Copy, Debug)]
pub enum Group<'w> {
    /// A positional word.
    Positional(Named<'w>),
    /// The option of that row, with its value.
    Given {
        row: OptionRow,
        value: Option<Named<'w>>,
    },
    /// The word of that number does not fit, or is wanted and not there.
    Misfit(u64),
}
