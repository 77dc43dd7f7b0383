// What all tools do with the words after their names.
ghost use Rattle.std.specs.Prelude.{◌≡◌, ◌+◌, length, map};
ghost use Rattle.se_words.specs.Options.{group_view, groups_of, row_view};
ghost use Rattle.se_words.specs.Word.{text_of};
ghost use Rattle.se_options.specs.Asked.{Fitting};

use crate::WordsError;
use se_words::{Group, OptionRow, Word, first_misfit, groups_of};
use std::alloc::Global;

// The groups of the words after a tool's name, if all words fit.
pub fn fitting_groups<'w>(
    alloc: Global,
    rows: &[OptionRow],
    free: u64,
    words: &'w [Word],
) -> Result<Vec<Group<'w>>, WordsError>
    ensures { Fitting result (groups_of (map row_view rows.now) free (map text_of words.now)) }
{
    fitting(groups_of(alloc, rows, free, words)?)
}

// The groups, if all words fit.
pub fn fitting<'w>(groups: Vec<Group<'w>>) -> Result<Vec<Group<'w>>, WordsError>
    ensures { Fitting result (map group_view groups.entry.items) }
{
    match first_misfit(&groups) {
        Some(number) => Err(WordsError::Usage(number)),
        None => Ok(groups),
    }
}

// The error where a word is missing behind the words after a tool's name, or where options exclude each other.
pub fn missing(words: &[Word]) -> WordsError
    ensures { result ≡ WordsError.Usage (length words.now + 2) }
{
    WordsError::Usage(words.len() as u64 + 2)
}
