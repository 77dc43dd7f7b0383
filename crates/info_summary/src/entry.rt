// What a line of a summary says.
ghost use Rattle.std.specs.Prelude.{◌≡◌, ◌++◌, OnOk};
ghost use Rattle.info_summary.specs.SummaryLines.{summary_line, count_line, value_text, entry_line};

use pol_texts::push_decimal;
use std::alloc::AllocError;

/// A number, or a word.
#[derive(Clone, Copy, Debug, PartialEq, Eq)]
pub enum Value {
    Number(u64),
    Word(&'static str),
}

/// What a line of a summary says, `WORDS: VALUE`.
#[derive(Clone, Copy, Debug, PartialEq, Eq)]
pub struct Entry {
    pub words: &'static str,
    pub value: Value,
}

/// That there are so many of a thing.
pub fn count(words: &'static str, number: u64) -> Entry
    ensures { entry_line result ≡ count_line words.now number }
{
    Entry {
        words,
        value: Value::Number(number),
    }
}

/// Appends the line of an entry.
#[tactic(auto, unfolding(crate::specs::SummaryLines::summary_line))]
pub fn push_entry(buffer: &mut Vec<u8>, entry: &Entry) -> Result<(), AllocError>
    ensures { OnOk result (buffer.new.items ≡ buffer.old.items ++ entry_line entry.now) }
{
    buffer.extend_from_slice(entry.words.as_bytes())?;
    buffer.extend_from_slice(b": ")?;
    push_value(buffer, entry.value)
}

// Appends the text of a value.
fn push_value(buffer: &mut Vec<u8>, value: Value) -> Result<(), AllocError>
    ensures { OnOk result (buffer.new.items ≡ buffer.old.items ++ value_text value) }
{
    match value {
        Value::Number(number) => push_decimal(buffer, number),
        Value::Word(word) => buffer.extend_from_slice(word.as_bytes()),
    }
}
