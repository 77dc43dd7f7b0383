// Lines of entries that are kept in memory, which are as many as memory holds.
ghost use Rattle.std.specs.Prelude.{◌≡◌, ◌<◌, ◌++◌, ℕ, List, [], OnOk, get_or, length};

use crate::lines::Lines;
use std::alloc::AllocError;
use std::marker::Model;

/// What the lines of kept entries say, by numbers from 0 on.
pub trait EntryText {
    /// All lines.
    ghost lines: { Self → List (List ℕ) };

    /// How many there are.
    fn len(&self) -> usize
        ensures { result ≡ length (lines self.now) };

    /// Adds the line of a number to the buffer.
    fn push_text(&self, number: usize, buffer: &mut Vec<u8>) -> Result<(), AllocError>
        requires { number < length (lines self.now) }
        ensures { OnOk result (buffer.new.items ≡ buffer.old.items ++ get_or (lines self.now) number []) };
}

/// The lines of kept entries, in their order. Contracts see the lines that are left.
#[derive(Drop)]
pub struct EntryLines<T: EntryText + Drop> {
    texts: T,
    next: usize,
}

impl<T: EntryText + Drop> Model for EntryLines<T> {
    ghost use Rattle.std.specs.Prelude.{ℕ, ◌≤◌, List, drop, length};

    ghost Value = { List (List ℕ) };

    ghost view = { λ lines. drop lines.next (T.lines lines.texts) };

    ghost invariant = { λ lines. lines.next ≤ length (T.lines lines.texts) };
}

impl<T: EntryText + Drop> EntryLines<T> {
    /// All lines.
    pub fn new(texts: T) -> EntryLines<T>
        ensures { result ≡ T.lines texts }
    {
        EntryLines { texts, next: 0 }
    }
}

impl<T: EntryText + Drop> Lines for EntryLines<T> {
    ghost left = { λ lines. lines };

    fn count(&self) -> u64 {
        (self.texts.len() - self.next) as u64
    }

    fn push_line(&mut self, buffer: &mut Vec<u8>) -> Result<(), AllocError> {
        if self.next < self.texts.len() {
            self.texts.push_text(self.next, buffer)?;
            self.next += 1;
        }
        Ok(())
    }
}
