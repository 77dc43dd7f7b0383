// Lines in the order of the file.
ghost use Rattle.std.specs.Prelude.{◌≡◌, ◌++◌, length, map};
ghost use Rattle.std.specs.List.{All, range_with_len};

use crate::lines::{LineText, Lines};
use std::alloc::AllocError;
use std::marker::Model;

/// The lines of all numbers from 0 on, in their order. Contracts see the lines that are left.
#[derive(Drop)]
pub struct FileLines<T: LineText + Drop> {
    texts: T,
    next: u32,
    end: u32,
}

impl<T: LineText + Drop> Model for FileLines<T> {
    ghost use Rattle.std.specs.Prelude.{ℕ, ◌≤◌, ◌-◌, List, map};
    ghost use Rattle.std.specs.List.{All, range_with_len};

    ghost Value = { List (List ℕ) };

    ghost view = { λ lines. map (T.text lines.texts) (range_with_len lines.next (lines.end - lines.next)) };

    ghost invariant = { λ lines. All (T.has lines.texts) (range_with_len lines.next (lines.end - lines.next)) × (lines.next ≤ lines.end) };
}

impl<T: LineText + Drop> FileLines<T> {
    /// The lines of so many numbers, each of which has one.
    pub fn new(texts: T, count: u32) -> FileLines<T>
        requires { All (T.has texts) (range_with_len 0 count) }
        ensures { result ≡ map (T.text texts) (range_with_len 0 count) }
    {
        FileLines {
            texts,
            next: 0,
            end: count,
        }
    }

    // How many lines are left.
    #[tactic(auto, using(crate::proofs::FileOrder::so_many))]
    fn rest(&self) -> u32
        ensures { result ≡ length self.now }
    {
        self.end - self.next
    }
}

impl<T: LineText + Drop> Lines for FileLines<T> {
    ghost left = { λ lines. lines };

    fn count(&self) -> u64 {
        u64::from(self.rest())
    }

    #[tactic(auto, using(crate::proofs::FileOrder::first_of, crate::proofs::FileOrder::none_of))]
    fn push_line(&mut self, buffer: &mut Vec<u8>) -> Result<(), AllocError> {
        if self.next < self.end {
            self.texts.push_text(self.next, buffer)?;
            self.next += 1;
        }
        Ok(())
    }
}

/// The lines of the first, and then those of the second. Contracts see the lines that are left.
#[derive(Drop)]
pub struct ChainedLines<T: LineText + Drop, U: LineText + Drop> {
    first: FileLines<T>,
    second: FileLines<U>,
}

impl<T: LineText + Drop, U: LineText + Drop> Model for ChainedLines<T, U> {
    ghost use Rattle.std.specs.Prelude.{ℕ, ◌++◌, List};

    ghost Value = { List (List ℕ) };

    ghost view = { λ lines. lines.first ++ lines.second };
}

impl<T: LineText + Drop, U: LineText + Drop> ChainedLines<T, U> {
    /// All lines of both.
    pub fn new(first: FileLines<T>, second: FileLines<U>) -> ChainedLines<T, U>
        ensures { result ≡ first ++ second }
    {
        ChainedLines { first, second }
    }
}

impl<T: LineText + Drop, U: LineText + Drop> Lines for ChainedLines<T, U> {
    ghost left = { λ lines. lines };

    #[tactic(auto, using(crate::proofs::FileOrder::both_counted))]
    fn count(&self) -> u64 {
        u64::from(self.first.rest()) + u64::from(self.second.rest())
    }

    #[tactic(auto, using(crate::proofs::FileOrder::chained_first, crate::proofs::FileOrder::chained_second))]
    fn push_line(&mut self, buffer: &mut Vec<u8>) -> Result<(), AllocError> {
        if self.first.rest() > 0 {
            self.first.push_line(buffer)
        } else {
            self.second.push_line(buffer)
        }
    }
}
