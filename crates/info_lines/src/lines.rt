// Lines of listings, which are made one after the other.
ghost use Rattle.std.specs.Prelude.{◌≡◌, ◌++◌, ℕ, List, OnOk, length, map};
ghost use Rattle.std.specs.List.{All};
ghost use Rattle.info_lines.specs.Inner.Lines.{PushesLine};

use std::alloc::AllocError;
use std::marker::Model;

/// The lines of a listing, one after the other. After an error neither the buffer nor what is left may be relied on.
pub trait Lines {
    /// The lines that are left.
    ghost left: { Self → List (List ℕ) };

    /// How many lines are left.
    fn count(&self) -> u64
        ensures { result ≡ length (left self.now) };

    /// Adds the next line to the buffer, or nothing where none is left.
    fn push_line(&mut self, buffer: &mut Vec<u8>) -> Result<(), AllocError>
        ensures { PushesLine (left self.old) (left self.new) buffer.old.items buffer.new.items result };
}

/// The lines of a listing that may not be there, which then has none.
impl<L: Lines> Lines for Option<L> {
    ghost use Rattle.std.specs.Prelude.{[], option_map, unwrap_or};

    ghost left = { λ lines. unwrap_or (option_map L.left lines) [] };

    fn count(&self) -> u64 {
        match self {
            Some(lines) => lines.count(),
            None => 0,
        }
    }

    fn push_line(&mut self, buffer: &mut Vec<u8>) -> Result<(), AllocError> {
        match self {
            Some(lines) => lines.push_line(buffer),
            None => Ok(()),
        }
    }
}

/// What the lines of a listing say, by numbers.
pub trait LineText {
    /// A number has a line.
    ghost has: { Self → ℕ → Type 0 };

    /// The line of a number.
    ghost text: { Self → ℕ → List ℕ };

    /// Adds the line of a number to the buffer.
    fn push_text(&self, number: u32, buffer: &mut Vec<u8>) -> Result<(), AllocError>
        requires { has self.now number }
        ensures { OnOk result (buffer.new.items ≡ buffer.old.items ++ text self.now number) };
}

/// The lines of numbers, in their order. Contracts see the lines that are left.
#[derive(Drop)]
pub struct NumberedLines<T: LineText + Drop> {
    texts: T,
    numbers: Vec<u32>,
    next: usize,
}

impl<T: LineText + Drop> Model for NumberedLines<T> {
    ghost use Rattle.std.specs.Prelude.{ℕ, ◌≤◌, List, drop, length, map};
    ghost use Rattle.std.specs.List.{All};

    ghost Value = { List (List ℕ) };

    ghost view = { λ lines. map (T.text lines.texts) (drop lines.next lines.numbers.items) };

    ghost invariant = { λ lines. All (T.has lines.texts) lines.numbers.items × (lines.next ≤ length lines.numbers.items) };
}

impl<T: LineText + Drop> NumberedLines<T> {
    /// The lines of these numbers, each of which has one.
    pub fn new(texts: T, numbers: Vec<u32>) -> NumberedLines<T>
        requires { All (T.has texts) numbers.items }
        ensures { result ≡ map (T.text texts) numbers.items }
    {
        NumberedLines {
            texts,
            numbers,
            next: 0,
        }
    }
}

impl<T: LineText + Drop> Lines for NumberedLines<T> {
    ghost left = { λ lines. lines };

    fn count(&self) -> u64 {
        (self.numbers.len() - self.next) as u64
    }

    fn push_line(&mut self, buffer: &mut Vec<u8>) -> Result<(), AllocError> {
        if self.next < self.numbers.len() {
            self.texts.push_text(self.numbers[self.next], buffer)?;
            self.next += 1;
        }
        Ok(())
    }
}
