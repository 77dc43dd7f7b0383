// Lines of a listing, as lines of differences.
ghost use Rattle.std.specs.Prelude.{◌≡◌, ⊤};

use crate::DifferenceLines;
use info_lines::Lines;
use std::alloc::AllocError;
use std::marker::Model;

/// The lines of a listing, as lines of differences. Contracts see the listing.
#[derive(Drop)]
pub struct ListedLines<L: Lines + Drop> {
    lines: L,
}

impl<L: Lines + Drop> Model for ListedLines<L> {
    ghost Value = { L };

    ghost view = { λ listed. listed.lines };
}

impl<L: Lines + Drop> ListedLines<L> {
    /// The lines of this listing.
    pub fn new(lines: L) -> ListedLines<L>
        ensures { result ≡ lines }
    {
        ListedLines { lines }
    }
}

impl<L: Lines + Drop> DifferenceLines for ListedLines<L> {
    ghost left = { λ listed. L.left listed };

    ghost stands = { λ listed. ⊤ };

    fn push_line(&mut self, buffer: &mut Vec<u8>) -> Result<bool, AllocError> {
        if self.lines.count() == 0 {
            return Ok(false);
        }
        self.lines.push_line(buffer)?;
        Ok(true)
    }
}
