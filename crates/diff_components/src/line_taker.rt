// What takes lines of differences, listing after listing.
ghost use Rattle.std.specs.Prelude.{ℕ, List, OnOk};
ghost use Rattle.se_items.specs.Writing.{Emits};

use crate::DifferenceLines;
use se_items::WriteEnd;
use se_outside::Sink;

/// What takes lines of differences, listing after listing, as one that writes them or one that counts them. What it writes goes through
/// a buffer of its own. After an error it may not be relied on.
pub trait LineTaker {
    /// What stands in its buffer.
    ghost buffered: { Self → List ℕ };

    /// What it writes of lines.
    ghost written: { Self → List (List ℕ) → List ℕ };

    /// What it is behind lines.
    ghost behind: { Self → List (List ℕ) → Self → Type 0 };

    /// Takes all lines that are left.
    fn take<D: DifferenceLines, S: Sink>(
        &mut self,
        lines: &mut D,
        out: &mut S,
    ) -> Result<(), WriteEnd>
        requires { D.stands lines.old }
        ensures written { Emits (S.state out.old) (S.state out.new) (buffered self.old) (buffered self.new) (written self.old (D.left lines.old)) result }
        ensures behind { OnOk result (behind self.old (D.left lines.old) self.new) };
}
