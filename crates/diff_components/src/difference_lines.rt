// Lines of differences, which are made one after the other.
ghost use Rattle.std.specs.Prelude.{ℕ, List, IfOk, OnOk};
ghost use Rattle.diff_components.specs.DifferenceLines.{PushesLine};

use std::alloc::AllocError;

/// The lines of the differences of a component, made one after the other. After an error neither the buffer nor what is left may be
/// relied on.
pub trait DifferenceLines {
    /// The lines that are left, without line feeds.
    ghost left: { Self → List (List ℕ) };

    /// What is true of it before each line.
    ghost stands: { Self → Type 0 };

    /// Adds the next line to a buffer, and answers whether there was one.
    fn push_line(&mut self, buffer: &mut Vec<u8>) -> Result<bool, AllocError>
        requires { stands self.old }
        ensures line { IfOk result (PushesLine (left self.old) (left self.new) buffer.old.items buffer.new.items) }
        ensures stands { OnOk result (stands self.new) };
}
