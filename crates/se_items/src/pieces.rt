// A text that is made piece by piece.
ghost use Rattle.std.specs.Prelude.{IfOk, OnOk};
ghost use Rattle.se_items.specs.Pieces.{Left, PushesPiece};

use std::alloc::AllocError;

/// A text that is made piece by piece, such as the lines of a listing. After an error neither the buffer nor what is left may be relied on.
pub trait Pieces {
    /// What is left of the text.
    ghost left: { Self → Left };

    /// What is true of it before each piece.
    ghost stands: { Self → Type 0 };

    /// Adds a piece of the text that is left to a buffer, which may be empty, and answers whether anything was left.
    fn push_piece(&mut self, buffer: &mut Vec<u8>) -> Result<bool, AllocError>
        requires { stands self.old }
        ensures piece { IfOk result (PushesPiece (left self.old) (left self.new) buffer.old.items buffer.new.items) }
        ensures stands { OnOk result (stands self.new) };
}
