// Sinks for text, as the tools see them.
ghost use Rattle.std.specs.Prelude.{◌<◌, length};
ghost use Rattle.se_outside.specs.Outside.{SinkState, Writes};

use crate::Failed;

/// Where text goes. It may take less than it is given.
pub trait Sink {
    /// What is known of it: the bytes that it holds, where it tells them, and a count of faults, which never falls and rises with each
    /// error.
    ghost state: { Self → SinkState };

    /// Appends at least one byte from the front of the piece, which is not empty, and answers how
    /// many it took. After an error nothing was appended.
    fn write(&mut self, piece: &[u8]) -> Result<usize, Failed>
        requires { 0 < length piece.now }
        ensures { Writes (state self.old) (state self.new) piece.now result };
}
