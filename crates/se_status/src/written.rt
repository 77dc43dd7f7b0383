// The status of an answer that was written, or not.
ghost use Rattle.std.specs.Prelude.{◌≡◌, ℕ, List};
ghost use Rattle.se_outside.specs.Outside.{SinkState};
ghost use Rattle.se_items.specs.Writing.{Sends};
ghost use Rattle.se_status.specs.Conclusion.{Concludes, IsWritten, done, written_status};

use crate::Status;
use se_items::WriteEnd;

/// How a run ends whose answer was written, or why not.
pub fn status_written(end: Result<(), WriteEnd>) -> Status
    ensures status { result ≡ written_status end }
    ensures concludes { (old new : SinkState) (text : List ℕ) → Sends old new text end → Concludes (done text) old new result }
    ensures plain { IsWritten result }
{
    match end {
        Ok(()) => Status::Done,
        Err(WriteEnd::Fault) => Status::WriteFault,
        Err(WriteEnd::Memory) => Status::Memory,
    }
}
