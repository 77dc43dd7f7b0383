// The text of a topic, as it is written.
ghost use Rattle.std.specs.Prelude.{◌≡◌};
ghost use Rattle.se_status.specs.Conclusion.{Concludes, IsWritten, done};
ghost use Rattle.se_status.specs.declared.Status.TheVariants.{Memory as out_of_memory};
ghost use Rattle.se_help.specs.Texts.{topic_text};

use crate::Topic;
use crate::texts::text_of;
use se_items::write_all;
use se_outside::Sink;
use se_status::Status;

/// Writes the text of the topic. It takes no memory.
pub fn write_topic<S: Sink>(topic: Topic, out: &mut S) -> Status
    ensures written { Concludes (done (topic_text topic)) (S.state out.old) (S.state out.new) result }
    ensures plain { IsWritten result }
    ensures memory { result ≡ out_of_memory → ⊥ }
{
    match write_all(out, text_of(topic)) {
        Ok(()) => Status::Done,
        Err(_) => Status::WriteFault,
    }
}
