// The topic that words ask for.
ghost use Rattle.std.specs.Prelude.{◌≡◌};
ghost use Rattle.se_words.specs.Word.{text_of};
ghost use Rattle.se_help.specs.Topics.{asked_by, topic_in};

use crate::Topic;
use se_words::{Word, Words};

/// The topic that the words ask for, if they do.
pub fn topic_of(words: &Words) -> Option<Topic>
    ensures { result ≡ topic_in words.now }
{
    match words.as_slice() {
        [word] => asked_by(word, Topic::All),
        [tool, word] if tool.is("seinfo") => asked_by(word, Topic::Info),
        [tool, word] if tool.is("sesearch") => asked_by(word, Topic::Search),
        [tool, word] if tool.is("sedta") => asked_by(word, Topic::Dom),
        [tool, word] if tool.is("seinfoflow") => asked_by(word, Topic::Flow),
        [tool, word] if tool.is("seconvert") => asked_by(word, Topic::Convert),
        [tool, word] if tool.is("sechecker") => asked_by(word, Topic::Check),
        [tool, word] if tool.is("make") => asked_by(word, Topic::Make),
        _ => None,
    }
}

// The topic that a word asks for, where that one is how it is used.
fn asked_by(word: &Word, usage: Topic) -> Option<Topic>
    ensures { result ≡ asked_by usage (text_of word.now) }
{
    if word.is("--help") || word.is("-h") {
        return Some(usage);
    }
    if word.is("--version") {
        return Some(Topic::Version);
    }
    None
}
