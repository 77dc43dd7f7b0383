// The words of a command line.
ghost use Rattle.std.specs.Prelude.{◌≡◌, ◌++◌, ◌∷◌, [], None, Some, OnOk, OnErr};
ghost use Rattle.se_words.specs.Word.{text_in};

use std::alloc::{AllocError, Global};
use std::marker::Model;
use std::str;

/// A word of a command line.
#[derive(Debug, Drop)]
pub enum Word {
    /// A UTF-8 text.
    Text(String),
    /// Bytes that are no UTF-8 text.
    NotText,
}

/// The words of a command line. They are numbered from 1, and the first is the tool's name.
#[derive(Drop)]
pub struct Words {
    alloc: Global,
    words: Vec<Word>,
}

impl Model for Words {
    ghost use Rattle.std.specs.Prelude.{ℕ, List, Option, map};
    ghost use Rattle.se_words.specs.Word.{text_of};

    ghost Value = { List (Option (List ℕ)) };

    ghost view = { λ w. map text_of w.words.items };
}

impl Words {
    ghost use Rattle.std.specs.Prelude.{map};
    ghost use Rattle.se_words.specs.Word.{text_of};

    /// No words.
    pub fn new(alloc: Global) -> Words
        ensures { result ≡ [] }
    {
        Words {
            alloc,
            words: Vec::new(alloc),
        }
    }

    /// Adds a text. Out of memory, nothing is added.
    pub fn push(&mut self, word: &str) -> Result<(), AllocError>
        ensures ok { OnOk result (self.new ≡ self.old ++ Some word.now ∷ []) }
        ensures err { OnErr result (self.new ≡ self.old) }
    {
        let text = String::from_str(self.alloc, word)?;
        Ok(self.words.push(Word::Text(text))?)
    }

    /// Adds a word that is no text. Out of memory, nothing is added.
    pub fn push_not_text(&mut self) -> Result<(), AllocError>
        ensures ok { OnOk result (self.new ≡ self.old ++ None ∷ []) }
        ensures err { OnErr result (self.new ≡ self.old) }
    {
        Ok(self.words.push(Word::NotText)?)
    }

    /// Adds the text that the bytes are, and a word that is no text where they are no UTF-8. Out of memory, nothing is
    /// added.
    pub fn push_bytes(&mut self, word: &[u8]) -> Result<(), AllocError>
        ensures ok { OnOk result (self.new ≡ self.old ++ text_in word.now ∷ []) }
        ensures err { OnErr result (self.new ≡ self.old) }
    {
        match str::from_utf8(word) {
            Ok(text) => self.push(text),
            Err(_) => self.push_not_text(),
        }
    }

    /// The words in their order.
    pub fn as_slice(&self) -> &[Word]
        ensures { map text_of result.now ≡ self.now }
    {
        self.words.as_slice()
    }
}

impl Word {
    ghost use Rattle.se_words.specs.Word.{text_of, is_word};

    /// Whether it is that text.
    pub fn is(&self, text: &str) -> bool
        ensures { result ≡ is_word text.now (text_of self.now) }
    {
        match self {
            Word::Text(word) => word.as_str() == text,
            Word::NotText => false,
        }
    }
}
