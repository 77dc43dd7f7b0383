//! What stands before the targets of the rules of a kind and a source.

ghost use Rattle.std.specs.Prelude.{◌≡◌, ◌++◌, Some, OnOk};
ghost use Rattle.pol_symbols.specs.declared.Symbols.{Symbols};
ghost use Rattle.rule_text.specs.RuleFrames.{head_text};
ghost use Rattle.rule_listing.specs.Inner.KeptTexts.{IsHead};

use pol_read::RuleKind;
use pol_symbols::Symbols;
use rule_text::push_head;
use std::alloc::{AllocError, Global};

// A kind of rules, and a source.
#[derive(Clone, Copy, PartialEq, Eq)]
struct HeadKey {
    kind: RuleKind,
    source: u32,
}

/// The text that stands before the targets of the rules of a kind and a source.
#[derive(Drop)]
pub(crate) struct KeptHead {
    // whose text it is, where one was made
    key: Option<HeadKey>,
    text: Vec<u8>,
}

impl KeptHead {
    /// None is made yet.
    pub(crate) fn none(alloc: Global) -> KeptHead
        ensures { (symbols : Symbols) → IsHead symbols result }
    {
        KeptHead {
            key: None,
            text: Vec::new(alloc),
        }
    }

    /// Adds the text of a kind and a source, and keeps it.
    pub(crate) fn push(
        &mut self,
        symbols: &Symbols<'_>,
        kind: RuleKind,
        source: u32,
        buffer: &mut Vec<u8>,
    ) -> Result<(), AllocError>
        requires { IsHead symbols.now self.old }
        ensures head { IsHead symbols.now self.new }
        ensures text { OnOk result (buffer.new.items ≡ buffer.old.items ++ head_text symbols.now kind source) }
    {
        let key = HeadKey { kind, source };
        if self.key != Some(key) {
            self.make(symbols, key)?;
        }
        buffer.extend_from_slice(&self.text)
    }

    // Makes the text of a kind and a source, in place of the one that was kept.
    fn make(&mut self, symbols: &Symbols<'_>, key: HeadKey) -> Result<(), AllocError>
        ensures head { IsHead symbols.now self.new }
        ensures key { OnOk result (self.new.key ≡ Some key) }
    {
        self.key = None;
        self.text.clear();
        push_head(&mut self.text, symbols, key.kind, key.source)?;
        self.key = Some(key);
        Ok(())
    }
}
