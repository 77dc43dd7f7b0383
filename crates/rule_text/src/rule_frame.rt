//! The line of a rule with its ends left open.

ghost use Rattle.std.specs.Prelude.{◌≡◌, ◌++◌, OnOk};
ghost use Rattle.rule_text.specs.RuleFrames.{frame_head, frame_target};

use crate::rule_parts::push_head;
use pol_cursor::push_name;
use pol_read::RuleKind;
use pol_symbols::Symbols;
use std::alloc::AllocError;

/// The line of a rule with its ends left open, where it is written between many pairs: what stands behind them is made once.
#[derive(Drop)]
pub struct RuleFrame<'p, 'a> {
    pub(crate) symbols: &'p Symbols<'a>,
    pub(crate) kind: RuleKind,
    pub(crate) rest: Vec<u8>,
}

impl<'p, 'a> RuleFrame<'p, 'a> {
    /// Adds what stands before the targets of a source: a type, or a role where the sources of such rules are roles.
    #[tactic(auto, unfolding(crate::specs::RuleFrames::frame_head))]
    pub fn push_head(&self, source: u32, head: &mut Vec<u8>) -> Result<(), AllocError>
        ensures { OnOk result (head.new.items ≡ head.old.items ++ frame_head self.now source) }
    {
        push_head(head, self.symbols, self.kind, source)
    }

    /// Adds a target by its name.
    #[tactic(auto, unfolding(crate::specs::RuleFrames::frame_target))]
    pub fn push_target(&self, target: u32, buffer: &mut Vec<u8>) -> Result<(), AllocError>
        ensures { OnOk result (buffer.new.items ≡ buffer.old.items ++ frame_target self.now target) }
    {
        push_name(buffer, self.kind.target_table(), target, self.symbols)
    }

    /// What stands behind a target, with the line feed.
    pub fn rest(&self) -> &[u8]
        ensures { result.now ≡ self.now.rest.items }
    {
        &self.rest
    }
}
