//! The texts that rules have in common, as far as they were written last.

ghost use Rattle.std.specs.Prelude.{◌≡◌, ◌<◌, ◌++◌, [], OnOk, IfOk, IfSome};
ghost use Rattle.pol_symbols.specs.PolicySymbols.{name_in};
ghost use Rattle.pol_read.specs.DeclaredRules.{StandsUnder};
ghost use Rattle.pol_read.specs.StoredRules.{stored};
ghost use Rattle.pol_file.specs.declared.Parts.{Parts};
ghost use Rattle.rule_text.specs.ConditionTexts.{condition_text};
ghost use Rattle.rule_listing.specs.Inner.KeptTexts.{AreKept, IsKept, ended_text, text_of};

use pol_read::{Condition, Policy, Rule, RuleKind, RulePart};
use rule_text::{RuleTexts, push_condition, push_end};
use std::alloc::{AllocError, Global};
use std::marker::Model;

// How many texts are kept at most.
const SLOTS: usize = 2048;

// How long a text may be that is kept.
const LONGEST: usize = 4096;

/// What a text is of that rules have in common.
#[derive(Clone, Copy, PartialEq, Eq)]
pub(crate) enum TextKey {
    /// A class and permissions of it by a mask, as the rules of a kind give them, with the end behind it.
    Perms {
        kind: RuleKind,
        class: u32,
        mask: u32,
    },
    /// A condition that rules stand under.
    Under(Condition),
}

impl TextKey {
    // The permissions that a rule gives, with the end behind them, where it gives some and names no new object.
    #[inline(always)]
    fn of(rule: &Rule<'_>) -> Option<TextKey>
        ensures { (policy : Parts) → IfSome result (λ key. text_of policy key ≡ ended_text policy.symbols (stored rule.now)) }
    {
        match (&rule.part, rule.name) {
            (RulePart::Perms(mask), None) => Some(TextKey::Perms {
                kind: rule.kind,
                class: rule.class,
                mask: *mask,
            }),
            _ => None,
        }
    }

    // The slot of its text. Any would do: this one spreads those that come together.
    fn slot(self) -> usize
        ensures { result < 2048 }
    {
        let (group, number) = match self {
            TextKey::Perms { class, mask, .. } => (class, mask),
            TextKey::Under(condition) => (u32::from(condition.branch), condition.node),
        };
        let mixed = (group.wrapping_mul(0x85EB_CA6B) ^ number).wrapping_mul(0x9E37_79B1);
        (mixed >> 20) as usize % SLOTS
    }
}

// A text that is kept.
#[derive(Drop)]
struct KeptText {
    key: TextKey,
    text: Vec<u8>,
}

/// The texts of a policy's rules, of which those that rules have in common are kept: so many at most, and none that is long. A text
/// takes the place of another. Contracts see the policy.
pub(crate) struct KeptTexts<'p, 'a> {
    texts: RuleTexts<'p, 'a>,
    slots: Vec<Option<KeptText>>,
}

// Its parts go in one call, wherever it is dropped.
impl Drop for KeptTexts<'_, '_> {
    fn drop(self) {
        let KeptTexts { texts, slots } = self;
    }
}

impl<'p, 'a> Model for KeptTexts<'p, 'a> {
    ghost use Rattle.pol_file.specs.declared.Parts.{Parts};
    ghost use Rattle.rule_listing.specs.Inner.KeptTexts.{AreKept};

    ghost Value = { Parts };

    ghost view = { λ kept. kept.texts };

    ghost invariant = { λ kept. AreKept kept.texts kept.slots.items };
}

impl<'p, 'a> KeptTexts<'p, 'a> {
    /// None is kept yet.
    pub(crate) fn none(
        alloc: Global,
        texts: RuleTexts<'p, 'a>,
    ) -> Result<KeptTexts<'p, 'a>, AllocError>
        ensures { IfOk result (λ kept. kept ≡ texts.entry) }
    {
        let slots = empty_slots(alloc)?;
        Ok(KeptTexts { texts, slots })
    }

    /// The policy.
    pub(crate) fn policy(&self) -> &'p Policy<'a>
        ensures { result.now ≡ self.now }
    {
        self.texts.policy()
    }

    /// Adds the class of a rule, what the rule gives, and the end.
    #[inline(always)]
    pub(crate) fn push_ended(
        &mut self,
        rule: &Rule<'a>,
        buffer: &mut Vec<u8>,
    ) -> Result<(), AllocError>
        ensures policy { self.new ≡ self.old }
        ensures text { OnOk result (buffer.new.items ≡ buffer.old.items ++ ended_text self.old.symbols (stored rule.now)) }
    {
        match self.ended(rule) {
            Some(text) => buffer.extend_from_slice(text),
            None => self.push_new(rule, buffer),
        }
    }

    // Adds that text where it is not kept yet, and keeps it where rules have it in common.
    #[inline(never)]
    fn push_new(&mut self, rule: &Rule<'a>, buffer: &mut Vec<u8>) -> Result<(), AllocError>
        ensures policy { self.new ≡ self.old }
        ensures text { OnOk result (buffer.new.items ≡ buffer.old.items ++ ended_text self.old.symbols (stored rule.now)) }
    {
        let start = buffer.len();
        self.push_made(rule, buffer)?;
        match TextKey::of(rule) {
            Some(key) => self.keep(key, &buffer[start..]),
            None => Ok(()),
        }
    }

    /// Adds the condition behind a rule, or nothing where it stands under none.
    #[tactic(auto, unfolding(rule_text::specs::ConditionTexts::condition_text))]
    pub(crate) fn push_condition(
        &mut self,
        condition: Option<Condition>,
        buffer: &mut Vec<u8>,
    ) -> Result<(), AllocError>
        requires { StandsUnder self.old.rules.conditionals condition }
        ensures policy { self.new ≡ self.old }
        ensures text { OnOk result (buffer.new.items ≡ buffer.old.items ++ condition_text (name_in self.old.symbols) self.old.rules.conditionals condition) }
    {
        let Some(condition) = condition else {
            return Ok(());
        };
        let key = TextKey::Under(condition);
        if let Some(text) = self.text(key) {
            return buffer.extend_from_slice(text);
        }
        let start = buffer.len();
        push_condition(buffer, self.policy(), Some(condition))?;
        self.keep(key, &buffer[start..])
    }

    // Adds the class of a rule, what the rule gives, and the end. No text that is kept is used.
    fn push_made(&self, rule: &Rule<'a>, buffer: &mut Vec<u8>) -> Result<(), AllocError>
        ensures { OnOk result (buffer.new.items ≡ buffer.old.items ++ ended_text self.now.symbols (stored rule.now)) }
    {
        self.texts.push_given(buffer, rule)?;
        push_end(buffer, rule)
    }

    // The class of a rule, what the rule gives, and the end, where that text is kept.
    #[inline(always)]
    fn ended(&self, rule: &Rule<'_>) -> Option<&[u8]>
        ensures { IfSome result (λ text. text.now ≡ ended_text self.now.symbols (stored rule.now)) }
    {
        let key = TextKey::of(rule)?;
        self.text(key)
    }

    // The text of a key, where it is kept.
    fn text(&self, key: TextKey) -> Option<&[u8]>
        ensures { IfSome result (λ text. text.now ≡ text_of self.now key) }
    {
        text_in(&self.slots[key.slot()], key)
    }

    // Keeps the text of a key, unless it is long. What its slot kept gives its memory.
    fn keep(&mut self, key: TextKey, text: &[u8]) -> Result<(), AllocError>
        requires { text.now ≡ text_of self.old key }
        ensures { self.new ≡ self.old }
    {
        if text.len() > LONGEST {
            return Ok(());
        }
        let alloc = *self.slots.allocator();
        let place = key.slot();
        let mut kept = emptied(alloc, self.slots[place].take());
        kept.extend_from_slice(text)?;
        self.slots[place] = Some(KeptText { key, text: kept });
        Ok(())
    }
}

// No text, in the memory of one that was kept.
fn emptied(alloc: Global, kept: Option<KeptText>) -> Vec<u8>
    ensures { result.items ≡ [] }
{
    match kept {
        Some(kept) => {
            let KeptText { mut text, .. } = kept;
            text.clear();
            text
        }
        None => Vec::new(alloc),
    }
}

// Slots that keep no text.
fn empty_slots(alloc: Global) -> Result<Vec<Option<KeptText>>, AllocError>
    ensures { (policy : Parts) → IfOk result (λ slots. AreKept policy slots.items) }
{
    let mut slots = Vec::with_capacity(alloc, SLOTS)?;
    'slots: for _number in 0..SLOTS {
        slots.push(None)?;
    }
    Ok(slots)
}

// The text in a slot, where it is that of a key.
fn text_in(slot: &Option<KeptText>, key: TextKey) -> Option<&[u8]>
    ensures { (policy : Parts) → IsKept policy slot.now → IfSome result (λ text. text.now ≡ text_of policy key) }
{
    match slot {
        Some(kept) if kept.key == key => Some(&kept.text),
        _ => None,
    }
}
