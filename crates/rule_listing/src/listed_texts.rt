//! The texts of whole rules in the order in which rules are listed.

ghost use Rattle.std.specs.Prelude.{◌≡◌, ◌<◌, ◌++◌, None, OnOk, IfOk, length};
ghost use Rattle.pol_read.specs.StoredRules.{av_rule, stored, stored_rules};
ghost use Rattle.pol_read.specs.DeclaredRules.{StandsUnder};
ghost use Rattle.pol_read.specs.declared.rule.RulePart.TheVariants.{Default};
ghost use Rattle.rule_listing.specs.Inner.KeptTexts.{begun_text, ended_with};
ghost use Rattle.rule_text.specs.RuleTexts.{rule_text, text_of_rule};

use crate::kept_head::KeptHead;
use crate::kept_texts::KeptTexts;
use crate::listed_rule::ListedRule;
use pol_avtab::AvView;
use pol_cursor::push_name;
use pol_read::{Policy, Rule, RuleEnds, RuleKind, RulePart, vector_ends, vector_rule};
use rule_text::{RuleTexts, push_class};
use std::alloc::{AllocError, Global};
use std::marker::Model;

/// The texts of whole rules of a policy, where many are written one after the other: what stands before the targets of a source is
/// made once where its rules come together, and so is what stands behind the ends of rules that give the same permissions, and of those
/// that stand under the same condition. Contracts see the policy.
pub struct ListedTexts<'p, 'a> {
    texts: KeptTexts<'p, 'a>,
    head: KeptHead,
}

// Its parts go in one call, wherever it is dropped.
impl Drop for ListedTexts<'_, '_> {
    fn drop(self) {
        let ListedTexts { texts, head } = self;
    }
}

impl<'p, 'a> Model for ListedTexts<'p, 'a> {
    ghost use Rattle.pol_file.specs.declared.Parts.{Parts};
    ghost use Rattle.rule_listing.specs.Inner.KeptTexts.{IsHead};

    ghost Value = { Parts };

    ghost view = { λ listed. listed.texts };

    ghost invariant = { λ listed. IsHead listed.texts.symbols listed.head };
}

impl<'p, 'a> ListedTexts<'p, 'a> {
    /// The texts of a policy.
    pub fn new(alloc: Global, policy: &'p Policy<'a>) -> Result<ListedTexts<'p, 'a>, AllocError>
        ensures { IfOk result (λ texts. texts ≡ policy.now) }
    {
        Ok(ListedTexts {
            texts: KeptTexts::none(alloc, RuleTexts::new(alloc, policy)?)?,
            head: KeptHead::none(alloc),
        })
    }

    /// The policy.
    pub fn policy(&self) -> &'p Policy<'a>
        ensures { result.now ≡ self.now }
    {
        self.texts.policy()
    }

    /// Adds the text of a stored rule, without a line feed.
    #[tactic(auto, using(crate::proofs::WholeTexts::text_of_stored, crate::proofs::WholeTexts::text_of_vector))]
    pub fn push_rule(&mut self, rule: ListedRule, buffer: &mut Vec<u8>) -> Result<(), AllocError>
        requires { rule.number < length (stored_rules self.old) }
        ensures policy { self.new ≡ self.old }
        ensures text { OnOk result (buffer.new.items ≡ buffer.old.items ++ text_of_rule self.old rule.number) }
    {
        let policy = self.policy();
        match rule.vector(policy) {
            Some(view) => self.push_vector(&view, buffer),
            None => self.push_whole(&policy.rule(rule.number), buffer),
        }
    }

    // Adds the text of an access vector that stands under no condition.
    #[inline(always)]
    fn push_vector(&mut self, view: &AvView<'a>, buffer: &mut Vec<u8>) -> Result<(), AllocError>
        ensures policy { self.new ≡ self.old }
        ensures text { OnOk result (buffer.new.items ≡ buffer.old.items ++ rule_text self.old (av_rule None view.now)) }
    {
        self.push_ends(vector_ends(view.key()), buffer)?;
        let rule = vector_rule(view, None);
        match rule.part {
            RulePart::Default(value) => self.push_default(rule.kind, rule.class, value, buffer),
            _ => self.texts.push_ended(&rule, buffer),
        }
    }

    // Adds the class of a rule, its default, and the end.
    #[tactic(auto, unfolding(rule_text::specs::RuleFrames::given_text, rule_text::specs::RuleTexts::part_text, rule_text::specs::RuleTexts::file_name_text))]
    #[inline(always)]
    fn push_default(
        &mut self,
        kind: RuleKind,
        class: u32,
        value: u32,
        buffer: &mut Vec<u8>,
    ) -> Result<(), AllocError>
        ensures policy { self.new ≡ self.old }
        ensures text { OnOk result (buffer.new.items ≡ buffer.old.items ++ ended_with self.old.symbols kind class (Default value) None) }
    {
        let symbols = self.texts.policy().symbols();
        push_class(buffer, symbols, kind, class)?;
        buffer.push(b' ')?;
        push_name(buffer, kind.default_table(), value, symbols)?;
        Ok(buffer.push(b';')?)
    }

    // Adds the text of any rule.
    #[inline(never)]
    fn push_whole(&mut self, rule: &Rule<'a>, buffer: &mut Vec<u8>) -> Result<(), AllocError>
        requires { StandsUnder self.old.rules.conditionals rule.now.condition }
        ensures policy { self.new ≡ self.old }
        ensures text { OnOk result (buffer.new.items ≡ buffer.old.items ++ rule_text self.old (stored rule.now)) }
    {
        let ends = RuleEnds {
            kind: rule.kind,
            source: rule.source,
            target: rule.target,
            class: rule.class,
        };
        self.push_ends(ends, buffer)?;
        self.texts.push_ended(rule, buffer)?;
        self.texts.push_condition(rule.condition, buffer)
    }

    // Adds the first word of a rule, and its ends.
    #[tactic(auto, unfolding(rule_text::specs::RuleTexts::ends_text, rule_text::specs::RuleFrames::head_text))]
    #[inline(always)]
    fn push_ends(&mut self, ends: RuleEnds, buffer: &mut Vec<u8>) -> Result<(), AllocError>
        ensures policy { self.new ≡ self.old }
        ensures text { OnOk result (buffer.new.items ≡ buffer.old.items ++ begun_text self.old.symbols ends) }
    {
        let symbols = self.texts.policy().symbols();
        self.head.push(symbols, ends.kind, ends.source, buffer)?;
        push_name(buffer, ends.kind.target_table(), ends.target, symbols)
    }
}
