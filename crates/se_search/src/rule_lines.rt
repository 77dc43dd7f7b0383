// The lines of rules, as a text that is made line by line.
ghost use Rattle.std.specs.Prelude.{◌≡◌, ◌<◌, ◌++◌, OnOk, length, map};
ghost use Rattle.rule_order.specs.ListedOrder.{AreRules};
ghost use Rattle.pol_read.specs.StoredRules.{stored_rules};
ghost use Rattle.se_search.specs.SearchAnswer.{rule_line};

use rule_listing::{ListedRule, ListedTexts, RulesAhead};
use se_items::Pieces;
use std::alloc::AllocError;

/// The lines of the stored rules of some numbers.
#[derive(Drop)]
pub struct RuleLines<'q, 'p, 'a> {
    texts: ListedTexts<'p, 'a>,
    rules: RulesAhead<'q, 'p, 'a>,
    ghost of_policy: { rules.policy ≡ texts },
}

impl<'q, 'p, 'a> RuleLines<'q, 'p, 'a> {
    ghost use Rattle.se_search.specs.Inner.RuleLines.{lines_left};

    /// The lines of the rules of these numbers, which are read when their lines are made.
    pub fn new(texts: ListedTexts<'p, 'a>, numbers: &'q [u32]) -> RuleLines<'q, 'p, 'a>
        requires { AreRules texts numbers.now }
        ensures { lines_left result ≡ map (rule_line texts.entry) numbers.now }
    {
        let rules = RulesAhead::new(texts.policy(), numbers);
        RuleLines { texts, rules }
    }
}

impl Pieces for RuleLines<'_, '_, '_> {
    ghost use Rattle.std.specs.Prelude.{⊤};
    ghost use Rattle.se_search.specs.Inner.RuleLines.{text_left};

    ghost left = { text_left };

    ghost stands = { λ _. ⊤ };

    fn push_piece(&mut self, buffer: &mut Vec<u8>) -> Result<bool, AllocError> {
        let Some(rule) = self.rules.front() else {
            return Ok(false);
        };
        push_line(&mut self.texts, rule, buffer)?;
        Ok(self.rules.pass())
    }
}

// Adds the line of a rule.
#[tactic(auto, unfolding(crate::specs::SearchAnswer::rule_line))]
fn push_line(
    texts: &mut ListedTexts<'_, '_>,
    rule: ListedRule,
    buffer: &mut Vec<u8>,
) -> Result<(), AllocError>
    requires { rule.number < length (stored_rules texts.old) }
    ensures policy { texts.new ≡ texts.old }
    ensures line { OnOk result (buffer.new.items ≡ buffer.old.items ++ rule_line texts.old rule.number) }
{
    texts.push_rule(rule, buffer)?;
    Ok(buffer.push(b'\n')?)
}
