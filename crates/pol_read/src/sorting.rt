// Numbers of rules, put in the order in which the rules are listed.
ghost use Rattle.std.specs.Prelude.{◌≡◌};
ghost use Rattle.std.specs.List.Sorted.{IsPermutation};
ghost use Rattle.pol_read.specs.RuleOrder.{AreInRuleOrder, rule_key_of};

use crate::policy::Policy;
use crate::rule_order::{RuleKey, rule_key};

impl<'a> Policy<'a> {
    // The key of the rule of a number, where there is one.
    fn key_of(&self, number: u32) -> Option<RuleKey>
        ensures { result ≡ rule_key_of self.now number }
    {
        if number < self.rule_count() {
            Some(rule_key(self.symbols(), number, &self.rule(number)))
        } else {
            None
        }
    }

    /// Sorts numbers of rules, in place and without memory: by the kinds of the rules, then by the names of their sources,
    /// targets and classes, in the order of their bytes, then by the numbers themselves. Numbers of no rule come first.
    pub fn sort_rules(&self, numbers: &mut [u32])
        ensures same { IsPermutation numbers.old numbers.new }
        ensures rise { AreInRuleOrder self.now numbers.new }
    {
        numbers.sort_unstable_by_key(|number| self.key_of(*number));
    }
}
