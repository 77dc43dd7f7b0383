// The stored rules of a policy.
ghost use Rattle.std.specs.Prelude.{◌≡◌, ◌<◌, ◌≤◌, Some, length, option_map, slice_get};
ghost use Rattle.pol_read.specs.StoredRules.{stored, ends_of, stored_rules};
ghost use Rattle.pol_read.specs.DeclaredRules.{IsDeclaredRule, AreDeclaredEnds};

use crate::policy::Policy;
use crate::rule::{Rule, RuleEnds};
use crate::stored::{ends_at, rule_at};

impl<'a> Policy<'a> {
    /// How many stored rules there are, at most 400,000,000.
    #[tactic(auto, using(crate::proofs::RuleSums::total_is))]
    pub fn rule_count(&self) -> u32
        ensures count { result ≡ length (stored_rules self.now) }
        ensures limited { result ≤ 400000000 }
    {
        self.index.count()
    }

    /// The stored rule of that number, from 0 on, in file order. One of the table of access vectors is found at once, and
    /// the others are found by halves: in a group of file-name transitions, by the node of its source.
    ///
    /// What it names is declared: its ends, its class and its default, and the conditional node that it stands under is there.
    #[inline(always)]
    pub fn rule(&self, n: u32) -> Rule<'a>
        requires { n < length (stored_rules self.now) }
        ensures is { slice_get (stored_rules self.now) n ≡ Some (stored result) }
        ensures declared { IsDeclaredRule self.now (stored result) }
    {
        rule_at(&self.parts, &self.index, n)
    }

    /// The ends of the stored rule of that number, with its kind and its class. It is found in the same way, and neither its part
    /// nor its name is read.
    ///
    /// What they name is declared.
    #[inline(always)]
    pub fn rule_ends(&self, n: u32) -> RuleEnds
        requires { n < length (stored_rules self.now) }
        ensures is { option_map ends_of (slice_get (stored_rules self.now) n) ≡ Some result }
        ensures declared { AreDeclaredEnds self.now result }
    {
        ends_at(&self.parts, &self.index, n)
    }
}
