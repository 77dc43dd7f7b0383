// Criteria that were looked up, and the rules that meet them.
ghost use Rattle.std.specs.Prelude.{◌≡◌, ◌<◌, ◌-◌, IfOk, length, option_map, take};
ghost use Rattle.std.specs.List.{find, list_all, range_with_len};
ghost use Rattle.pol_read.specs.StoredRules.{stored_rules};
ghost use Rattle.rule_order.specs.ListedOrder.{in_rule_order};
ghost use Rattle.rule_criteria.specs.declared.Criteria.{Criteria};
ghost use Rattle.rule_query.specs.Meeting.{meets, meeting};
ghost use Rattle.rule_query.specs.Inner.NumberedRules.{IsRuleAt, rule_at};
ghost use Rattle.rule_query.specs.Queries.{IsQueryOf};
ghost use Rattle.rule_query.specs.QueryTests.{first_of, passes, rule_test, source_types, target_types, types_of};

use crate::given::Aspect;
use crate::marked_set::MarkedSet;
use crate::tests::Test;
use pol_bitmap::Set;
use pol_read::{Policy, RuleEnds};
use rule_order::{FoundRules, LeastKeys, RuleKeys};
use rule_tests::is_kind_asked;
use std::alloc::{AllocError, Global};

/// Criteria that were looked up in a policy: the kinds of rules that are asked, and what meets each criterion, by sets of values.
#[derive(Drop)]
pub struct Query {
    pub(crate) kinds: [bool; 12],
    pub(crate) tests: Vec<Test>,
}

impl Query {
    /// Whether the stored rule of that number meets the criteria of the query, in the policy in which they were looked up. Takes no
    /// memory.
    pub fn meets(&self, policy: &Policy<'_>, n: u32) -> bool
        requires { n < length (stored_rules policy.now) }
        ensures { (criteria : Criteria) → IsQueryOf policy.now criteria self.now → result ≡ meets policy.now criteria n }
    {
        // the policy was accepted, and so what its rules name is declared
        policy.is_accepted();
        self.passes(policy, n, policy.rule_ends(n))
    }

    // Whether the stored rule of that number, which has these ends, is of a kind that is asked, and passes all tests.
    #[inline(always)]
    pub(crate) fn passes(&self, policy: &Policy<'_>, number: u32, ends: RuleEnds) -> bool
        requires { IsRuleAt policy.now number ends }
        ensures { result ≡ passes policy.now.symbols self.now (rule_at policy.now number) }
    {
        is_kind_asked(&self.kinds, ends.kind) && all_pass(&self.tests, policy, number, ends)
    }

    /// The least number of a stored rule, at or above a number, that meets the criteria. `None` exactly where there is none. Takes no
    /// memory.
    pub fn next_match(&self, policy: &Policy<'_>, from: u32) -> Option<u32>
        ensures { (criteria : Criteria) → IsQueryOf policy.now criteria self.now → result ≡ find (meets policy.now criteria) (range_with_len from (length (stored_rules policy.now) - from)) }
    {
        for n in from..policy.rule_count() {
            if self.meets(policy, n) {
                return Some(n);
            }
        }
        None
    }

    /// The types and attributes that may be the source of a rule, where a criterion asks for some. Takes no memory.
    pub fn sources(&self) -> Option<&Set>
        ensures { option_map (λ set. set.now) result ≡ source_types self.now }
    {
        Some(self.types_of(Aspect::Source)?.set())
    }

    /// The types and attributes that may be the target of a rule, where a criterion asks for some. Takes no memory.
    pub fn targets(&self) -> Option<&Set>
        ensures { option_map (λ set. set.now) result ≡ target_types self.now }
    {
        Some(self.types_of(Aspect::Target)?.set())
    }

    // The types that are asked for at an end, by the first test of it.
    pub(crate) fn types_of(&self, end: Aspect) -> Option<&MarkedSet>
        ensures { option_map (λ set. set.now) result ≡ first_of (types_of end) self.now.tests.items }
    {
        for test in &self.tests {
            if let Some(types) = test.types_of(end) {
                return Some(types);
            }
        }
        None
    }

    /// The numbers of all stored rules that meet the criteria, in the order in which rules are listed.
    pub fn sorted(&self, alloc: Global, policy: &Policy<'_>) -> Result<Vec<u32>, AllocError>
        ensures { (criteria : Criteria) → IsQueryOf policy.now criteria self.now → IfOk result (λ numbers. numbers.items ≡ in_rule_order policy.now (meeting policy.now criteria)) }
    {
        // room for those of the table, where nearly all rules stand: memory that nothing is written to is not used
        let keys = RuleKeys::with_capacity(alloc, policy.table().len() as usize)?;
        let mut found = FoundRules::All(keys);
        self.add_all(policy, &mut found)?;
        found.sorted(alloc, policy)
    }

    /// The numbers of the stored rules that meet the criteria and are listed first, `count` at most, in the order in which rules are
    /// listed. It takes memory for a multiple of `count`, however many rules meet.
    pub fn least(
        &self,
        alloc: Global,
        policy: &Policy<'_>,
        count: u64,
    ) -> Result<Vec<u32>, AllocError>
        ensures { (criteria : Criteria) → IsQueryOf policy.now criteria self.now → IfOk result (λ numbers. numbers.items ≡ take count (in_rule_order policy.now (meeting policy.now criteria))) }
    {
        // keys that are all sorted take less memory each, and less time
        if count < policy.rule_count() as u64 / 16 {
            self.first(alloc, policy, count as usize)
        } else {
            let mut numbers = self.sorted(alloc, policy)?;
            numbers.truncate(count as usize);
            Ok(numbers)
        }
    }

    // The rules that are listed first, of which only so many are kept on the way.
    fn first(
        &self,
        alloc: Global,
        policy: &Policy<'_>,
        count: usize,
    ) -> Result<Vec<u32>, AllocError>
        ensures { (criteria : Criteria) → IsQueryOf policy.now criteria self.now → IfOk result (λ numbers. numbers.items ≡ take count (in_rule_order policy.now (meeting policy.now criteria))) }
    {
        let mut found = FoundRules::First(LeastKeys::new(alloc, count));
        self.add_all(policy, &mut found)?;
        found.sorted(alloc, policy)
    }
}

// Whether that rule passes all tests.
#[inline(always)]
fn all_pass(tests: &[Test], policy: &Policy<'_>, number: u32, ends: RuleEnds) -> bool
    requires { IsRuleAt policy.now number ends }
    ensures { result ≡ list_all (rule_test policy.now.symbols (rule_at policy.now number)) tests.now }
{
    for test in tests {
        if !test.passes(policy, number, ends) {
            return false;
        }
    }
    true
}
