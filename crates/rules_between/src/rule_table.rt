// Rules with their ends, grouped by source and by target.
ghost use Rattle.std.specs.Prelude.{◌≡◌, ◌<◌, ◌^◌, true, IfOk, length};
ghost use Rattle.std.specs.List.{All};
ghost use Rattle.pol_expand.specs.JoinedTypes.{is_between_types};
ghost use Rattle.value_groups.specs.Inner.Grouping.{AreGroupsOf};
ghost use Rattle.rules_between.specs.Inner.RuleTables.{AreEndsOf};

use crate::rules_with_ends::RulesWithEnds;
use pol_read::Policy;
use std::alloc::{AllocError, Global};
use value_groups::Groups;

/// Rules with their ends, by their places in the list, and the places by source and by target.
pub struct RuleTable {
    pub rules: Vec<u32>,
    pub sources: Vec<u32>,
    pub targets: Vec<u32>,
    pub by_source: Groups,
    pub by_target: Groups,
}

// Its parts go in one call, wherever it is dropped.
impl Drop for RuleTable {
    fn drop(self) {
        let RuleTable {
            rules,
            sources,
            targets,
            by_source,
            by_target,
        } = self;
    }
}

impl RuleTable {
    /// The table of rules with their ends.
    pub fn of_gathered(
        alloc: Global,
        policy: &Policy<'_>,
        gathered: RulesWithEnds,
    ) -> Result<RuleTable, AllocError>
        requires few { length gathered.rules.items < 2 ^ 32 }
        requires ends { AreEndsOf policy.now gathered.rules.items gathered.sources.items gathered.targets.items }
        ensures rules { IfOk result (λ table. table.rules.items ≡ gathered.rules.items) }
        ensures ends { IfOk result (λ table. AreEndsOf policy.now table.rules.items table.sources.items table.targets.items) }
        ensures sources { IfOk result (λ table. AreGroupsOf policy.now.symbols.types.nprim table.sources.items table.by_source) }
        ensures targets { IfOk result (λ table. AreGroupsOf policy.now.symbols.types.nprim table.targets.items table.by_target) }
    {
        let most = policy.type_count();
        let by_source = Groups::of_values(alloc, &gathered.sources, most)?;
        let by_target = Groups::of_values(alloc, &gathered.targets, most)?;
        Ok(RuleTable {
            rules: gathered.rules,
            sources: gathered.sources,
            targets: gathered.targets,
            by_source,
            by_target,
        })
    }
}

/// The rules of these numbers, with their ends.
pub fn gathered_rules(
    alloc: Global,
    policy: &Policy<'_>,
    numbers: &[u32],
) -> Result<RulesWithEnds, AllocError>
    requires { All (λ number. is_between_types policy.now number ≡ true) numbers.now }
    ensures rules { IfOk result (λ gathered. gathered.rules.items ≡ numbers.now) }
    ensures ends { IfOk result (λ gathered. AreEndsOf policy.now gathered.rules.items gathered.sources.items gathered.targets.items) }
{
    let mut gathered = RulesWithEnds::new(alloc);
    for number in numbers {
        gathered.add(policy, *number, &policy.rule(*number))?;
    }
    Ok(gathered)
}
