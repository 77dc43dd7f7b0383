ghost use Rattle.std.specs.Prelude.{◌≡◌, ◌+◌, ◌<◌, ◌≤◌, IfOk, length, map};
ghost use Rattle.pol_expand.specs.PolicyMap.{IsPolicyMap};
ghost use Rattle.pol_read.specs.StoredRules.{stored_rules};
ghost use Rattle.rule_order.specs.ListedOrder.{AreRules};
ghost use Rattle.rule_criteria.specs.declared.Criteria.{Criteria};
ghost use Rattle.rule_query.specs.Queries.{IsQueryOf};
ghost use Rattle.rule_singles.specs.Inner.EndSets.{AreAsked, AreSetsOf, Grows, IsEntryOf};
ghost use Rattle.rule_singles.specs.FoundSingles.{ends_of_rule};

use crate::end_sets::EndSets;
use pol_bitmap::Pool;
use pol_expand::TypeMap;
use pol_read::Policy;
use rule_criteria::Criteria;
use rule_query::Query;
use set_products::{CountedSets, Entry, Places};
use std::alloc::{AllocError, Global};
use std::marker::Model;

/// Rules with the sources and the targets that are listed of them: an entry a rule, over sets that are each kept once. Contracts see the
/// rules, each with its sources and its targets.
pub struct SingleRules {
    entries: Vec<Entry>,
    sets: CountedSets,
}

// Its parts go in one call, wherever it is dropped.
impl Drop for SingleRules {
    fn drop(self) {
        let SingleRules { entries, sets } = self;
    }
}

impl Model for SingleRules {
    ghost use Rattle.std.specs.Prelude.{List};
    ghost use Rattle.set_products.specs.Members.{AreNumbers, Product, products_of};

    ghost Value = { List Product };

    ghost view = { λ rules. products_of rules.entries.items rules.sets };

    ghost invariant = { λ rules. AreNumbers rules.entries.items rules.sets };
}

impl SingleRules {
    /// The rules of these numbers, with the ends that the criteria of a query list. The set of an end is made once, and counted once.
    pub fn of(
        alloc: Global,
        policy: &Policy<'_>,
        types: &TypeMap,
        criteria: &Criteria,
        query: &Query,
        numbers: &[u32],
    ) -> Result<SingleRules, AllocError>
        requires map { IsPolicyMap policy.now types.now }
        requires query { IsQueryOf policy.now criteria.now query.now }
        requires rules { AreRules policy.now numbers.now }
        requires few { length numbers.now ≤ length (stored_rules policy.now) }
        ensures { IfOk result (λ rules. rules ≡ map (ends_of_rule policy.now criteria.now) numbers.now) }
    {
        // the clause says that there are few rules, so that each of their sets has a number
        let _count = policy.rule_count();
        let mut sources = EndSets::new(alloc, policy, &criteria.source, query.sources())?;
        let mut targets = EndSets::new(alloc, policy, &criteria.target, query.targets())?;
        let mut pool = Pool::new(alloc);
        let mut entries = Vec::with_capacity(alloc, numbers.len())?;
        for number in numbers {
            let entry = entry_of(
                alloc,
                policy,
                types,
                &mut sources,
                &mut targets,
                &mut pool,
                *number,
            )?;
            entries.push(entry)?;
        }
        let sets = CountedSets::new(alloc, pool)?;
        Ok(SingleRules { entries, sets })
    }

    /// The single rules, one after the other.
    pub fn places(&self) -> Places<'_>
        ensures { result ≡ self.now }
    {
        Places::new(&self.entries, &self.sets)
    }
}

// The entry of a rule.
fn entry_of(
    alloc: Global,
    policy: &Policy<'_>,
    types: &TypeMap,
    sources: &mut EndSets,
    targets: &mut EndSets,
    pool: &mut Pool,
    number: u32,
) -> Result<Entry, AllocError>
    requires map { IsPolicyMap policy.now types.now }
    requires rule { number < length (stored_rules policy.now) }
    requires sources { AreSetsOf policy.now sources.old.left pool.old sources.old.numbers.items }
    requires targets { AreSetsOf policy.now targets.old.left pool.old targets.old.numbers.items }
    requires room { length pool.old + 1 < 4294967295 }
    ensures same_sources { sources.new.left ≡ sources.old.left }
    ensures same_targets { targets.new.left ≡ targets.old.left }
    ensures grows { Grows 2 pool.old pool.new }
    ensures sources { AreSetsOf policy.now sources.new.left pool.new sources.new.numbers.items }
    ensures targets { AreSetsOf policy.now targets.new.left pool.new targets.new.numbers.items }
    ensures entry { (criteria : Criteria) → AreAsked policy.now criteria.source sources.old.left → AreAsked policy.now criteria.target targets.old.left
        → IfOk result (IsEntryOf policy.now criteria pool.new number) }
{
    let ends = policy.rule_ends(number);
    let table = ends.kind.source_table();
    let sources = sources.number_of(alloc, policy, types, table, ends.source, pool)?;
    let table = ends.kind.target_table();
    let targets = targets.number_of(alloc, policy, types, table, ends.target, pool)?;
    Ok(Entry {
        rule: number,
        sources,
        targets,
    })
}
