// The rules that meet a query, gathered section by section, where they stand.
ghost use Rattle.std.specs.Prelude.{◌≡◌, ◌+◌, ◌<◌, ◌≤◌, [], Some, IfOk, OnOk, length, option_map, slice_get};
ghost use Rattle.pol_read.specs.StoredRules.{av_rule, ends_of, rules_of_branch, rules_of_node, stored_rules};
ghost use Rattle.rule_order.specs.FoundRules.{AreFound, limit_of};
ghost use Rattle.rule_query.specs.Inner.Gathering.{HasMet, PassesOver, StandFrom};
ghost use Rattle.rule_query.specs.Inner.MarkedSets.{AreMarksOfSome};
ghost use Rattle.rule_query.specs.QueryTests.{first_of, types_of};

use crate::given::Aspect;
use crate::query::Query;
use pol_avtab::AvView;
use pol_read::{Condition, Policy, RuleEnds, vector_ends};
use rule_order::FoundRules;
use rule_tests::AskedVectors;
use std::alloc::AllocError;
use value_groups::DenseSet;

impl Query {
    /// Adds the rules that meet the criteria, in file order. Only the kind and the ends are read of an access vector whose kind, source
    /// or target is not asked.
    pub(crate) fn add_all(
        &self,
        policy: &Policy<'_>,
        found: &mut FoundRules,
    ) -> Result<(), AllocError>
        requires { AreFound policy.now [] found.old }
        ensures limit { OnOk result (limit_of found.new ≡ limit_of found.old) }
        ensures found { OnOk result (HasMet policy.now self.now (length (stored_rules policy.now)) found.new) }
    {
        let count = policy.rule_count();
        let asked = self.asked_vectors();
        self.add_of_table(policy, &asked, found)?;
        let next = self.add_under_conditions(policy, &asked, found)?;
        for number in next..count {
            self.add_met(policy, number, policy.rule_ends(number), found)?;
        }
        Ok(())
    }

    // Adds those of the table of access vectors, 128 rules at a time.
    fn add_of_table(
        &self,
        policy: &Policy<'_>,
        asked: &AskedVectors<'_>,
        found: &mut FoundRules,
    ) -> Result<(), AllocError>
        requires asked { PassesOver self.now asked.now }
        requires found { HasMet policy.now self.now 0 found.old }
        ensures limit { OnOk result (limit_of found.new ≡ limit_of found.old) }
        ensures found { OnOk result (HasMet policy.now self.now (length policy.now.rules.table) found.new) }
    {
        let count = policy.table().len();
        let mut from = 0;
        while from < count {
            let to = from + (count - from).min(128);
            self.add_block(policy, asked, from, to, found)?;
            from = to;
        }
        Ok(())
    }

    // The access vectors that may pass, by their kinds and by the types that are asked.
    fn asked_vectors(&self) -> AskedVectors<'_>
        ensures { PassesOver self.now result }
    {
        let sources = self.marks_of(Aspect::Source);
        let targets = self.marks_of(Aspect::Target);
        AskedVectors::new(&self.kinds, sources, targets)
    }

    // The marks of the types that are asked for at an end, where there are some.
    fn marks_of(&self, end: Aspect) -> Option<&DenseSet>
        ensures { AreMarksOfSome (first_of (types_of end) self.now.tests.items) (option_map (λ marks. marks.now) result) }
    {
        self.types_of(end)?.marks()
    }

    // Adds those from one number up to another. The numbers of those that may be asked are put together first, and only these rules are
    // looked at one by one.
    fn add_block(
        &self,
        policy: &Policy<'_>,
        asked: &AskedVectors<'_>,
        from: u32,
        to: u32,
        found: &mut FoundRules,
    ) -> Result<(), AllocError>
        requires rising { from ≤ to }
        requires within { to ≤ length policy.now.rules.table }
        requires few { to ≤ from + 128 }
        requires asked { PassesOver self.now asked.now }
        requires found { HasMet policy.now self.now from found.old }
        ensures limit { OnOk result (limit_of found.new ≡ limit_of found.old) }
        ensures found { OnOk result (HasMet policy.now self.now to found.new) }
    {
        // the policy was accepted, and so what its rules name is declared
        policy.is_accepted();
        let mut numbers = [0; 128];
        let count = asked.gather(policy.table(), from, to, &mut numbers);
        for number in &numbers[..count] {
            self.add_vector(policy, *number, found)?;
        }
        Ok(())
    }

    // Adds the rule of that number, which stands in the table, if it meets the criteria.
    #[tactic(auto, using(pol_read::proofs::RuleSums::table_first))]
    #[inline(always)]
    fn add_vector(
        &self,
        policy: &Policy<'_>,
        number: u32,
        found: &mut FoundRules,
    ) -> Result<(), AllocError>
        requires within { number < length policy.now.rules.table }
        requires found { HasMet policy.now self.now number found.old }
        ensures limit { OnOk result (limit_of found.new ≡ limit_of found.old) }
        ensures found { OnOk result (HasMet policy.now self.now (number + 1) found.new) }
    {
        let ends = vector_ends(policy.table().view(number).key());
        self.add_met(policy, number, ends, found)
    }

    // Adds those under conditions, node by node, and tells the number of the rule behind them.
    fn add_under_conditions(
        &self,
        policy: &Policy<'_>,
        asked: &AskedVectors<'_>,
        found: &mut FoundRules,
    ) -> Result<u32, AllocError>
        requires asked { PassesOver self.now asked.now }
        requires found { HasMet policy.now self.now (length policy.now.rules.table) found.old }
        ensures limit { IfOk result (λ next. limit_of found.new ≡ limit_of found.old) }
        ensures found { IfOk result (λ next. HasMet policy.now self.now next found.new) }
    {
        let mut next = policy.table().len();
        for node in 0..policy.conditionals().len() {
            next = self.add_of_node(policy, asked, node, next, found)?;
        }
        Ok(next)
    }

    // Adds those under the condition of a node, from the number of the first on, and tells the number of the rule behind them.
    fn add_of_node(
        &self,
        policy: &Policy<'_>,
        asked: &AskedVectors<'_>,
        node: u32,
        first: u32,
        found: &mut FoundRules,
    ) -> Result<u32, AllocError>
        requires asked { PassesOver self.now asked.now }
        requires node { node < length policy.now.rules.conditionals }
        requires rules { StandFrom policy.now first (rules_of_node policy.now.rules.conditionals node) }
        requires found { HasMet policy.now self.now first found.old }
        ensures limit { IfOk result (λ next. limit_of found.new ≡ limit_of found.old) }
        ensures next { IfOk result (λ next. next ≡ first + length (rules_of_node policy.now.rules.conditionals node)) }
        ensures found { IfOk result (λ next. HasMet policy.now self.now next found.new) }
    {
        let when_true = Condition { node, branch: true };
        let when_false = Condition {
            node,
            branch: false,
        };
        let next = self.add_of_branch(policy, asked, when_true, first, found)?;
        self.add_of_branch(policy, asked, when_false, next, found)
    }

    // Adds those of one branch of a node, in the same way.
    fn add_of_branch(
        &self,
        policy: &Policy<'_>,
        asked: &AskedVectors<'_>,
        condition: Condition,
        first: u32,
        found: &mut FoundRules,
    ) -> Result<u32, AllocError>
        requires asked { PassesOver self.now asked.now }
        requires node { condition.node < length policy.now.rules.conditionals }
        requires rules { StandFrom policy.now first (rules_of_branch policy.now.rules.conditionals condition.node condition.branch) }
        requires found { HasMet policy.now self.now first found.old }
        ensures limit { IfOk result (λ next. limit_of found.new ≡ limit_of found.old) }
        ensures next { IfOk result (λ next. next ≡ first + length (rules_of_branch policy.now.rules.conditionals condition.node condition.branch)) }
        ensures found { IfOk result (λ next. HasMet policy.now self.now next found.new) }
    {
        let node = policy.conditionals().view(condition.node);
        let mut number = first;
        for view in node.rules(condition.branch) {
            self.add_conditional(policy, asked, number, &view, condition, found)?;
            number += 1;
        }
        Ok(number)
    }

    // Adds the rule of a number, which is an access vector under a condition, if it meets the criteria.
    #[inline(always)]
    fn add_conditional(
        &self,
        policy: &Policy<'_>,
        asked: &AskedVectors<'_>,
        number: u32,
        view: &AvView<'_>,
        condition: Condition,
        found: &mut FoundRules,
    ) -> Result<(), AllocError>
        requires asked { PassesOver self.now asked.now }
        requires rule { slice_get (stored_rules policy.now) number ≡ Some (av_rule (Some condition) view.now) }
        requires found { HasMet policy.now self.now number found.old }
        ensures limit { OnOk result (limit_of found.new ≡ limit_of found.old) }
        ensures found { OnOk result (HasMet policy.now self.now (number + 1) found.new) }
    {
        // the policy was accepted, and so what its rules name is declared
        policy.is_accepted();
        if !asked.may_be(view) {
            return Ok(());
        }
        self.add_met(policy, number, vector_ends(view.key()), found)
    }

    // Adds the rule of a number, which has these ends, if it meets the criteria.
    #[inline(always)]
    fn add_met(
        &self,
        policy: &Policy<'_>,
        number: u32,
        ends: RuleEnds,
        found: &mut FoundRules,
    ) -> Result<(), AllocError>
        requires rule { option_map ends_of (slice_get (stored_rules policy.now) number) ≡ Some ends }
        requires found { HasMet policy.now self.now number found.old }
        ensures limit { OnOk result (limit_of found.new ≡ limit_of found.old) }
        ensures found { OnOk result (HasMet policy.now self.now (number + 1) found.new) }
    {
        // the policy was accepted, and so what its rules name is declared
        policy.is_accepted();
        if self.passes(policy, number, ends) {
            found.add_ends(policy, number, ends)?;
        }
        Ok(())
    }
}
