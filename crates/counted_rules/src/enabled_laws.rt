//! A rule is enabled by the value of its condition, and the enabled rules are those of a policy that has no others. Functions with no code claim
//! it.
ghost use Rattle.std.specs.Prelude.{◌≡◌, ◌↔◌, ℕ, Bool, true, Some, None, IsTrue, List, slice_get};
ghost use Rattle.std.specs.List.{filter};
ghost use Rattle.pol_cursor.specs.References.{Placed};
ghost use Rattle.pol_expr.specs.ConditionRecord.{IsCondition};
ghost use Rattle.pol_conditionals.specs.declared.CondNodeRec.{CondNodeRec};
ghost use Rattle.pol_file.specs.declared.Parts.{Parts};
ghost use Rattle.pol_read.specs.declared.Condition.{Condition};
ghost use Rattle.pol_read.specs.StoredRules.{StoredRule, stored_rules};
ghost use Rattle.bool_state.specs.BooleanStates.{Booleans, HasValue};
ghost use Rattle.counted_rules.specs.CountedRules.{all_rules, counts, rules_under};
ghost use Rattle.counted_rules.specs.EnabledPolicy.{enabled_policy};

/// A rule under a condition is enabled exactly where the tree that the condition stands for has the value of the rule's branch, and a rule
/// under none always. All rules of a policy count where no state is asked for.
pub fn rules_are_enabled_by_their_conditions()
    ensures under { (policy : Parts) (on : Booleans) (rule : StoredRule) (condition : Condition) (node : Placed CondNodeRec) → rule.condition ≡ Some condition → slice_get policy.rules.conditionals condition.node ≡ Some node → IsCondition node.value.condition.items → IsTrue (counts (rules_under policy on) rule) ↔ HasValue on node.value.condition.items condition.branch }
    ensures free { (policy : Parts) (on : Booleans) (rule : StoredRule) → rule.condition ≡ None → counts (rules_under policy on) rule ≡ true }
    ensures all { (policy : Parts) (rule : StoredRule) → counts (all_rules policy) rule ≡ true }
{}

/// The enabled rules of a policy, in file order, are all rules of the policy that has no others.
pub fn enabled_rules_are_a_policy()
    ensures { (policy : Parts) (on : Booleans) → filter (counts (rules_under policy on)) (stored_rules policy) ≡ stored_rules (enabled_policy policy on) }
{}
