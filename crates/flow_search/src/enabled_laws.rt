//! The flows by the enabled rules of a policy are those of a policy that has no other rules. A function with no code claims it.
ghost use Rattle.std.specs.Prelude.{◌≡◌, ℕ, map, slice_get};
ghost use Rattle.pol_file.specs.declared.Parts.{Parts};
ghost use Rattle.pol_read.specs.StoredRules.{stored_rules};
ghost use Rattle.bool_state.specs.BooleanStates.{Booleans};
ghost use Rattle.counted_rules.specs.CountedRules.{all_rules, rules_under};
ghost use Rattle.counted_rules.specs.EnabledPolicy.{enabled_policy};
ghost use Rattle.perm_map.specs.PermissionMap.{Weights};
ghost use Rattle.flow_search.specs.Flows.{flow_rules, flow_weight};

/// The flows by the enabled rules of a policy are the flows by all rules of the policy that has no others: their weights, and the rules that
/// give them, in their order.
pub fn enabled_flows_are_those_of_a_policy()
    ensures weights { (weights : Weights) (policy : Parts) (on : Booleans) (from to : ℕ) → flow_weight weights (rules_under policy on) from to ≡ flow_weight weights (all_rules (enabled_policy policy on)) from to }
    ensures rules { (weights : Weights) (policy : Parts) (on : Booleans) (least from to : ℕ) → map (slice_get (stored_rules policy)) (flow_rules weights (rules_under policy on) least from to) ≡ map (slice_get (stored_rules (enabled_policy policy on))) (flow_rules weights (all_rules (enabled_policy policy on)) least from to) }
{}
