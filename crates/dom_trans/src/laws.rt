//! The transitions by enabled rules are those of a policy. A function with no code claims it.
ghost use Rattle.std.specs.Prelude.{◌≡◌, ℕ};
ghost use Rattle.pol_file.specs.declared.Parts.{Parts};
ghost use Rattle.bool_state.specs.BooleanStates.{Booleans};
ghost use Rattle.counted_rules.specs.CountedRules.{all_rules, rules_under};
ghost use Rattle.counted_rules.specs.EnabledPolicy.{enabled_policy};
ghost use Rattle.dom_trans.specs.Transitions.{entries, is_transition};

/// The transitions by the rules of a policy that are enabled, where exactly the booleans of a set are true, and their entry types, are those
/// of the policy that has no other rules.
pub fn enabled_transitions_are_those_of_a_policy()
    ensures transitions { (policy : Parts) (on : Booleans) (a b : ℕ) → is_transition (rules_under policy on) a b ≡ is_transition (all_rules (enabled_policy policy on)) a b }
    ensures entries { (policy : Parts) (on : Booleans) (a b : ℕ) → entries (rules_under policy on) a b ≡ entries (all_rules (enabled_policy policy on)) a b }
{}
