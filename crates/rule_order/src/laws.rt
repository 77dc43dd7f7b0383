// What is true of the order in which rules are listed.
ghost use Rattle.std.specs.Prelude.{◌≡◌, ℕ, List, Ok};
ghost use Rattle.std.specs.List.Sorted.{IsPermutation};
ghost use Rattle.pol_file.specs.declared.Parts.{Parts};
ghost use Rattle.pol_file.specs.Acceptance.{accept};
ghost use Rattle.pol_read.specs.RuleOrder.{AreInRuleOrder};
ghost use Rattle.rule_order.specs.ListedOrder.{AreRules, RiseStrictly, StandOnce, in_rule_order};

use pol_read::Policy;

/// Rules are put in one order, however they stood before.
pub fn rules_have_one_order(policy: &Policy<'_>)
    ensures { (xs ys : List ℕ) → AreRules policy.now xs → IsPermutation xs ys → in_rule_order policy.now xs ≡ in_rule_order policy.now ys }
{
    // the policy was accepted, and so what its rules name is declared
    policy.is_accepted();
}

/// Rules of an accepted policy are listed in the one order of their names: the numbers that are listed are the given ones, each as
/// often; of any two the first is not listed after the second, and is listed before it where no number is given twice; and no other list of
/// the given numbers is in this order. [`Policy::sort_rules`] gives just this list.
pub fn rules_are_listed_once()
    ensures same { (policy : Parts) (numbers : List ℕ) → IsPermutation numbers (in_rule_order policy numbers) }
    ensures rise { (bytes : List ℕ) (policy : Parts) (numbers : List ℕ) → accept bytes ≡ Ok policy → AreRules policy numbers → AreInRuleOrder policy (in_rule_order policy numbers) }
    ensures once { (bytes : List ℕ) (policy : Parts) (numbers : List ℕ) → accept bytes ≡ Ok policy → AreRules policy numbers → StandOnce numbers → RiseStrictly policy (in_rule_order policy numbers) }
    ensures one { (bytes : List ℕ) (policy : Parts) (numbers listed : List ℕ) → accept bytes ≡ Ok policy → AreRules policy numbers → IsPermutation numbers listed → AreInRuleOrder policy listed → listed ≡ in_rule_order policy numbers }
{}
