// How many rules there are of each kind.
ghost use Rattle.std.specs.Prelude.{◌≡◌, ◌+◌, ◌<◌, ◌≤◌, ◌^◌, get_or, length, map, slice_set, take};
ghost use Rattle.pol_read.specs.StoredRules.{stored_rules, rules_of_nodes};
ghost use Rattle.pol_read.specs.RuleKinds.{kind_number};
ghost use Rattle.info_summary.specs.SummaryLines.{count_line, entry_line};
ghost use Rattle.info_summary.specs.RuleCounts.{kind_counts};
ghost use Rattle.info_summary.specs.Summary.{rule_lines};

use crate::entry::{Entry, count};
use pol_conditionals::Conditionals;
use pol_read::{Policy, RuleKind};

/// The counts of the stored rules of each kind.
#[tactic(auto, unfolding(crate::specs::RuleCounts::kind_counts))]
pub fn rule_counts(policy: &Policy<'_>) -> [Entry; 12]
    ensures { map entry_line result ≡ rule_lines policy.now }
{
    let counts = count_rules(policy);
    [
        count_of("Allow", RuleKind::Allow, &counts),
        count_of("Auditallow", RuleKind::Auditallow, &counts),
        count_of("Dontaudit", RuleKind::Dontaudit, &counts),
        count_of("Allowxperm", RuleKind::AllowXperm, &counts),
        count_of("Auditallowxperm", RuleKind::AuditallowXperm, &counts),
        count_of("Dontauditxperm", RuleKind::DontauditXperm, &counts),
        count_of("Type_transition", RuleKind::TypeTransition, &counts),
        count_of("Type_change", RuleKind::TypeChange, &counts),
        count_of("Type_member", RuleKind::TypeMember, &counts),
        count_of("Role_allow", RuleKind::RoleAllow, &counts),
        count_of("Role_transition", RuleKind::RoleTransition, &counts),
        count_of("Range_transition", RuleKind::RangeTransition, &counts),
    ]
}

// The count of a kind.
#[tactic(auto, using(crate::proofs::RuleCounting::kind_below))]
fn count_of(words: &'static str, kind: RuleKind, counts: &[u64; 12]) -> Entry
    ensures { entry_line result ≡ count_line words.now (get_or counts.now (kind_number kind) 0) }
{
    count(words, counts[kind as usize])
}

// How many stored rules there are of each kind, by the numbers of the kinds. The access vectors, which are of many kinds, are counted one
// by one; of the others it is enough how many there are.
#[tactic(auto, using(crate::proofs::RuleCounting::all_rules))]
fn count_rules(policy: &Policy<'_>) -> [u64; 12]
    ensures { result ≡ kind_counts (stored_rules policy.now) }
{
    let rules = policy.rule_count();
    let vectors = policy.table().len() + conditional_count(policy.conditionals());
    let roles = policy.role_trans().len();
    let allows = policy.role_allows().len();
    let ranges = policy.range_trans().len();
    let named = rules - vectors - roles - allows - ranges;
    let mut counts = count_first(policy, vectors);
    add(&mut counts, RuleKind::RoleTransition, roles);
    add(&mut counts, RuleKind::RoleAllow, allows);
    add(&mut counts, RuleKind::TypeTransition, named);
    add(&mut counts, RuleKind::RangeTransition, ranges);
    counts
}

// How many rules there are under conditions.
#[tactic(auto, using(crate::proofs::RuleCounting::node_counted, crate::proofs::RuleCounting::nodes_counted))]
fn conditional_count(nodes: &Conditionals<'_>) -> u32
    requires { length (rules_of_nodes nodes.now) < 2 ^ 32 }
    ensures { result ≡ length (rules_of_nodes nodes.now) }
{
    let mut count = 0;
    for node in 0..nodes.len() {
        count += nodes.branch_len(node, true) + nodes.branch_len(node, false);
    }
    count
}

// How many of so many rules, from the first on, are of each kind.
#[tactic(auto, using(crate::proofs::RuleCounting::one_counted, crate::proofs::RuleCounting::counted_within_first))]
fn count_first(policy: &Policy<'_>, rules: u32) -> [u64; 12]
    requires { rules ≤ length (stored_rules policy.now) }
    ensures { result ≡ kind_counts (take rules (stored_rules policy.now)) }
{
    let mut counts = [0; 12];
    for n in 0..rules {
        add(&mut counts, policy.rule_ends(n).kind, 1);
    }
    counts
}

// Counts so many more rules of a kind.
#[tactic(auto, using(crate::proofs::RuleCounting::kind_below))]
fn add(counts: &mut [u64; 12], kind: RuleKind, more: u32)
    requires { get_or counts.old (kind_number kind) 0 < 2 ^ 32 }
    ensures { counts.new ≡ slice_set counts.old (kind_number kind) (get_or counts.old (kind_number kind) 0 + more) }
{
    counts[kind as usize] += u64::from(more);
}
