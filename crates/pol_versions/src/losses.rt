// What a version cannot hold of a tree, the number of its bytes aside.
ghost use Rattle.std.specs.Prelude.{◌≡◌};
ghost use Rattle.std.specs.List.{list_any};
ghost use Rattle.pol_versions.specs.Losses.{has_extended, has_extended_node, is_extended_node, is_extended_rule, lost_part};

use pol_avtab::{AvPart, AvRec};
use pol_conditionals::CondNodeRec;
use pol_contexts::has_infiniband;
use pol_fields::codes::{POLICYDB_VERSION_COND_XPERMS, POLICYDB_VERSION_XPERMS_IOCTL};
use pol_tree::Tree;
use pol_unheld::Unheld;

/// The first part of a tree that the version has no room for.
pub fn lost_part(tree: &Tree, version: u32) -> Option<Unheld>
    ensures { result ≡ lost_part tree.now version }
{
    let conditional = has_extended_node(tree.condlist.as_slice());
    if version < POLICYDB_VERSION_XPERMS_IOCTL
        && (conditional || has_extended(tree.avtab.as_slice()))
    {
        return Some(Unheld::Extended);
    }
    if version < POLICYDB_VERSION_COND_XPERMS && conditional {
        return Some(Unheld::ConditionalExtended);
    }
    if !has_infiniband(version) && !(tree.ibpkey.is_empty() && tree.ibendport.is_empty()) {
        return Some(Unheld::Infiniband);
    }
    None
}

// Whether a rule of some conditional node is extended.
fn has_extended_node(nodes: &[CondNodeRec]) -> bool
    ensures { result ≡ has_extended_node nodes.now }
{
    nodes.iter().any(|node| is_extended_node(node))
}

fn is_extended_node(node: &CondNodeRec) -> bool
    ensures { result ≡ is_extended_node node.now }
{
    has_extended(node.true_rules.as_slice()) || has_extended(node.false_rules.as_slice())
}

// Whether an access vector is extended.
fn has_extended(rules: &[AvRec]) -> bool
    ensures { result ≡ has_extended rules.now }
{
    rules.iter().any(|rule| is_extended(rule))
}

fn is_extended(rule: &AvRec) -> bool
    ensures { result ≡ is_extended_rule rule.now }
{
    matches!(rule.part, AvPart::Extended { .. })
}
