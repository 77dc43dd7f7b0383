// The rules that count and flow at least a weight.
ghost use Rattle.std.specs.Prelude.{◌≡◌, ◌≤◌, ◌++◌, ◌∷◌, [], IfOk, OnOk, length, if◌then◌else◌};
ghost use Rattle.pol_read.specs.StoredRules.{stored_rules};
ghost use Rattle.perm_map.specs.PermissionMap.{weights_of};
ghost use Rattle.flow_search.specs.FlowWeights.{inwards, outwards};
ghost use Rattle.flow_search.specs.Inner.FlowParts.{rules_reaching};

use crate::reach_test::ReachTest;
use crate::weigher::Weigher;
use std::alloc::{AllocError, Global};

/// Rules by their numbers, rising.
#[derive(Drop)]
pub struct Reaching {
    /// The rules by which at least the weight flows from their source to their target.
    pub out: Vec<u32>,
    /// The rules by which it flows from their target to their source.
    pub into: Vec<u32>,
}

/// Goes through the rules of a policy once.
#[tactic(auto, unfolding(crate::specs::Inner::FlowParts::rules_reaching))]
pub fn rules_reaching(
    alloc: Global,
    weigher: &Weigher<'_>,
    least: u8,
) -> Result<Reaching, AllocError>
    requires { 1 ≤ least }
    ensures out { IfOk result (λ found. found.out.items ≡ rules_reaching outwards (weights_of weigher.now.entries) weigher.now.rules least) }
    ensures into { IfOk result (λ found. found.into.items ≡ rules_reaching inwards (weights_of weigher.now.entries) weigher.now.rules least) }
    ensures few { length (stored_rules weigher.now.rules.policy) ≤ 400000000 }
{
    let policy = weigher.policy();
    let count = policy.rule_count();
    let test = ReachTest::new(alloc, weigher, least)?;
    // room that is not written to takes no memory, and what grows is copied
    let room = policy.table().len() as usize;
    let mut out = Vec::with_capacity(alloc, room)?;
    let mut into = Vec::with_capacity(alloc, room)?;
    for number in 0..count {
        let rule = policy.rule(number);
        let ways = test.ways(&rule);
        push_where(&mut out, ways.out, number)?;
        push_where(&mut into, ways.into, number)?;
    }
    Ok(Reaching { out, into })
}

// Appends a number where a test holds.
fn push_where(found: &mut Vec<u32>, holds: bool, number: u32) -> Result<(), AllocError>
    ensures { OnOk result (found.new.items ≡ found.old.items ++ (if holds then number ∷ [] else [])) }
{
    if holds {
        found.push(number)?;
    }
    Ok(())
}
