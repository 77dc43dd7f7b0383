// The values of the conditions of a policy's nodes.
ghost use Rattle.std.specs.Prelude.{◌≡◌, IfOk, slice_get};
ghost use Rattle.counted_rules.specs.CountedRules.{node_values};
ghost use Rattle.counted_rules.specs.Inner.NodeTables.{enables, is_branch_of};

use bool_state::BoolState;
use pol_read::{Condition, Policy};
use std::alloc::{AllocError, Global};

/// The value of the condition of each node of a policy, in their order, and the state of the booleans that gives it.
#[derive(Drop)]
pub struct NodeValues {
    /// The booleans that are true.
    pub on: BoolState,
    /// The values.
    pub values: Vec<bool>,
}

impl NodeValues {
    /// Goes through the nodes of a policy once.
    pub fn new(
        alloc: Global,
        policy: &Policy<'_>,
        state: &BoolState,
    ) -> Result<NodeValues, AllocError>
        ensures on { IfOk result (λ values. values.on ≡ state.now) }
        ensures values { IfOk result (λ values. values.values.items ≡ node_values state.now policy.now.rules.conditionals) }
    {
        Ok(NodeValues {
            on: state.share()?,
            values: values_in(alloc, policy, state)?,
        })
    }

    /// Whether what stands under a condition is enabled, or under none.
    pub fn enable(&self, condition: Option<Condition>) -> bool
        ensures { result ≡ enables self.now.values.items condition }
    {
        match condition {
            None => true,
            Some(condition) => is_on(&self.values, condition),
        }
    }
}

// The values of the conditions of all nodes of a policy in a state.
fn values_in(alloc: Global, policy: &Policy<'_>, state: &BoolState) -> Result<Vec<bool>, AllocError>
    ensures { IfOk result (λ values. values.items ≡ node_values state.now policy.now.rules.conditionals) }
{
    let count = policy.conditionals().len();
    let mut values = Vec::with_capacity(alloc, count as usize)?;
    for node in 0..count {
        values.push(state.value(&policy.condition(node)))?;
    }
    Ok(values)
}

// Whether the branch of a node is the value of its condition.
fn is_on(values: &[bool], condition: Condition) -> bool
    ensures { result ≡ is_branch_of condition.branch (slice_get values.now condition.node) }
{
    match values.get(condition.node as usize) {
        Some(value) => *value == condition.branch,
        None => false,
    }
}
