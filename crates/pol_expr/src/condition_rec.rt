//! A condition, owned.

use pol_cursor::OwnedList;

/// An item of a condition.
#[derive(Clone, Copy, Debug, PartialEq, Eq)]
pub struct ConditionItem {
    /// One of [`codes`](crate::codes).
    pub kind: u32,
    /// The value of the boolean. It is kept for other kinds than [`COND_BOOL`](crate::codes::COND_BOOL) and has no meaning there.
    pub boolean: u32,
}

/// The expression of a conditional node, owned.
#[derive(Drop)]
pub struct ConditionRec {
    /// What the expression was when the policy was written. It is kept.
    pub state: u32,
    /// The items, each operator after its operands.
    pub items: OwnedList<ConditionItem>,
}
