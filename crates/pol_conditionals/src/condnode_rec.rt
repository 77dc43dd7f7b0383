//! A conditional node, owned.

use pol_avtab::AvRec;
use pol_cursor::OwnedList;
use pol_expr::ConditionRec;

/// Conditional nodes, owned.
pub type CondNodeRecList = OwnedList<CondNodeRec>;

/// A conditional node, owned.
pub struct CondNodeRec {
    /// The state and the expression.
    pub condition: ConditionRec,
    /// The rules that hold where the condition is true.
    pub true_rules: OwnedList<AvRec>,
    /// The rules that hold where it is false.
    pub false_rules: OwnedList<AvRec>,
}

// Its parts go in one call, wherever it is dropped.
impl Drop for CondNodeRec {
    fn drop(self) {
        let CondNodeRec {
            condition,
            true_rules,
            false_rules,
        } = self;
    }
}
